//! Laws of captures: calls without a body, whose contracts are the laws.
ghost use Rattle.std.specs.Prelude.{◌≡◌, ◌≤◌, List, None, length};
ghost use Rattle.std.specs.List.{AllByRecursion};
ghost use Rattle.capture_file.specs.Captures.{capture_fault, records};
ghost use Rattle.capture_file.specs.declared.entries.Record.{Record};
ghost use Rattle.capture_file.specs.Writing.{IsWritable, capture_text};

/// What was written is read back: the text of records that begin in less than 2^32 seconds, where it has
/// at most 67,108,864 octets.
#[tactic(auto, using(crate::proofs::Written::records_written, crate::proofs::Written::fault_written))]
pub fn written_is_read()
    ensures records { (rs : List Record) → AllByRecursion IsWritable rs → records (capture_text rs) ≡ rs }
    ensures fault { (rs : List Record) → AllByRecursion IsWritable rs → length (capture_text rs) ≤ 67108864 →
        capture_fault (capture_text rs) ≡ None }
{}

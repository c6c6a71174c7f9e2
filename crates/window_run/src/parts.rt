//! What the parts of a run hand out.
ghost use Rattle.std.specs.Prelude.{◌≡◌, ◌++◌, All, OnOk, map};
ghost use Rattle.net_parts.specs.OutputsOfParts.{rows_of_part, captures_of_part};
ghost use Rattle.net_parts.specs.Windows.{windows};

use collision_log::RowsList;
use exchange_core::PartList;
use lists::OutOfMemory;
use network::Captures;
use outside::Gate;
use turn_run::PartKind;
use worker_gate::Gated;

/// Puts the rows and captures of parts that have made all their windows behind others, part by part.
pub fn collect_parts<'g, K: PartKind, G: Gate>(
    parts: PartList<Gated<'g, K, G>>,
    rows: &mut RowsList,
    captures: &mut Vec<Captures>,
) -> Result<(), OutOfMemory>
    requires { All (λ s. K.at s.part ≡ windows (K.plan s.part)) parts.items }
    ensures rows { OnOk result (rows.new ≡ rows.old ++ map (λ s. rows_of_part (K.plan s.part) (K.number s.part)) parts.entry.items) }
    ensures captures { OnOk result (captures.new.items
        ≡ captures.old.items ++ map (λ s. captures_of_part (K.plan s.part) (K.number s.part)) parts.entry.items) }
{
    for part in parts {
        let outputs = part.into_part().hand_out()?;
        rows.push(outputs.rows)?;
        captures.push(outputs.captures)?;
    }
    Ok(())
}

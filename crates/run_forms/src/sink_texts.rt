//! Texts to a sink.
ghost use Rattle.std.specs.Prelude.{◌≡◌, ◌≤◌, OnOk, OnErr, IsErrOf};
ghost use Rattle.outside.specs.Files.{Rose};
ghost use Rattle.run_endings.specs.Writing.{added, IsCutShort};

use outside::{Sink, SinkFail};

/// Writes a text, or a front of it where the sink refuses.
pub fn write_text<K: Sink>(out: &mut K, text: &[u8]) -> Result<(), SinkFail>
    ensures ok { OnOk result (K.written out.new ≡ added text.now (K.written out.old)) }
    ensures err { OnErr result (IsCutShort text.now (K.written out.old) (K.written out.new)) }
    ensures failed { IsErrOf result SinkFail.Failed → Rose (K.faults out.old) (K.faults out.new) }
    ensures refusal { OnErr result (Rose (K.refused out.old) (K.refused out.new)) }
    ensures faults { K.faults out.old ≤ K.faults out.new }
    ensures refused { K.refused out.old ≤ K.refused out.new }
{
    let mut done = 0;
    while done < text.len() {
        let count = out.write(&text[done..])?;
        if count == 0 {
            return Err(SinkFail::Failed);
        }
        done += count;
    }
    Ok(())
}

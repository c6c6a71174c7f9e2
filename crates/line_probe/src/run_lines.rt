//! The text of a run.
ghost use Rattle.std.specs.Prelude.{◌≡◌, ◌≤◌, ◌+◌, ◌++◌, ℕ, decimal, length, take, drop};
ghost use Rattle.line_probe.specs.RunTexts.{line_of_run, word_of_symbol};

use crate::Run;
use manchester_line::Sym;

/// The word for a symbol.
pub fn word_of_symbol(symbol: Sym) -> &'static [u8]
    ensures { result.now ≡ word_of_symbol symbol }
{
    match symbol {
        Sym::Idle => b"idle",
        Sym::Hi => b"hi",
        Sym::Lo => b"lo",
        Sym::Clash => b"clash",
    }
}

/// Puts a text at this place of a room, and answers where it ends.
fn put(out: &mut [u8], at: usize, text: &[u8]) -> usize
    requires { at + length text.now ≤ length out.old }
    ensures end { result ≡ at + length text.now }
    ensures front { take result out.new ≡ take at out.old ++ text.now }
    ensures rest { (k : ℕ) → at + length text.now ≤ k → drop k out.new ≡ drop k out.old }
{
    let end = at + text.len();
    out[at..end].copy_from_slice(text);
    end
}

/// Puts a number in decimal at this place of a room, and answers where it ends.
fn put_number(out: &mut [u8], at: usize, number: u64) -> usize
    requires { at + 20 ≤ length out.old }
    ensures end { result ≤ at + 20 }
    ensures front { take result out.new ≡ take at out.old ++ decimal number }
    ensures rest { (k : ℕ) → result ≤ k → drop k out.new ≡ drop k out.old }
{
    let mut buffer = itoa::Buffer::new();
    put(out, at, buffer.format(number).as_bytes())
}

/// Writes the line of a run at the front of a room of at least 80 octets, leaves the rest of it, and answers the line's
/// length: `START COUNT SYMBOL` with `idle`, `hi`, `lo` or `clash`, and a line feed.
pub fn run_text(run: &Run, out: &mut [u8]) -> usize
    requires { 80 ≤ length out.old }
    ensures text { take result out.new ≡ line_of_run run.now }
    ensures fits { result ≤ 80 }
    ensures rest { drop result out.new ≡ drop result out.old }
{
    let start = put_number(out, 0, run.start);
    let blank = put(out, start, b" ");
    let count = put_number(out, blank, run.count);
    let blank = put(out, count, b" ");
    let symbol = put(out, blank, word_of_symbol(run.symbol));
    put(out, symbol, b"\n")
}

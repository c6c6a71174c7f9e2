//! The lines of a text, one after another.
ghost use Rattle.std.specs.Prelude.{◌≡◌, ◌<◌, ◌≤◌, ◌∷◌, [], length, IfSome, IfNone};
ghost use Rattle.std.specs.List.{prefix_len};
ghost use Rattle.run_checkpoint.specs.TextLines.{is_within_line, text_lines};

/// How many octets stand before the first line feed.
fn feed_place(octets: &[u8]) -> usize
    ensures len { result ≡ prefix_len is_within_line octets.now }
    ensures within { result ≤ length octets.now }
{
    let mut len = 0;
    while len < octets.len() && octets[len] != b'\n' {
        len += 1;
    }
    len
}

/// The first line, with its line feed where it has one, and the octets after it.
pub fn line_in_front(octets: &[u8]) -> Option<(&[u8], &[u8])>
    ensures none { IfNone result (text_lines octets.now ≡ []) }
    ensures some { IfSome result (λ l. text_lines octets.now ≡ l.0.now ∷ text_lines l.1.now) }
    ensures shorter { IfSome result (λ l. length l.1.now < length octets.now) }
{
    if octets.is_empty() {
        return None;
    }
    let end = feed_place(octets);
    if end == octets.len() {
        return Some((octets, &[]));
    }
    Some((&octets[..end + 1], &octets[end + 1..]))
}

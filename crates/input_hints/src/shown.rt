//! Words and lines of others, as a terminal may be given them.

use lists::OutOfMemory;

/// The most octets of a line that are shown.
const MOST_SHOWN: usize = 80;

/// Whether a character would act on a terminal in place of being seen.
fn acts(sign: char) -> bool {
    sign.is_control()
        || matches!(sign, '\u{200e}'..='\u{200f}' | '\u{2028}'..='\u{202e}' | '\u{2066}'..='\u{2069}')
}

fn show_sign(out: &mut String, sign: char) -> Result<(), OutOfMemory> {
    let letter = match sign {
        '\n' => 'n',
        '\t' => 't',
        '\r' => 'r',
        _ => ' ',
    };
    if !acts(sign) {
        out.push(sign)?;
    } else if letter == ' ' {
        let code = u32::from(sign);
        write!(out, "\\u{{{code:x}}}")?;
    } else {
        out.push('\\')?;
        out.push(letter)?;
    }
    Ok(())
}

/// Shows a text, with its control characters escaped.
pub fn show(out: &mut String, text: &str) -> Result<(), OutOfMemory> {
    for sign in text.chars() {
        show_sign(out, sign)?;
    }
    Ok(())
}

fn show_escaped(out: &mut String, octets: &[u8]) -> Result<(), OutOfMemory> {
    for octet in octets {
        write!(out, "\\x{octet:02x}")?;
    }
    Ok(())
}

/// Shows octets, with all that is no UTF-8 escaped too.
fn show_octets(out: &mut String, octets: &[u8]) -> Result<(), OutOfMemory> {
    for chunk in octets.utf8_chunks() {
        show(out, chunk.valid())?;
        show_escaped(out, chunk.invalid())?;
    }
    Ok(())
}

/// Shows a front of a line of at most 80 octets, between quotes.
pub fn show_front(out: &mut String, line: &[u8]) -> Result<(), OutOfMemory> {
    out.push_str("'")?;
    let front = line.get(..MOST_SHOWN).unwrap_or(line);
    show_octets(out, front)?;
    out.push_str(if line.len() > MOST_SHOWN { "' .." } else { "'" })?;
    Ok(())
}

/// Shows a word between quotes, of a long one a front.
pub fn show_word(out: &mut String, word: &str) -> Result<(), OutOfMemory> {
    show_front(out, word.as_bytes())
}

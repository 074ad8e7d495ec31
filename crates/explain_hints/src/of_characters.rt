//! Hints for bytes that are not printable ASCII.
use crate::hint::{Hint, Sentence};
use std::str;

/// What the byte at this place of a text means that is not printable ASCII: the encoding of the file, or a character.
pub(crate) fn of_character<'a>(text: &[u8], at: usize) -> Option<Hint<'a>> {
    if is_utf16(text, at) {
        Some(Hint::advised("the file is in UTF-16", "Save it as ASCII or UTF-8."))
    } else if at == 0 && text.starts_with(b"\xef\xbb\xbf") {
        Some(Hint::advised(
            "the file begins with a byte order mark",
            "Save it as ASCII, or as UTF-8 without the mark.",
        ))
    } else {
        let character = character_at(text, at)?;
        Some(Hint {
            message: Some(Sentence::Character(character)),
            advice: advice_on(character),
        })
    }
}

/// Whether a text is in UTF-16: it begins with a mark, or one of its first two bytes is 0.
fn is_utf16(text: &[u8], at: usize) -> bool {
    let is_marked = text.starts_with(b"\xff\xfe") || text.starts_with(b"\xfe\xff");
    is_marked || (at <= 1 && text.get(at) == Some(&0))
}

/// The character beyond ASCII that begins with this byte of a text, if it is one of UTF-8.
fn character_at(text: &[u8], at: usize) -> Option<char> {
    let length = match *text.get(at)? {
        0xc2..=0xdf => 2,
        0xe0..=0xef => 3,
        0xf0..=0xf4 => 4,
        _ => return None,
    };
    let bytes = text.get(at..)?.get(..length)?;
    match str::from_utf8(bytes) {
        Ok(shown) => shown.chars().next(),
        Err(_) => None,
    }
}

/// What to write in place of a character beyond ASCII.
fn advice_on(character: char) -> Option<&'static str> {
    match character {
        '\u{2010}'..='\u{2015}' | '\u{2212}' => Some("Write `-`."),
        '\u{a0}' | '\u{2000}'..='\u{200a}' | '\u{202f}' => Some("Write a plain blank."),
        _ => None,
    }
}

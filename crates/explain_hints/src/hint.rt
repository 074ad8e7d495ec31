//! The common mistakes behind faults, in sentences.
use crate::shown::Shown;
use std::fmt;

/// The common mistake behind a fault.
#[derive(Clone, Copy)]
pub struct Hint<'a> {
    /// What is wrong, if this says it better than the fault's own sentence. It has no capital at its beginning and no full stop at
    /// its end.
    pub message: Option<Sentence<'a>>,
    /// A sentence beside it: what to do, if that is known.
    pub advice: Option<&'static str>,
}

impl<'a> Hint<'a> {
    /// What is wrong.
    pub(crate) fn of(message: Sentence<'a>) -> Hint<'a> {
        Hint {
            message: Some(message),
            advice: None,
        }
    }

    /// What is wrong, in a text.
    pub(crate) fn text(text: &'static str) -> Hint<'a> {
        Hint::of(Sentence::Text(text))
    }

    /// What is wrong, in words of the file between two texts.
    pub(crate) fn around(before: &'static str, words: &'a [u8], after: &'static str) -> Hint<'a> {
        Hint::of(Sentence::Around(before, words, after))
    }

    /// What is wrong, and what to do.
    pub(crate) fn advised(text: &'static str, advice: &'static str) -> Hint<'a> {
        Hint {
            message: Some(Sentence::Text(text)),
            advice: Some(advice),
        }
    }

    /// What to do about the fault.
    pub(crate) fn advice(advice: &'static str) -> Hint<'a> {
        Hint {
            message: None,
            advice: Some(advice),
        }
    }
}

/// A sentence about a common mistake.
#[derive(Clone, Copy)]
pub enum Sentence<'a> {
    /// This text.
    Text(&'static str),
    /// Words of the file between two texts.
    Around(&'static str, &'a [u8], &'static str),
    /// A character beyond ASCII.
    Character(char),
}

impl fmt::Display for Sentence<'_> {
    fn fmt<W: fmt::Write>(&self, f: &mut fmt::Formatter<W>) -> fmt::Result {
        match self {
            Sentence::Text(text) => write!(f, "{text}"),
            Sentence::Around(before, words, after) => write!(f, "{before}{}{after}", Shown(words)),
            Sentence::Character(character) => write_character(*character, f),
        }
    }
}

/// Writes the sentence about a character beyond ASCII.
fn write_character<W: fmt::Write>(character: char, f: &mut fmt::Formatter<W>) -> fmt::Result {
    let number = u32::from(character);
    if is_printed(character) {
        write!(
            f,
            "`{character}` is not ASCII; only comments may contain it"
        )
    } else {
        write!(
            f,
            "the character U+{number:04X} is not ASCII; only comments may contain it"
        )
    }
}

/// Whether a character can be shown as it is: letters from left to right, and punctuation with a width of its own.
fn is_printed(character: char) -> bool {
    matches!(character,
        '\u{a1}'..='\u{ac}' | '\u{ae}'..='\u{2ff}' | '\u{370}'..='\u{482}' | '\u{48a}'..='\u{58f}'
        | '\u{1e00}'..='\u{1fff}' | '\u{2010}'..='\u{2027}' | '\u{2030}'..='\u{205e}' | '\u{20a0}'..='\u{20bf}'
        | '\u{2100}'..='\u{2bff}' | '\u{3041}'..='\u{3096}' | '\u{30a0}'..='\u{9fff}' | '\u{ac00}'..='\u{d7a3}')
}

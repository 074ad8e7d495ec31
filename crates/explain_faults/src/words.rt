//! The words that may occur at a place, in a sentence.
use explain_hints::{Name, has_word, is_near, separator};
use std::alloc::{AllocError, Global};
use tokens::{Kind, Word};

/// Whether similar keywords are suggested in place of this word.
pub(crate) fn is_suggested(word: &[u8], allowed: &[Word<'_>]) -> bool {
    !allowed.is_empty()
        && word.starts_with(b":")
        && allowed.iter().all(|other| is_near(word, other.text()))
}

/// The sentence about the words that may occur in place of this one. Similar keywords are offered as a question.
pub(crate) fn expected_sentence(
    alloc: Global,
    word: &[u8],
    allowed: &[Word<'_>],
) -> Result<String, AllocError> {
    let (opening, ending) = if is_suggested(word, allowed) {
        ("did you mean ", "?")
    } else {
        ("expected ", ".")
    };
    let mut out = String::from_str(alloc, opening)?;
    add_words(alloc, allowed, &mut out)?;
    out.push_str(ending)?;
    Ok(out)
}

/// Which names may occur at a place.
#[derive(Clone, Copy)]
enum NamesAllowed {
    /// All.
    Any,
    /// All but the reserved ones.
    Unreserved,
    /// Those listed one by one.
    Suggested,
}

impl NamesAllowed {
    /// Which names are among these words.
    fn among(words: &[Word<'_>]) -> NamesAllowed {
        if has_word(words, b"preference") {
            NamesAllowed::Any
        } else if has_word(words, b"name") {
            NamesAllowed::Unreserved
        } else {
            NamesAllowed::Suggested
        }
    }
}

/// Appends the words that may occur at a place, except those that another one stands for.
fn add_words(alloc: Global, words: &[Word<'_>], out: &mut String) -> Result<(), AllocError> {
    let names = NamesAllowed::among(words);
    let mut reported = Vec::new(alloc);
    for word in words {
        if is_reported(word, names) {
            reported.push(*word)?;
        }
    }
    for (index, word) in reported.as_slice().iter().enumerate() {
        out.push_str(separator(index, reported.len(), " or "))?;
        add_word(word, out)?;
    }
    Ok(())
}

/// Whether a word that may occur at a place is reported: a name is not if any name may occur, or any unreserved one.
fn is_reported(word: &Word<'_>, names: NamesAllowed) -> bool {
    match word.text() {
        b"name" => true,
        b"preference" => false,
        b"define" | b"domain" | b"problem" | b"number" | b"minimize" => {
            matches!(names, NamesAllowed::Suggested)
        }
        _ => word.kind() != Kind::Name || !matches!(names, NamesAllowed::Any),
    }
}

fn add_word(word: &Word<'_>, out: &mut String) -> Result<(), AllocError> {
    match word.kind() {
        Kind::Variable => out.push_str("a variable"),
        Kind::Number => out.push_str("a number"),
        Kind::Name if word.text() == b"name".as_slice() => out.push_str("a name"),
        _ => write!(out, "{}", Name(word.text())),
    }
}

//! The pieces of a text, its parentheses and runs, whether or not it reads as words; and its lists, as slices of the pieces.
ghost use Rattle.std.specs.Prelude.{◌<◌, ◌≤◌, ◌-◌, IfSome, length};
ghost use Rattle.std.specs.Iterator.{at_most};

use faults::NoMemory;
use std::alloc::Global;
use tokens::{Lexeme, Lexemes, Shape, Word};

/// The parentheses and runs of a text, in order.
///
/// # Errors
/// An allocation failed.
pub fn pieces(alloc: Global, text: &[u8]) -> Result<Vec<Lexeme<'_>>, NoMemory> {
    let mut pieces = Vec::new(alloc);
    for lexeme in Lexemes::of(text) {
        let is_piece = lexeme.shape() != Shape::Stray;
        if is_piece && pieces.push(lexeme).is_err() {
            return Err(NoMemory);
        }
    }
    Ok(pieces)
}

/// The index of the piece that begins at an offset of the text.
pub fn index_at(pieces: &[Lexeme<'_>], offset: usize) -> Option<usize>
    ensures { IfSome result (λ at. at < length pieces.now) }
{
    pieces.iter().position(|piece| piece.span().start == offset)
}

/// The index of the `(` of the innermost list around the piece with this index.
pub fn opening_of(pieces: &[Lexeme<'_>], at: usize) -> Option<usize>
    ensures { IfSome result (λ opening. opening < at) }
{
    let mut closed: usize = 0;
    for back in 0..at {
        let index = at - 1 - back;
        match pieces.get(index)?.shape() {
            Shape::Close => closed = closed.saturating_add(1),
            Shape::Open if closed == 0 => return Some(index),
            Shape::Open => closed = closed.saturating_sub(1),
            Shape::Run | Shape::Stray => {}
        }
    }
    None
}

/// The number of pieces of the item that comes first: 1 for a run, those of a list with its parentheses, which goes up to the last
/// piece if it is not closed, and 0 if there is a `)` or nothing.
fn first_length(pieces: &[Lexeme<'_>]) -> usize
    ensures { result ≤ length pieces.now }
{
    let mut depth: usize = 0;
    for index in 0..pieces.len() {
        match pieces[index].shape() {
            Shape::Open => depth = depth.saturating_add(1),
            Shape::Close if depth == 0 => return index,
            Shape::Close => depth = depth.saturating_sub(1),
            Shape::Run | Shape::Stray => {}
        }
        if depth == 0 {
            return index + 1;
        }
    }
    pieces.len()
}

/// The item that begins with the piece with this index: a run, or a list with its parentheses.
pub(crate) fn item_at<'w, 'a>(pieces: &'w [Lexeme<'a>], at: usize) -> &'w [Lexeme<'a>] {
    let rest = &pieces[at.min(pieces.len())..];
    &rest[..first_length(rest)]
}

/// The items of a list, in order: its runs, and its lists with their parentheses.
#[derive(Clone, Copy)]
pub(crate) struct Items<'w, 'a> {
    list: &'w [Lexeme<'a>],
    /// The index of the next item.
    at: usize,
}

impl<'w, 'a> Items<'w, 'a> {
    /// The items of a list that is given with its parentheses.
    pub(crate) fn of(list: &'w [Lexeme<'a>]) -> Items<'w, 'a> {
        Items { list, at: 1 }
    }
}

impl<'w, 'a> Iterator for Items<'w, 'a> {
    type Item = &'w [Lexeme<'a>];

    ghost remaining = { λ items. at_most (length items.list.now - items.at) };

    fn next(&mut self) -> Option<&'w [Lexeme<'a>]> {
        let list = self.list;
        let rest = list.get(self.at..)?;
        let length = first_length(rest);
        if length == 0 {
            return None;
        }
        self.at += length;
        Some(&rest[..length])
    }
}

/// The word at the head of a list given with its parentheses; no bytes if there is none.
pub(crate) fn head_of<'a>(list: &[Lexeme<'a>]) -> &'a [u8] {
    match head(list) {
        Some(head) => head.text(),
        None => b"",
    }
}

/// The run at the head of a list.
pub(crate) fn head<'a>(list: &[Lexeme<'a>]) -> Option<Lexeme<'a>> {
    match list.get(1) {
        Some(head) if head.shape() == Shape::Run => Some(*head),
        _ => None,
    }
}

/// Whether the word is one of these, regardless of case.
pub(crate) fn is_among(word: &[u8], words: &[&[u8]]) -> bool {
    words.iter().any(|one| word.eq_ignore_ascii_case(one))
}

/// Whether one of these words is this.
pub fn has_word(words: &[Word<'_>], text: &[u8]) -> bool {
    words.iter().any(|word| word.text() == text)
}

/// The last keyword before the piece with this index.
pub(crate) fn keyword_before<'a>(here: &[Lexeme<'a>], at: usize) -> Option<&'a [u8]> {
    let before = here.get(..at)?;
    let keyword = before
        .iter()
        .rev()
        .find(|piece| piece.text().starts_with(b":"))?;
    Some(keyword.text())
}

//! The lexemes of a text: its parentheses and runs, and the bytes that no word has.
ghost use Rattle.std.specs.Prelude.{◌≡◌, ◌+◌, ◌<◌, ◌^◌, IsTrue, length};
ghost use Rattle.tokens.specs.Shape.{has_shape};

use crate::form::{Form, part_end};
use faults::Span;

/// The shape of a lexeme, determined by its first byte.
#[derive(Clone, Copy, Debug, PartialEq, Eq)]
pub enum Shape {
    /// `(`
    Open,
    /// `)`
    Close,
    /// A maximal run of printable bytes other than `(`, `)` and `;`.
    Run,
    /// A byte that is only allowed in comments.
    Stray,
}

impl Shape {
    ghost use Rattle.std.specs.Option.{option_map};
    ghost use Rattle.tokens.specs.Form.{view};
    ghost use Rattle.tokens.specs.Shape.{form_by, form_unless_gap};

    /// The shape of a part of a text, which is a lexeme unless it is a blank or a comment.
    fn of(form: Form) -> Option<Shape>
        ensures { option_map form_by result ≡ form_unless_gap (view form) }
    {
        match form {
            Form::Blank | Form::Comment => None,
            Form::Opening => Some(Shape::Open),
            Form::Closing => Some(Shape::Close),
            Form::Run => Some(Shape::Run),
            Form::Stray => Some(Shape::Stray),
        }
    }
}

/// A parenthesis, a run or a stray byte of a text: its shape, its bytes as written, and its span.
#[derive(Clone, Copy, Debug)]
pub struct Lexeme<'a> {
    shape: Shape,
    text: &'a [u8],
    start: usize,
    ghost in_range: { start + length text.now < 2 ^ 64 },
    ghost shaped: { IsTrue (has_shape shape text.now) },
}

impl<'a> Lexeme<'a> {
    ghost use Rattle.std.specs.Prelude.{◌↔◌, map};
    ghost use Rattle.std.specs.Char.{to_ascii_lowercase};
    ghost use Rattle.tokens.specs.Lexeme.{placed_of};
    ghost use Rattle.tokens.specs.Shape.{form_by};
    ghost use Rattle.model.specs.Words.{bytes, form, size};

    /// Its shape.
    pub fn shape(&self) -> Shape
        ensures { form (placed_of self.now).part ≡ form_by result }
    {
        self.shape
    }

    /// Its bytes as written, not folded to lower case: the slice at its span.
    pub fn text(&self) -> &'a [u8]
        ensures { bytes (placed_of self.now).part ≡ result.now }
    {
        self.text
    }

    /// Whether its bytes are this word, regardless of case.
    pub fn is(&self, word: &[u8]) -> bool
        ensures { IsTrue result ↔ (map to_ascii_lowercase (bytes (placed_of self.now).part) ≡ map to_ascii_lowercase word.now) }
    {
        self.text().eq_ignore_ascii_case(word)
    }

    /// Its span in the text.
    pub fn span(&self) -> Span
        ensures start { result.start ≡ (placed_of self.now).start }
        ensures end { result.end ≡ (placed_of self.now).start + size (placed_of self.now).part }
    {
        Span {
            start: self.start,
            end: self.start + self.text.len(),
        }
    }
}

/// The lexemes of a text, in order. Blanks (space, tab, LF, CR) and comments (from `;` to before the next LF, any bytes in them)
/// are skipped. Nothing is allocated.
///
/// # Examples
/// The lexemes of `(at ?x) ; here` are `(`, `at`, `?x` and `)`.
#[derive(Drop)]
pub struct Lexemes<'a> {
    text: &'a [u8],
    /// The offset after the last lexeme.
    at: usize,
}

impl<'a> Lexemes<'a> {
    ghost use Rattle.tokens.specs.Cut.{cut};
    ghost use Rattle.tokens.specs.Lexeme.{lexemes_left};
    ghost use Rattle.model.specs.PlanText.{placed_from};

    /// The lexemes of this text.
    pub fn of(text: &'a [u8]) -> Lexemes<'a>
        ensures { lexemes_left result ≡ placed_from 0 (cut text.now) }
    {
        Lexemes { text, at: 0 }
    }
}

impl<'a> Iterator for Lexemes<'a> {
    ghost use Rattle.std.specs.Iterator.{YieldsFirstBy, item_count};
    ghost use Rattle.tokens.specs.Lexeme.{lexemes_left, placed_of};

    type Item = Lexeme<'a>;

    ghost next_gives = { YieldsFirstBy placed_of lexemes_left };

    ghost remaining = { item_count lexemes_left };

    fn next(&mut self) -> Option<Lexeme<'a>> {
        'parts: while self.at < self.text.len() {
            let start = self.at;
            let form = Form::of(self.text[start]);
            let end = part_end(self.text, start, form);
            self.at = end;
            if let Some(shape) = Shape::of(form) {
                let text = &self.text[start..end];
                return Some(Lexeme { shape, text, start });
            }
        }
        None
    }
}

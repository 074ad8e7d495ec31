//! A word of a text.
ghost use Rattle.std.specs.Prelude.{◌≡◌, ◌+◌, ◌<◌, ◌^◌, length};

use faults::Span;

/// The kind of a word.
#[derive(Clone, Copy, Debug, PartialEq, Eq)]
pub enum Kind {
    /// A letter, then letters, digits, `-` and `_`.
    Name,
    /// `?` and a name.
    Variable,
    /// `:` and a name.
    Keyword,
    /// Digits.
    Number,
    /// `-` alone.
    Dash,
    /// `=` alone.
    Equals,
    /// `(`
    Open,
    /// `)`
    Close,
}

/// A word: its kind, its bytes as written, and its span.
#[derive(Clone, Copy, Debug)]
pub struct Word<'a> {
    pub(crate) kind: Kind,
    pub(crate) text: &'a [u8],
    pub(crate) start: usize,
    ghost in_range: { start + length text.now < 2 ^ 64 },
}

impl<'a> Word<'a> {
    ghost use Rattle.tokens.specs.Word.{word_of, kind_of};
    ghost use Rattle.model.specs.Words.{end_of};

    /// The kind of the word.
    pub fn kind(&self) -> Kind
        ensures { kind_of result ≡ (word_of self.now).kind }
    {
        self.kind
    }

    /// The word's bytes as written, not folded to lower case: the slice at its span.
    pub fn text(&self) -> &'a [u8]
        ensures { result.now ≡ (word_of self.now).text }
    {
        self.text
    }

    /// The span of the word in its text.
    pub fn span(&self) -> Span
        ensures start { result.start ≡ (word_of self.now).start }
        ensures end { result.end ≡ end_of (word_of self.now) }
    {
        Span {
            start: self.start,
            end: self.start + self.text.len(),
        }
    }
}

//! The scanner: from a text to its words.
ghost use Rattle.std.specs.Prelude.{◌≡◌, ◌+◌, ◌<◌, ◌≤◌, ◌^◌, false, length, map, IfOk, IfErr, IsErrAnd, IfSome, Some, None};
ghost use Rattle.std.specs.Option.{option_map};
ghost use Rattle.faults.specs.Fault.{number_of};
ghost use Rattle.tokens.specs.Reported.{reported_by};
ghost use Rattle.tokens.specs.Word.{word_of};
ghost use Rattle.model.specs.Words.{longest_text, ReadsAs, Reads, IsReported};

use crate::lexeme::{Lexeme, Lexemes, Shape};
use crate::run::kind_of_run;
use crate::word::{Kind, Word};
use faults::{Code, Fault, Span, TextRefusal};
use std::alloc::Global;

/// The maximum length of a text, in bytes.
pub const LONGEST_TEXT: usize = 16_777_216;

/// The maximum length of a run, in bytes.
const LONGEST_RUN: usize = 255;

/// The maximum number of lists open at once.
const DEEPEST: usize = 64;

/// The words of a text, in their order.
///
/// Blanks (space, tab, LF, CR) and comments (from `;` to before the next LF, any bytes in them) separate words and are skipped. A
/// word is a parenthesis or a maximal run of other printable ASCII bytes that is of one of the kinds. A text has at most
/// 16,777,216 bytes and a run at most 255; at most 64 lists are open at once; and no word follows the parenthesis that closes the
/// first list.
///
/// # Errors
/// `At` reports the first fault. `TooLong` for the whole text, from its byte 16,777,216 to its end, comes before all others;
/// otherwise it is the fault that begins first, and among faults that begin at the same byte the one with the lowest number.
/// - `BadByte`: a byte that is neither blank nor printable, outside comments.
/// - `BadWord`: a run that is not a word of any kind.
/// - `Unbalanced`: a `)` without a `(`, or the end of the text while a list is open.
/// - `TooDeep`: a `(` inside 64 open lists.
/// - `TooLong`: a run over 255 bytes.
/// - `Trailing`: a word after the parenthesis that closed the first list.
///
/// `NoMemory` means that an allocation failed; a text over 16,777,216 bytes is refused before anything is allocated.
///
/// # Examples
/// `(at ?x) ; here` has four words:
///
/// ```
/// let words = scan(alloc, b"(at ?x) ; here")?;
/// assert_eq!(rt; words.len(), 4);
/// assert_eq!(rt; words[2].kind(), Kind::Variable);
/// assert_eq!(rt; words[2].text(), b"?x".as_slice());
/// assert_eq!(rt; words[2].span(), Span { start: 4, end: 6 });
/// ```
///
/// `(at a) b` is refused by `Trailing` at `7..8`, and `(at` by `Unbalanced` at `3..3`.
pub fn scan(alloc: Global, text: &[u8]) -> Result<Vec<Word<'_>>, Fault>
    ensures words { IfOk result (λ words. ReadsAs text.now (map word_of words.items)) }
    ensures refused { IfErr result (λ fault. IfSome (reported_by fault) (IsReported text.now)) }

    // A text that reads as words is never refused: the only error is running out of memory.
    ensures taken { Reads text.now → IfErr result (λ fault. reported_by fault ≡ None) }

    // A text that is too long is refused for that, and never for running out of memory.
    ensures too_long { longest_text < length text.now → IsErrAnd result (λ fault. reported_by fault
        ≡ Some (record { code = 5; span = record { start = longest_text; end = length text.now } })) }
{
    if text.len() > LONGEST_TEXT {
        return Err(refusal(Code::TooLong, LONGEST_TEXT, text.len()));
    }
    let mut words = Vec::new(alloc);
    let mut nesting = Nesting::outside();
    'lexemes: for lexeme in Lexemes::of(text) {
        let word = nesting.word(lexeme)?;
        if words.push(word).is_err() {
            return Err(Fault::NoMemory);
        }
        let shape = lexeme.shape();
        nesting = nesting.after(shape);
    }
    if nesting.open_lists > 0 {
        return Err(refusal(Code::Unbalanced, text.len(), text.len()));
    }
    Ok(words)
}

fn refusal(code: Code, start: usize, end: usize) -> Fault
    ensures { reported_by result
        ≡ Some (record { code = number_of code; span = record { start = start; end = end } }) }
{
    Fault::At(TextRefusal {
        code,
        span: Span { start, end },
    })
}

/// The context of a lexeme: what came before it, as far as faults depend on it.
#[derive(Clone, Copy, Debug)]
struct Nesting {
    /// How many lists are open.
    open_lists: usize,
    /// Whether the first list is closed.
    has_closed: bool,
}

impl Nesting {
    ghost use Rattle.std.specs.Prelude.{[], ◌∷◌};
    ghost use Rattle.tokens.specs.Lexeme.{placed_of};
    ghost use Rattle.tokens.specs.Shape.{form_by};
    ghost use Rattle.faults.specs.Fault.{number_of};
    ghost use Rattle.tokens.specs.Reported.{reported_by};
    ghost use Rattle.tokens.specs.Scanner.{fault_by, closed_with, code_of_lexeme, fault_of_lexeme, words_of_lexeme};
    ghost use Rattle.tokens.specs.Word.{kind_of, word_of};
    ghost use Rattle.model.specs.Words.{opening, closing, open_with, kind_by};

    /// The context at the start of the text.
    fn outside() -> Nesting
        ensures open_lists { result.open_lists ≡ 0 }
        ensures has_closed { result.has_closed ≡ false }
    {
        Nesting {
            open_lists: 0,
            has_closed: false,
        }
    }

    /// The kind of a lexeme with this shape and these bytes as a word, or the code that refuses it.
    fn word_kind(self, shape: Shape, text: &[u8]) -> Result<Kind, Code>
        ensures sound { IfOk result (λ kind.
            fault_by self.open_lists self.has_closed (form_by shape) text.now ≡ None) }
        ensures kind { IfOk result (λ kind. kind_by (form_by shape) text.now ≡ Some (kind_of kind)) }
        ensures refused { IfErr result (λ code.
            fault_by self.open_lists self.has_closed (form_by shape) text.now ≡ Some (number_of code)) }
    {
        let kind = match shape {
            Shape::Stray => return Err(Code::BadByte),
            Shape::Open if self.open_lists == DEEPEST => return Err(Code::TooDeep),
            Shape::Open => Kind::Open,
            Shape::Close if self.open_lists == 0 => return Err(Code::Unbalanced),
            Shape::Close => Kind::Close,
            Shape::Run => {
                let kind = kind_of_run(text).ok_or(Code::BadWord)?;
                if text.len() > LONGEST_RUN {
                    return Err(Code::TooLong);
                }
                kind
            }
        };
        if self.has_closed {
            Err(Code::Trailing)
        } else {
            Ok(kind)
        }
    }

    /// The lexeme as a word, or its refusal.
    fn word<'a>(self, lexeme: Lexeme<'a>) -> Result<Word<'a>, Fault>
        ensures sound { IfOk result (λ word. code_of_lexeme self.open_lists self.has_closed (placed_of lexeme.entry) ≡ None) }
        ensures word { IfOk result (λ word. words_of_lexeme (placed_of lexeme.entry) ≡ word_of word ∷ []) }
        ensures refused { IfErr result (λ fault.
            reported_by fault ≡ fault_of_lexeme self.open_lists self.has_closed (placed_of lexeme.entry)) }
    {
        let shape = lexeme.shape();
        let text = lexeme.text();
        let Span { start, end } = lexeme.span();
        match self.word_kind(shape, text) {
            Ok(kind) => Ok(Word { kind, text, start }),
            Err(code) => Err(refusal(code, start, end)),
        }
    }

    /// The context after a lexeme of this shape.
    fn after(self, shape: Shape) -> Nesting
        requires opens { form_by shape ≡ opening → self.open_lists < 64 }
        requires closes { form_by shape ≡ closing → 0 < self.open_lists }
        ensures open_lists { result.open_lists ≡ open_with self.open_lists (form_by shape) }
        ensures has_closed { result.has_closed
            ≡ closed_with self.open_lists self.has_closed (form_by shape) }
    {
        match shape {
            Shape::Open => Nesting {
                open_lists: self.open_lists + 1,
                has_closed: self.has_closed,
            },
            Shape::Close => Nesting {
                open_lists: self.open_lists - 1,
                has_closed: self.has_closed || self.open_lists == 1,
            },
            Shape::Run | Shape::Stray => self,
        }
    }
}

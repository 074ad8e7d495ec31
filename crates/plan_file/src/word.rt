//! The words of a plan text.
ghost use Rattle.std.specs.Prelude.{◌≡◌, OnOk, Some};
ghost use Rattle.faults.specs.Fault.{number_of};
ghost use Rattle.tokens.specs.Reported.{reported_by};
ghost use Rattle.plan_file.specs.PlanFile.{name_of, span_of};
ghost use Rattle.model.specs.PlanText.{is_stamp};
ghost use Rattle.model.specs.Typing.{folded};

use faults::{Code, Fault, NoMemory, Refused, Span, TextRefusal};
use tokens::{Lexeme, Shape, is_name};

/// The role that a word may have in a step.
#[derive(Clone, Copy)]
pub(super) enum Sort {
    Open,
    Close,
    Name,
    Stamp,
    Other,
}

impl Sort {
    ghost use Rattle.plan_file.specs.PlanFile.{sort_of};
    ghost use Rattle.model.specs.Words as words;
    ghost use Rattle.model.specs.PlanMachine as machine;
    ghost use Rattle.tokens.specs.Lexeme.{placed_of};
    ghost use Rattle.tokens.specs.Shape.{form_by};

    /// The role of a word.
    pub(super) fn of(word: Lexeme<'_>) -> Sort
        ensures { sort_of result ≡ machine.sort_of (placed_of word.entry).part }
    {
        Sort::by(word.shape(), word.text())
    }

    /// The role of a word with this shape and these bytes.
    fn by(shape: Shape, bytes: &[u8]) -> Sort
        ensures { sort_of result ≡ machine.sort_by (form_by shape) (words.is_name bytes.now) (is_stamp bytes.now) }
    {
        match shape {
            Shape::Open => Sort::Open,
            Shape::Close => Sort::Close,
            Shape::Run => {
                if is_name(bytes) {
                    Sort::Name
                } else if is_stamp(bytes) {
                    Sort::Stamp
                } else {
                    Sort::Other
                }
            }
            Shape::Stray => Sort::Other,
        }
    }
}

/// Writes a word's bytes, in lower case, into the buffer, replacing the buffer's contents.
pub(super) fn fold_into(word: Lexeme<'_>, buffer: &mut Vec<u8>) -> Result<(), NoMemory>
    ensures { OnOk result (buffer.new.items ≡ folded (name_of word.entry)) }
{
    buffer.clear();
    buffer.extend_from_slice(word.text())?;
    buffer.make_ascii_lowercase();
    Ok(())
}

/// A word's refusal with this code.
pub(super) fn refused(word: Lexeme<'_>, code: Code) -> Fault
    ensures { reported_by result ≡ Some (record { code = number_of code; span = span_of word.entry }) }
{
    let Span { start, end } = word.span();
    refusal(code, start, end)
}

/// The refusal of the bytes between these offsets.
pub(super) fn refusal(code: Code, start: usize, end: usize) -> Fault
    ensures { reported_by result ≡ Some (record { code = number_of code; span = record { start = start; end = end } }) }
{
    let span = Span { start, end };
    Refused::At(TextRefusal { code, span })
}

/// Whether the bytes begin like a time stamp: with a digit, `.` or `[`.
fn is_stamp(bytes: &[u8]) -> bool
    ensures { result ≡ is_stamp bytes.now }
{
    match bytes.split_first() {
        Some((first, _)) => first.is_ascii_digit() || *first == b'.' || *first == b'[',
        None => false,
    }
}

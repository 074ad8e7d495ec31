//! Where a text with unbalanced parentheses goes wrong as a file: usually next to the missing or surplus parenthesis, long before
//! the place of the fault.
ghost use Rattle.std.specs.Prelude.{◌≡◌, ◌++◌, ◌<◌, ◌≤◌, IfOk, IfSome, Some, length};
ghost use Rattle.pddl_tree.specs.Tree.{file_of};
ghost use Rattle.explain_faults.specs.Wrong.{GoesWrong, GoesWrongAt, IsRefusedIn};

use explain_hints::{CutTexts, File, FileRefusal, NamedTexts, index_at, opening_of};
use explain_words::refused;
use faults::{Code, NoMemory, Refused, Span, TextRefusal};
use pddl_tree::TaskFile;
use std::alloc::Global;
use tokens::{Lexeme, Shape, scan};

/// A line feed, which ends any comment, and as many `)` as lists may be open.
const CLOSING: &[u8] = b"\n))))))))))))))))))))))))))))))))))))))))))))))))))))))))))))))))";

/// Where an unexpected word is within the lists of its text.
#[derive(Clone, Copy, Debug, PartialEq, Eq)]
pub enum Nesting {
    /// In the list whose `(` is at this offset: a `)` may be missing before the word.
    Inside(usize),
    /// Right after the list whose `(` is at the first offset and whose `)` is at the second: that `)` may be surplus.
    After(usize, usize),
    /// It is the `)` of the list whose `(` is at this offset. The list is incomplete: the `)` may be surplus.
    Closes(usize),
    /// None of these, or the word has another fault.
    Elsewhere,
}

/// Where a text with unbalanced parentheses goes wrong as a file.
#[derive(Clone, Copy, Debug, PartialEq, Eq)]
pub struct WrongPlace {
    /// The first unexpected word, and its fault.
    pub refusal: TextRefusal,
    /// That word with the `(` before it, or with the head of the list that it begins.
    pub shown: Span,
    /// Its place within the lists.
    pub nesting: Nesting,
}

/// Where a faulty text goes wrong as a file before the fault; `None` if it does not, or if its parentheses match.
///
/// # Errors
/// An allocation failed.
pub(crate) fn wrong_place(
    alloc: Global,
    texts: &NamedTexts<'_>,
    pieces: &CutTexts<'_>,
    fault: FileRefusal,
) -> Result<Option<WrongPlace>, NoMemory>
    ensures { IfOk result (λ found. IfSome found (λ place. GoesWrongAt texts.now fault.file place.refusal)) }
{
    let pieces = pieces.of_file(fault.file);
    let found = wrong_word(alloc, texts, fault, open_lists(pieces))?;
    match found {
        Some(refusal) => Ok(Some(placed(pieces, refusal, fault.span))),
        None => Ok(None),
    }
}

/// The first unexpected word before a fault of parentheses, given the number of lists open at the end of its file.
fn wrong_word(
    alloc: Global,
    texts: &NamedTexts<'_>,
    fault: FileRefusal,
    lists: usize,
) -> Result<Option<TextRefusal>, NoMemory>
    ensures { IfOk result (λ found. IfSome found (GoesWrongAt texts.now fault.file)) }
{
    let is_of_lists = matches!(fault.code, Code::Unbalanced | Code::Trailing);
    let text = texts.text(fault.file);
    let cut = cut_at(text, fault.span, lists);
    match fault.file {
        File::Domain if is_of_lists => wrong_in(alloc, TaskFile::Domain, text, cut),
        File::Problem if is_of_lists => wrong_in(alloc, TaskFile::Problem, text, cut),
        _ => Ok(None),
    }
}

/// The number of lists open at the end of a text whose parentheses match otherwise.
fn open_lists(pieces: &[Lexeme<'_>]) -> usize {
    let mut count: usize = 0;
    for piece in pieces {
        match piece.shape() {
            Shape::Open => count = count.saturating_add(1),
            Shape::Close => count = count.saturating_sub(1),
            Shape::Run | Shape::Stray => {}
        }
    }
    count
}

/// A beginning of a text, and an ending for it.
#[derive(Clone, Copy)]
struct Cut {
    /// The length of the beginning.
    kept: usize,
    /// The ending.
    ending: &'static [u8],
}

/// What is read of a text: the part before the fault, or the whole text with its open lists closed if that is the fault.
fn cut_at(text: &[u8], fault: Span, lists: usize) -> Cut
    ensures { result.kept ≤ length text.now }
{
    if fault.start < fault.end {
        let kept = fault.start.min(text.len());
        Cut { kept, ending: b"" }
    } else {
        let ending = CLOSING.get(..lists.saturating_add(1)).unwrap_or(CLOSING);
        Cut {
            kept: text.len(),
            ending,
        }
    }
}

/// The first unexpected word of a text that is cut like this.
fn wrong_in(
    alloc: Global,
    file: TaskFile,
    text: &[u8],
    cut: Cut,
) -> Result<Option<TextRefusal>, NoMemory>
    requires { cut.kept ≤ length text.now }
    ensures { IfOk result (λ found. IfSome found (GoesWrong (file_of file) text.now)) }
{
    let whole = joined(alloc, &text[..cut.kept], cut.ending)?;
    let found = refused_in(alloc, file, &whole)?;
    Ok(if_within(found, cut.kept))
}

/// The refusal, if its span is non-empty and ends by `kept`.
fn if_within(found: Option<TextRefusal>, kept: usize) -> Option<TextRefusal>
    ensures { IfSome result (λ r. (found ≡ Some r) × (r.span.start < r.span.end) × (r.span.end ≤ kept)) }
{
    match found {
        Some(refusal) if refusal.span.start < refusal.span.end && refusal.span.end <= kept => {
            Some(refusal)
        }
        _ => None,
    }
}

/// The bytes, followed by the others.
fn joined(alloc: Global, text: &[u8], ending: &[u8]) -> Result<Vec<u8>, NoMemory>
    ensures { IfOk result (λ all. all.items ≡ text.now ++ ending.now) }
{
    let mut all = Vec::new(alloc);
    all.extend_from_slice(text)?;
    all.extend_from_slice(ending)?;
    Ok(all)
}

/// What is wrong with the words of a text as a file of this kind; `None` if nothing is, or if the text does not read as words.
fn refused_in(alloc: Global, file: TaskFile, text: &[u8]) -> Result<Option<TextRefusal>, NoMemory>
    ensures { IfOk result (λ found. IfSome found (IsRefusedIn (file_of file) text.now)) }
{
    let words = match scan(alloc, text) {
        Ok(words) => words,
        Err(Refused::At(_)) => return Ok(None),
        Err(Refused::NoMemory) => return Err(NoMemory),
    };
    let found = refused(alloc, file, &words)?;
    Ok(found)
}

/// An unexpected word, with its place within the lists of the text. An empty span means that lists are open.
fn placed(pieces: &[Lexeme<'_>], refusal: TextRefusal, fault: Span) -> WrongPlace
    ensures { result.refusal ≡ refusal }
{
    let Some(at) = index_at(pieces, refusal.span.start) else {
        return WrongPlace {
            refusal,
            shown: refusal.span,
            nesting: Nesting::Elsewhere,
        };
    };
    let first = first_shown(pieces, at);
    let are_open = fault.start == fault.end;
    let nesting = match refusal.code {
        Code::BadForm if are_open => opening_offset(pieces, first).map(Nesting::Inside),
        Code::BadForm => after(pieces, first),
        Code::MissingSection if !are_open => opening_offset(pieces, at).map(Nesting::Closes),
        _ => None,
    };
    WrongPlace {
        refusal,
        shown: shown_from(pieces, first),
        nesting: nesting.unwrap_or(Nesting::Elsewhere),
    }
}

/// The index of the `(` right before the piece with this index, or its own index if there is none.
fn first_shown(pieces: &[Lexeme<'_>], at: usize) -> usize {
    let before = at.saturating_sub(1);
    match pieces.get(before) {
        Some(piece) if piece.shape() == Shape::Open => before,
        _ => at,
    }
}

/// The span of the piece with this index, with the head of the list that it begins.
fn shown_from(pieces: &[Lexeme<'_>], first: usize) -> Span {
    let Some(piece) = pieces.get(first) else {
        return Span { start: 0, end: 0 };
    };
    match pieces.get(first.saturating_add(1)) {
        Some(head) if piece.shape() == Shape::Open && head.shape() == Shape::Run => Span {
            start: piece.span().start,
            end: head.span().end,
        },
        _ => piece.span(),
    }
}

/// Where the innermost list around the piece with this index opens.
fn opening_offset(pieces: &[Lexeme<'_>], at: usize) -> Option<usize> {
    let open = pieces.get(opening_of(pieces, at)?)?;
    Some(open.span().start)
}

/// The list that ends right before the piece with this index.
fn after(pieces: &[Lexeme<'_>], at: usize) -> Option<Nesting> {
    let before = at.saturating_sub(1);
    let close = pieces.get(before)?;
    if close.shape() != Shape::Close {
        return None;
    }
    let open = opening_offset(pieces, before)?;
    Some(Nesting::After(open, close.span().start))
}

//! The words that may occur in place of an unexpected one.
ghost use Rattle.std.specs.Prelude.{◌≡◌, ◌≤◌, All, IfOk, length, position};
ghost use Rattle.model.specs.Words.{Reads};
ghost use Rattle.pddl_tree.specs.Tree.{file_of};
ghost use Rattle.explain_faults.specs.Expected.{AreSome, AreSuggested, AreReportedIn, MayFollow, MayOccur, begins_from, longest_reread, words_before};

use explain_hints::is_near;
use explain_words::expected;
use faults::{NoMemory, Refused};
use pddl_tree::TaskFile;
use std::alloc::Global;
use tokens::{Word, scan};

/// The maximum length of a text that is read again for each candidate, in bytes.
const LONGEST_REREAD: usize = 1_048_576;

/// What is refused in a text.
#[derive(Clone, Copy)]
pub(crate) struct RefusedBytes<'t> {
    /// Where it begins.
    pub(crate) offset: usize,
    /// Its bytes.
    pub(crate) bytes: &'t [u8],
}

/// The words that may occur in a file's text in place of the refused ones: for a keyword only the similar ones, if there are any.
/// None if the text does not read as words, or is too long to be read again for each candidate.
///
/// # Errors
/// An allocation failed.
pub(crate) fn words_at<'a>(
    alloc: Global,
    file: TaskFile,
    text: &'a [u8],
    refused: RefusedBytes<'_>,
) -> Result<Vec<Word<'a>>, NoMemory>
    ensures occur { IfOk result (λ allowed. MayOccur (file_of file) text.now refused.entry.offset allowed.items) }
    ensures suggested { length text.now ≤ longest_reread → Reads text.now → IfOk result (λ allowed. AreReportedIn (file_of file) text.now refused.entry.offset refused.entry.bytes.now allowed.items) }
{
    if text.len() > LONGEST_REREAD {
        return Ok(Vec::new(alloc));
    }
    let words = match scan(alloc, text) {
        Ok(words) => words,
        Err(Refused::At(_)) => return Ok(Vec::new(alloc)),
        Err(Refused::NoMemory) => return Err(NoMemory),
    };
    words_after(
        alloc,
        file,
        words_before(&words, refused.offset),
        refused.bytes,
    )
}

/// The words that may occur after these in place of the reported bytes.
fn words_after<'a>(
    alloc: Global,
    file: TaskFile,
    before: &[Word<'a>],
    reported: &[u8],
) -> Result<Vec<Word<'a>>, NoMemory>
    ensures follow { IfOk result (λ suggested. All (MayFollow (file_of file) before.now) suggested.items) }
    ensures suggested { IfOk result (λ suggested. AreSuggested (file_of file) before.now reported.now suggested.items) }
{
    let all = expected(alloc, file, before)?;
    if !reported.starts_with(b":") {
        return Ok(all);
    }
    let near = those_near(alloc, reported, &all)?;
    if near.is_empty() {
        return Ok(all);
    }
    Ok(near)
}

/// Those of some words that are similar to a keyword.
fn those_near<'a>(
    alloc: Global,
    keyword: &[u8],
    words: &[Word<'a>],
) -> Result<Vec<Word<'a>>, NoMemory>
    ensures { IfOk result (λ near. AreSome words.now near.items) }
{
    let mut near = Vec::new(alloc);
    for word in words {
        let is_like = is_near(keyword, word.text());
        if is_like {
            near.push(*word)?;
        }
    }
    Ok(near)
}

/// The words before the first one that begins at or after an offset.
fn words_before<'w, 'a>(words: &'w [Word<'a>], offset: usize) -> &'w [Word<'a>]
    ensures { result.now ≡ words_before offset words.now }
{
    match first_from(words, offset) {
        Some(count) => &words[..count],
        None => words,
    }
}

/// The index of the first word that begins at or after an offset.
fn first_from(words: &[Word<'_>], offset: usize) -> Option<usize>
    ensures { result ≡ position (begins_from offset) words.now }
{
    words.iter().position(|word| offset <= word.span().start)
}

//! Names in a certificate's text.
ghost use Rattle.std.specs.Prelude.{◌≡◌, ◌≢◌, IfNone, IfOk, IfSome, IsTrue, List, ℕ, None, map};
ghost use Rattle.std.specs.List.{list_all};
ghost use Rattle.model.specs.PlanWriting as writing;
ghost use Rattle.certificate_reader.specs.Lines.{name_of};
ghost use Rattle.certificate_reader.specs.Words.{text_in, then_words, is_no_capital};

use crate::first_word::first_word;
use std::alloc::{AllocError, Global};
use tokens::is_name;

/// The maximum length of a name, in bytes.
const LONGEST_NAME: usize = 255;

/// The names in the rest of a line; `None` if there are none, or if the rest is anything else.
pub(crate) fn names(alloc: Global, rest: Option<&[u8]>) -> Result<Option<Vec<Vec<u8>>>, AllocError>
    ensures some { IfOk result (λ found. IfSome found (λ names. IsTrue (list_all writing.is_lower_name (map name_of names.items))
        × (then_words (map name_of names.items) None ≡ text_in rest.entry))) }
    ensures none { IfOk result (λ found. IfNone found ((names : List (List ℕ)) → IsTrue (list_all writing.is_lower_name names)
        → then_words names None ≢ text_in rest.entry)) }
{
    let mut names = Vec::new(alloc);
    let mut left = rest;
    'words: while let Some(bytes) = left {
        let (word, following) = first_word(bytes);
        if !is_lower_name(word) {
            return Ok(None);
        }
        names.push(copy(alloc, word)?)?;
        left = following;
    }
    Ok(Some(names))
}

/// A copy of the bytes.
pub(crate) fn copy(alloc: Global, bytes: &[u8]) -> Result<Vec<u8>, AllocError>
    ensures { IfOk result (λ copy. copy.items ≡ bytes.now) }
{
    let mut copy = Vec::new(alloc);
    copy.extend_from_slice(bytes)?;
    Ok(copy)
}

/// Whether the word is a name in lower case that is not too long.
pub(crate) fn is_lower_name(word: &[u8]) -> bool
    ensures { result ≡ writing.is_lower_name word.now }
{
    if word.len() > LONGEST_NAME {
        return false;
    }
    if !is_lower(word) {
        return false;
    }
    is_name(word)
}

/// Whether there are no capital letters.
fn is_lower(bytes: &[u8]) -> bool
    ensures { result ≡ list_all is_no_capital bytes.now }
{
    bytes.iter().all(|byte| !byte.is_ascii_uppercase())
}

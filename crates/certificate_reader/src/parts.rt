//! Parsers for what follows the first word of a line.
ghost use Rattle.std.specs.Prelude.{◌≡◌, ◌≢◌, ℕ, ℤ, ◌≤◌, ◌<◌, IfNone, IfOk, IfSome, IsTrue, List, None, Option, map};
ghost use Rattle.std.specs.Fmt.{decimal};
ghost use Rattle.model.specs.Claims as model;
ghost use Rattle.certificate_definitions.specs.Certificates.{is_claim, rise};
ghost use Rattle.certificate_definitions.specs.CertificateText.{most_atoms};
ghost use Rattle.certificate_reader.specs.Lines.{claim_of};
ghost use Rattle.certificate_reader.specs.Words.{AreLeading, IsLeading, IsNumbered, claim_rest, text_in, then_words};

use crate::first_word::{first_word, is};
use crate::line::Claim;
use crate::number::{number, weight};
use std::alloc::{AllocError, Global};

/// The claim in the bytes; `None` if there is none.
pub(crate) fn claim(rest: &[u8]) -> Option<Claim>
    ensures some { IfSome result (λ claim. IsTrue (is_claim (claim_of claim)) × (claim_rest (claim_of claim) ≡ rest.now)) }
    ensures none { IfNone result ((claim : model.Claim) → IsTrue (is_claim claim) → claim_rest claim ≢ rest.now) }
{
    let (word, following) = first_word(rest);
    let Some(least) = following else {
        return if is(word, b"none") {
            Some(Claim::Unsolvable)
        } else {
            None
        };
    };
    if !is(word, b"bound") {
        return None;
    }
    match number(least) {
        Some(least) => Some(Claim::Bound(least)),
        None => None,
    }
}

/// The weights at the beginning of the words, at most `count`, and what follows them; `None` if one of these words is not a
/// weight.
pub(crate) fn leading_weights(
    alloc: Global,
    rest: Option<&[u8]>,
    most: usize,
) -> Result<Option<(Vec<i64>, Option<&[u8]>)>, AllocError>
    ensures some { IfOk result (λ found. IfSome found (λ read. IsLeading (text_in rest.entry) most read.0.items (text_in read.1))) }
    ensures none { IfOk result (λ found. IfNone found ((weights : List ℤ) (others : Option (List ℕ))
        → IsLeading (text_in rest.entry) most weights others → ⊥)) }
{
    let mut weights = Vec::new(alloc);
    let mut left = rest;
    'words: while weights.len() < most {
        let Some(bytes) = left else {
            return Ok(Some((weights, None)));
        };
        let (word, following) = first_word(bytes);
        let Some(next) = weight(word) else {
            return Ok(None);
        };
        weights.push(next)?;
        left = following;
    }
    Ok(Some((weights, left)))
}

/// A number, followed by atom numbers in ascending order; `None` if there is anything else.
pub(crate) fn numbered(
    alloc: Global,
    bytes: &[u8],
    atom_count: usize,
) -> Result<Option<(u64, Vec<u32>)>, AllocError>
    requires few { atom_count ≤ most_atoms }
    ensures some { IfOk result (λ found. IfSome found (λ read. IsNumbered bytes.now atom_count read.0 read.1.items)) }
    ensures none { IfOk result (λ found. IfNone found ((n : ℕ) (atoms : List ℕ) → IsNumbered bytes.now atom_count n atoms → ⊥)) }
{
    let (word, following) = first_word(bytes);
    let Some(number) = number(word) else {
        return Ok(None);
    };
    match numbers(alloc, following, atom_count)? {
        Some(atoms) => Ok(Some((number, atoms))),
        None => Ok(None),
    }
}

/// Atom numbers in ascending order; `None` if there is anything else.
pub(crate) fn numbers(
    alloc: Global,
    rest: Option<&[u8]>,
    atom_count: usize,
) -> Result<Option<Vec<u32>>, AllocError>
    requires few { atom_count ≤ most_atoms }
    ensures some { IfOk result (λ found. IfSome found (λ numbers. IsTrue (rise atom_count 0 numbers.items)
        × (then_words (map decimal numbers.items) None ≡ text_in rest.entry))) }
    ensures none { IfOk result (λ found. IfNone found ((numbers : List ℕ) → IsTrue (rise atom_count 0 numbers)
        → then_words (map decimal numbers) None ≢ text_in rest.entry)) }
{
    let (numbers, left) = leading_numbers(alloc, rest, atom_count)?;
    if left.is_some() {
        return Ok(None);
    }
    Ok(Some(numbers))
}

/// The atom numbers that the words begin with, in ascending order, and what follows them: never another number of that kind.
pub(crate) fn leading_numbers(
    alloc: Global,
    rest: Option<&[u8]>,
    atom_count: usize,
) -> Result<(Vec<u32>, Option<&[u8]>), AllocError>
    requires few { atom_count ≤ most_atoms }
    ensures { IfOk result (λ read. AreLeading (text_in rest.entry) atom_count read.0.items (text_in read.1)) }
{
    let mut numbers = Vec::with_capacity(alloc, most_numbers(rest).min(atom_count))?;
    let mut least = 0;
    let mut left = rest;
    'words: while let Some(bytes) = left {
        let (word, following) = first_word(bytes);
        let Some(next) = number_within(word, least, atom_count) else {
            return Ok((numbers, left));
        };
        numbers.push(next)?;
        least = next + 1;
        left = following;
    }
    Ok((numbers, None))
}

/// Upper bound of how many numbers the bytes contain: each has a digit, and a blank before the next.
fn most_numbers(rest: Option<&[u8]>) -> usize {
    match rest {
        Some(bytes) => bytes.len() / 2 + 1,
        None => 0,
    }
}

/// The number denoted by a word, if it is at least `least` and below the count.
pub(crate) fn number_within(word: &[u8], least: u32, count: usize) -> Option<u32>
    requires few { count ≤ 2147483648 }
    ensures some { IfSome result (λ n. (decimal n ≡ word.now) × (least ≤ n) × (n < count)) }
    ensures none { IfNone result ((n : ℕ) → least ≤ n → n < count → decimal n ≢ word.now) }
{
    let Some(next) = number(word) else {
        return None;
    };
    if u64::from(least) <= next && next < count as u64 {
        Some(next as u32)
    } else {
        None
    }
}

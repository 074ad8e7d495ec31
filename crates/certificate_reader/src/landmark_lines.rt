//! Parsers for the lines of landmark values: zones, and values over them.
ghost use Rattle.std.specs.Prelude.{◌≡◌, ◌≢◌, ℕ, ◌≤◌, codes, IfNone, IfOk, IfSome, IsTrue, List, None, Option, Some, length, map};
ghost use Rattle.std.specs.List.{list_all};
ghost use Rattle.lower_bounds.specs.LandmarkLines as lines;
ghost use Rattle.landmark_zones.specs.Landmarks.{share_of};
ghost use Rattle.certificate_definitions.specs.Certificates.{rise};
ghost use Rattle.certificate_definitions.specs.CertificateText.{longest_line, most_atoms};
ghost use Rattle.certificate_reader.specs.Parts.{IsPartParsed};
ghost use Rattle.certificate_reader.specs.Stages.{format_of};
ghost use Rattle.certificate_reader.specs.Words.{IsShareFirst, may_be_share, shares_then, text_in, then_negated, with_rest};

use crate::fault::{NextFault, TextFault};
use crate::first_word::{first_word, is};
use crate::format::{Format, has_landmarks};
use crate::part_line::PartLine;
use crate::parts::{leading_numbers, number_within, numbers};
use landmark_zones::{MAX_SHARE_WEIGHT, MAX_ZONES, Share, ZoneRef, is_value, is_zone};
use std::alloc::{AllocError, Global};

/// Parses a zone from what follows `zone`.
pub(crate) fn zone_line(alloc: Global, rest: &[u8], format: Format) -> Result<PartLine, NextFault>
    requires few { format.atoms ≤ most_atoms }
    ensures { IsPartParsed (codes "zone") rest.now (format_of format) result }
{
    if !has_landmarks(format.version) {
        return Err(NextFault::Text(TextFault::Form));
    }
    let (atoms, left) = leading_numbers(alloc, Some(rest), format.atoms)?;
    let Some(negated) = negated(alloc, left, format.atoms)? else {
        return Err(NextFault::Text(TextFault::Form));
    };
    let zone = ZoneRef {
        atoms: &atoms,
        negated: &negated,
    };
    if !is_zone(zone, format.atoms) {
        return Err(NextFault::Text(TextFault::Form));
    }
    Ok(PartLine::Zone { atoms, negated })
}

/// The negated atoms of a zone: those after the word `not`, or none if nothing is left; `None` if there is anything else.
fn negated(
    alloc: Global,
    left: Option<&[u8]>,
    atom_count: usize,
) -> Result<Option<Vec<u32>>, AllocError>
    requires few { atom_count ≤ most_atoms }
    ensures some { IfOk result (λ found. IfSome found (λ numbers. IsTrue (rise atom_count 0 numbers.items) × (then_negated numbers.items ≡ text_in left.entry))) }
    ensures none { IfOk result (λ found. IfNone found ((numbers : List ℕ) → IsTrue (rise atom_count 0 numbers) → then_negated numbers ≢ text_in left.entry)) }
{
    let Some(bytes) = left else {
        return Ok(Some(Vec::new(alloc)));
    };
    let (word, following) = first_word(bytes);
    if !is(word, b"not") {
        return Ok(None);
    }
    let Some(others) = following else {
        return Ok(None);
    };
    numbers(alloc, Some(others), atom_count)
}

/// Parses a landmark value from what follows `marks`. Which zones there are is not known here.
pub(crate) fn marks_line(alloc: Global, rest: &[u8], format: Format) -> Result<PartLine, NextFault>
    requires short { length (with_rest (codes "marks") (Some rest.now)) ≤ longest_line }
    ensures { IsPartParsed (codes "marks") rest.now (format_of format) result }
{
    if !has_landmarks(format.version) {
        return Err(NextFault::Text(TextFault::Form));
    }
    let Some(shares) = shares(alloc, rest)? else {
        return Err(NextFault::Text(TextFault::Form));
    };
    if !is_value(&shares, MAX_ZONES) {
        return Err(NextFault::Text(TextFault::Form));
    }
    Ok(PartLine::Landmark { shares })
}

/// Zones with their weights; `None` if there is anything else.
fn shares(alloc: Global, rest: &[u8]) -> Result<Option<Vec<Share>>, AllocError>
    ensures some { IfOk result (λ found. IfSome found (λ shares. IsTrue (list_all may_be_share (map share_of shares.items)) × (shares_then (map share_of shares.items) None ≡ Some rest.now))) }
    ensures none { IfOk result (λ found. IfNone found ((shares : List lines.Share) → IsTrue (list_all may_be_share shares) → shares_then shares None ≢ Some rest.now)) }
{
    let mut shares = Vec::new(alloc);
    let mut left = Some(rest);
    'words: while let Some(bytes) = left {
        let Some((share, following)) = first_share(bytes) else {
            return Ok(None);
        };
        shares.push(share)?;
        left = following;
    }
    Ok(Some(shares))
}

/// The zone with its weight that the bytes begin with, and what follows it; `None` if there is none.
fn first_share(bytes: &[u8]) -> Option<(Share, Option<&[u8]>)>
    ensures some { IfSome result (λ read. IsShareFirst bytes.now (share_of read.0) (text_in read.1)) }
    ensures none { IfNone result ((s : lines.Share) (others : Option (List ℕ)) → IsShareFirst bytes.now s others → ⊥) }
{
    let (word, following) = first_word(bytes);
    let Some(zone) = number_within(word, 0, MAX_ZONES) else {
        return None;
    };
    let Some(rest) = following else {
        return None;
    };
    let (word, others) = first_word(rest);
    let Some(weight) = number_within(word, 1, MAX_SHARE_WEIGHT as usize + 1) else {
        return None;
    };
    Some((Share { zone, weight }, others))
}

//! Parses a line of a certificate's text.
ghost use Rattle.std.specs.Prelude.{◌≡◌, ◌≢◌, ℕ, ◌≤◌, ◌++◌, codes, Err, IfNone, IfOk, IfSome, IsTrue, List, Some, length};
ghost use Rattle.std.specs.Fmt.{decimal};
ghost use Rattle.certificate_definitions.specs.Certificates.{is_number};
ghost use Rattle.certificate_definitions.specs.CertificateText.{TextLine, is_line, line_text, listed, longest_line, most_atoms};
ghost use Rattle.certificate_reader.specs.Lines.{named_atom_of};
ghost use Rattle.certificate_reader.specs.Stages.{format_of};
ghost use Rattle.certificate_definitions.specs.CertificateText as text;
ghost use Rattle.certificate_reader.specs.Parsing.{IsParsed, IsParsedAfter};
ghost use Rattle.certificate_reader.specs.Words.{IsReadAs, are_lower, atom_rest, with_rest};

use crate::exchanged::exchanged_names;
use crate::fault::{NextFault, TextFault};
use crate::first_word::{first_word, is};
use crate::format::{Format, has_exchanges, is_weight_count};
use crate::line::{CertLine, MAX_CONSTANTS, NamedAtom, Version};
use crate::lower_names::{copy, is_lower_name, names};
use crate::number::number;
use crate::part_line::parse_part;
use crate::parts::{claim, leading_weights};
use crate::state_line::{is_state_word, parse_state};
use std::alloc::{AllocError, Global};

/// Parses these bytes, without LF, as a line of a text with this format.
///
/// # Errors
/// [`TextFault::Version`] for `pddl-cert N` if N is not 1, 2, 3 or 4; [`TextFault::Form`] for anything else that is not a line;
/// [`NextFault::NoMemory`] if an allocation failed.
pub(crate) fn parse(alloc: Global, bytes: &[u8], format: Format) -> Result<CertLine, NextFault>
    requires some { 1 ≤ format.weights }
    requires few { format.atoms ≤ most_atoms }
    requires short { length bytes.now ≤ longest_line }
    ensures { IsParsed bytes.now (format_of format) result }
{
    let (word, following) = first_word(bytes);
    let Some(rest) = following else {
        return Err(NextFault::Text(TextFault::Form));
    };
    parse_after(alloc, word, rest, format)
}

/// Parses a line with this first word and this rest.
fn parse_after(
    alloc: Global,
    word: &[u8],
    rest: &[u8],
    format: Format,
) -> Result<CertLine, NextFault>
    requires few { format.atoms ≤ most_atoms }
    requires short { length (with_rest word.now (Some rest.now)) ≤ longest_line }
    ensures { IsParsedAfter word.now rest.now (format_of format) result }
{
    if is_state_word(word) {
        return parse_state(alloc, word, rest, format);
    }
    if is(word, b"atom") {
        return atom_line(alloc, rest, format);
    }
    if is(word, b"swap") {
        return swap_line(alloc, rest, format);
    }
    if is(word, b"end") {
        return last_line(rest);
    }
    if is(word, b"claim") {
        return claim_line(rest);
    }
    if is(word, b"constant") {
        return constant_line(alloc, rest, format);
    }
    if is(word, b"pddl-cert") {
        return head_line(rest);
    }
    match parse_part(alloc, word, rest, format) {
        Ok(part) => Ok(CertLine::Part(part)),
        Err(fault) => Err(fault),
    }
}

/// Parses the first line from what follows `pddl-cert`.
fn head_line(rest: &[u8]) -> Result<CertLine, NextFault>
    ensures { (f : text.Format) → IsParsedAfter (codes "pddl-cert") rest.now f result }
{
    match number(rest) {
        Some(1) => Ok(CertLine::Head(Version::One)),
        Some(2) => Ok(CertLine::Head(Version::Two)),
        Some(3) => Ok(CertLine::Head(Version::Three)),
        Some(4) => Ok(CertLine::Head(Version::Four)),
        Some(_) => Err(NextFault::Text(TextFault::Version)),
        None => Err(NextFault::Text(TextFault::Form)),
    }
}

/// Parses the claim from what follows `claim`.
fn claim_line(rest: &[u8]) -> Result<CertLine, NextFault>
    ensures { (f : text.Format) → IsParsedAfter (codes "claim") rest.now f result }
{
    match claim(rest) {
        Some(claim) => Ok(CertLine::Claim(claim)),
        None => Err(NextFault::Text(TextFault::Form)),
    }
}

/// Parses the constants from what follows `constant`.
fn constant_line(alloc: Global, rest: &[u8], format: Format) -> Result<CertLine, NextFault>
    ensures { IsParsedAfter (codes "constant") rest.now (format_of format) result }
{
    let Some((constants, following)) = leading_weights(alloc, Some(rest), MAX_CONSTANTS)? else {
        return Err(NextFault::Text(TextFault::Form));
    };
    if following.is_some() {
        return Err(NextFault::Text(TextFault::Form));
    }
    if !is_weight_count(format.version, constants.len()) {
        return Err(NextFault::Text(TextFault::Form));
    }
    Ok(CertLine::Constant(constants))
}

/// Parses the last line from the count that follows `end`.
fn last_line(rest: &[u8]) -> Result<CertLine, NextFault>
    ensures { (f : text.Format) → IsParsedAfter (codes "end") rest.now f result }
{
    match number(rest) {
        Some(count) => Ok(CertLine::Last { count }),
        None => Err(NextFault::Text(TextFault::Form)),
    }
}

/// Parses an atom with its weights from what follows `atom`.
fn atom_line(alloc: Global, rest: &[u8], format: Format) -> Result<CertLine, NextFault>
    requires short { length (with_rest (codes "atom") (Some rest.now)) ≤ longest_line }
    ensures { IsParsedAfter (codes "atom") rest.now (format_of format) result }
{
    let Some((weights, following)) = leading_weights(alloc, Some(rest), format.weights)? else {
        return Err(NextFault::Text(TextFault::Form));
    };
    // There must be something after the weights.
    let Some(following) = following else {
        return Err(NextFault::Text(TextFault::Form));
    };
    match named_atom(alloc, following)? {
        Some(NamedAtom { predicate, objects }) => Ok(CertLine::Weight {
            weights,
            predicate,
            objects,
        }),
        None => Err(NextFault::Text(TextFault::Form)),
    }
}

/// Parses an exchange from the names that follow `swap`.
fn swap_line(alloc: Global, rest: &[u8], format: Format) -> Result<CertLine, NextFault>
    requires short { length (with_rest (codes "swap") (Some rest.now)) ≤ longest_line }
    ensures { IsParsedAfter (codes "swap") rest.now (format_of format) result }
{
    if !has_exchanges(format.version) {
        return Err(NextFault::Text(TextFault::Form));
    }
    match exchanged_names(alloc, rest)? {
        Some(objects) => Ok(CertLine::Swap { objects }),
        None => Err(NextFault::Text(TextFault::Form)),
    }
}

/// The atom after the weights; `None` if there is none.
fn named_atom(alloc: Global, rest: &[u8]) -> Result<Option<NamedAtom>, AllocError>
    ensures some { IfOk result (λ found. IfSome found (λ a. IsTrue (are_lower (named_atom_of a)) × (atom_rest (named_atom_of a) ≡ rest.now))) }
    ensures none { IfOk result (λ found. IfNone found ((a : text.NamedAtom) → IsTrue (are_lower a) → atom_rest a ≢ rest.now)) }
{
    let Some(inner) = in_parentheses(rest) else {
        return Ok(None);
    };
    let (predicate, following) = first_word(inner);
    if !is_lower_name(predicate) {
        return Ok(None);
    }
    match names(alloc, following)? {
        Some(objects) => Ok(Some(NamedAtom {
            predicate: copy(alloc, predicate)?,
            objects,
        })),
        None => Ok(None),
    }
}

/// The bytes inside the parentheses; `None` if there is anything else.
fn in_parentheses(rest: &[u8]) -> Option<&[u8]>
    ensures some { IfSome result (λ inner. rest.now ≡ codes "(" ++ inner.now ++ codes ")") }
    ensures none { IfNone result ((inner : List ℕ) → rest.now ≢ codes "(" ++ inner ++ codes ")") }
{
    match rest {
        [b'(', inner @ .., b')'] => Some(inner),
        _ => None,
    }
}

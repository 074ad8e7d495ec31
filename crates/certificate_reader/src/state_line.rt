//! Parsers for the lines of states.
ghost use Rattle.std.specs.Prelude.{◌≡◌, ℕ, ◌≤◌, codes, IfNone, IfOk, IfSome, IsTrue, List};
ghost use Rattle.certificate_definitions.specs.CertificateText.{most_atoms};
ghost use Rattle.certificate_reader.specs.Lines.{basis_of, version_of};
ghost use Rattle.certificate_reader.specs.Parsing.{IsParsedAfter};
ghost use Rattle.certificate_reader.specs.Stages.{format_of};
ghost use Rattle.certificate_reader.specs.Words.{IsBasisFirst, IsCut, is_state_word};
ghost use Rattle.certificate_reader.specs.declared.line.Mark.TheVariants.{Cut};

use crate::fault::{NextFault, TextFault};
use crate::first_word::{first_word, is};
use crate::format::{Format, has_landmarks};
use crate::line::{Basis, CertLine, Mark, StateLine, Version};
use crate::number::number;
use crate::parts::{number_within, numbered};
use landmark_zones::MAX_VALUES;
use std::alloc::{AllocError, Global};

/// Whether the line of a state begins with this word.
pub(crate) fn is_state_word(word: &[u8]) -> bool
    ensures { result ≡ is_state_word word.now }
{
    is(word, b"open")
        || is(word, b"cut")
        || is(word, b"dead")
        || is(word, b"cut-by")
        || is(word, b"dead-by")
}

/// Parses the line of a state with this first word and this rest.
pub(crate) fn parse_state(
    alloc: Global,
    word: &[u8],
    rest: &[u8],
    format: Format,
) -> Result<CertLine, NextFault>
    requires word { IsTrue (is_state_word word.now) }
    requires few { format.atoms ≤ most_atoms }
    ensures { IsParsedAfter word.now rest.now (format_of format) result }
{
    if is(word, b"open") {
        return open_line(alloc, rest, format);
    }
    if is(word, b"cut") {
        return cut_line(alloc, rest, format);
    }
    if is(word, b"dead") {
        return dead_line(alloc, rest, format);
    }
    if is(word, b"cut-by") {
        return cut_by_line(alloc, rest, format);
    }
    dead_by_line(alloc, rest, format)
}

/// Parses an expanded state from what follows `open`.
fn open_line(alloc: Global, rest: &[u8], format: Format) -> Result<CertLine, NextFault>
    requires few { format.atoms ≤ most_atoms }
    ensures { IsParsedAfter (codes "open") rest.now (format_of format) result }
{
    match numbered(alloc, rest, format.atoms)? {
        Some((cost, atoms)) => Ok(CertLine::Listed(StateLine {
            cost,
            mark: Mark::Expanded,
            atoms,
        })),
        None => Err(NextFault::Text(TextFault::Form)),
    }
}

/// Parses a cut from what follows `cut`.
fn cut_line(alloc: Global, rest: &[u8], format: Format) -> Result<CertLine, NextFault>
    requires few { format.atoms ≤ most_atoms }
    ensures { IsParsedAfter (codes "cut") rest.now (format_of format) result }
{
    match cut(alloc, rest, Basis::OfAll, format.atoms)? {
        Some(line) => Ok(CertLine::Listed(line)),
        None => Err(NextFault::Text(TextFault::Form)),
    }
}

/// Parses a dead end from what follows `dead`; version 1 has none.
fn dead_line(alloc: Global, rest: &[u8], format: Format) -> Result<CertLine, NextFault>
    requires few { format.atoms ≤ most_atoms }
    ensures { IsParsedAfter (codes "dead") rest.now (format_of format) result }
{
    if let Version::One = format.version {
        return Err(NextFault::Text(TextFault::Form));
    }
    match numbered(alloc, rest, format.atoms)? {
        Some((cost, atoms)) => Ok(CertLine::Listed(StateLine {
            cost,
            mark: Mark::Dead { by: Basis::OfAll },
            atoms,
        })),
        None => Err(NextFault::Text(TextFault::Form)),
    }
}

/// Parses a cut that rests on a landmark value from what follows `cut-by`.
fn cut_by_line(alloc: Global, rest: &[u8], format: Format) -> Result<CertLine, NextFault>
    requires few { format.atoms ≤ most_atoms }
    ensures { IsParsedAfter (codes "cut-by") rest.now (format_of format) result }
{
    let Some((value, following)) = first_basis(rest, format.version) else {
        return Err(NextFault::Text(TextFault::Form));
    };
    match cut(alloc, following, Basis::Landmark(value), format.atoms)? {
        Some(line) => Ok(CertLine::Listed(line)),
        None => Err(NextFault::Text(TextFault::Form)),
    }
}

/// Parses a dead end that rests on a landmark value from what follows `dead-by`.
fn dead_by_line(alloc: Global, rest: &[u8], format: Format) -> Result<CertLine, NextFault>
    requires few { format.atoms ≤ most_atoms }
    ensures { IsParsedAfter (codes "dead-by") rest.now (format_of format) result }
{
    let Some((value, following)) = first_basis(rest, format.version) else {
        return Err(NextFault::Text(TextFault::Form));
    };
    match numbered(alloc, following, format.atoms)? {
        Some((cost, atoms)) => Ok(CertLine::Listed(StateLine {
            cost,
            mark: Mark::Dead {
                by: Basis::Landmark(value),
            },
            atoms,
        })),
        None => Err(NextFault::Text(TextFault::Form)),
    }
}

/// A cut with this basis: its cost, its bound and its atoms; `None` if there is anything else.
fn cut(
    alloc: Global,
    rest: &[u8],
    by: Basis,
    atom_count: usize,
) -> Result<Option<StateLine>, AllocError>
    requires few { atom_count ≤ most_atoms }
    ensures some { IfOk result (λ found. IfSome found (λ l. (least : ℕ) × (l.mark ≡ Cut by least) × IsCut rest.now atom_count l.cost least l.atoms.items)) }
    ensures none { IfOk result (λ found. IfNone found ((cost least : ℕ) (atoms : List ℕ) → IsCut rest.now atom_count cost least atoms → ⊥)) }
{
    let (word, following) = first_word(rest);
    let Some(cost) = number(word) else {
        return Ok(None);
    };
    let Some(following) = following else {
        return Ok(None);
    };
    match numbered(alloc, following, atom_count)? {
        Some((least, atoms)) => Ok(Some(StateLine {
            cost,
            mark: Mark::Cut { by, rest: least },
            atoms,
        })),
        None => Ok(None),
    }
}

/// The number of a landmark value that a text of this version may have, and what follows it; `None` if there is anything else.
fn first_basis(bytes: &[u8], version: Version) -> Option<(u32, &[u8])>
    ensures some { IfSome result (λ read. IsBasisFirst bytes.now (version_of version) read.0 read.1.now) }
    ensures none { IfNone result ((number : ℕ) (rest : List ℕ) → IsBasisFirst bytes.now (version_of version) number rest → ⊥) }
{
    if !has_landmarks(version) {
        return None;
    }
    let (word, following) = first_word(bytes);
    let Some(value) = number_within(word, 0, MAX_VALUES) else {
        return None;
    };
    let Some(rest) = following else {
        return None;
    };
    Some((value, rest))
}

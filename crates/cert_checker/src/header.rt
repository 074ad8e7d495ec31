//! The header of a certificate, read line by line.
ghost use Rattle.std.specs.Prelude.{◌≡◌, ℕ, ◌<◌, pos, ◌+◌, ◌++◌, ◌∷◌, [], IfErr, IfOk, List, OnOk, length, map};
ghost use Rattle.task.specs.Task.{task_of};
ghost use Rattle.formulas.specs.FluentTable.{AreFluentsOf};
ghost use Rattle.model.specs.Task as model;
ghost use Rattle.certificate_reader.specs.Lines.{named_atom_of, text_line_of, version_of};
ghost use Rattle.certificate_definitions.specs.CertificateNames.{value_count, weight_said};
ghost use Rattle.certificate_definitions.specs.CertificateText.{TextLine, BeginCertificate, atom};
ghost use Rattle.cert_checker.specs.Given.{begun_with, push_at, with_weights};
ghost use Rattle.cert_checker.specs.Tabled.{AreWeighed, IsFitHead};
ghost use Rattle.cert_checker.specs.Taking.{HasTaken, IsTaken, IsWrongNow};
ghost use Rattle.certificate_reader.specs.Reader.{source_of};
ghost use Rattle.certificate.specs.Evidence.{evidence_of, potential_of};
ghost use Rattle.cert_checker.specs.Reading.{CountsRefusal, IsBegun, IsFresh, IsLineRefusal};

use crate::exchanges::take_exchange;
use crate::named_atoms::fluent_atom_named;
use crate::part_lines::take_part;
use crate::refusal::{Refusal, RefusalCode};
use certificate::{
    CertLine, CertReader, Claim, Evidence, Header, Landmarks, NamedAtom, Version, WrittenPotentials,
};
use devices::Source;
use faults::NoMemory;
use formulas::FluentPredicates;
use indexmap::IndexSet;
use std::alloc::Global;
use task::Task;

/// The header before any line is read: version 1, a bound of 0, which always holds, and no values.
fn nothing_reported(alloc: Global) -> Header
    ensures taken { (task : model.Task) → HasTaken task [] result }
    ensures weighed { AreWeighed result.evidence }
{
    Header {
        version: Version::One,
        claim: Claim::Bound(0),
        exchanges: Vec::new(alloc),
        atoms: IndexSet::new(alloc),
        evidence: Evidence {
            values: Vec::new(alloc),
            dead_ends: of_no_atoms(alloc, 0),
            tables: Vec::new(alloc),
            landmarks: Landmarks::none(alloc),
        },
    }
}

/// The potential function with this constant and no atoms.
fn of_no_atoms(alloc: Global, constant: i64) -> WrittenPotentials
    ensures { potential_of result ≡ record { constant = constant; weights = [] } }
{
    WrittenPotentials {
        constant,
        weights: Vec::new(alloc),
    }
}

/// The weight at this index; 0 if the text has none.
fn weight_at(weights: &[i64], place: usize) -> i64
    ensures { result ≡ weight_said place weights.now }
{
    match weights.get(place) {
        Some(weight) => *weight,
        None => 0,
    }
}

/// How many of the constants belong to values: all but that of dead ends, which version 1 does not have.
fn value_count(version: Version, constant_count: usize) -> usize
    ensures { result ≡ value_count (version_of version) constant_count }
{
    match version {
        Version::One => constant_count,
        Version::Two | Version::Three | Version::Four => constant_count.saturating_sub(1),
    }
}

/// Takes the constants, with which the values begin.
fn take_constants(
    alloc: Global,
    evidence: &mut Evidence,
    version: Version,
    constants: &[i64],
) -> Result<(), NoMemory>
    ensures taken { OnOk result (evidence_of evidence.new ≡ begun_with (version_of version) constants.now (evidence_of evidence.old)) }
    ensures landmarks { evidence.new.landmarks ≡ evidence.old.landmarks }
{
    let count = value_count(version, constants.len());
    for place in 0..count {
        let value = of_no_atoms(alloc, weight_at(constants, place));
        evidence.values.push(value)?;
    }
    evidence.dead_ends.constant = weight_at(constants, count);
    Ok(())
}

/// Takes the weights of the next atom: one for each value, in order, then the one for dead ends.
fn take_weights(evidence: &mut Evidence, weights: &[i64]) -> Result<(), NoMemory>
    ensures taken { OnOk result (evidence_of evidence.new ≡ with_weights (evidence_of evidence.old) weights.now) }
    ensures landmarks { evidence.new.landmarks ≡ evidence.old.landmarks }
{
    let count = evidence.values.len();
    for place in 0..count {
        push_weight(&mut evidence.values, place, weight_at(weights, place))?;
    }
    evidence.dead_ends.weights.push(weight_at(weights, count))?;
    Ok(())
}

/// Appends the weight to those of the value at this index.
fn push_weight(
    values: &mut Vec<WrittenPotentials>,
    place: usize,
    weight: i64,
) -> Result<(), NoMemory>
    requires { place < length values.old.items }
    ensures { OnOk result (map potential_of values.new.items ≡ push_at place weight (map potential_of values.old.items)) }
{
    values[place].weights.push(weight)?;
    Ok(())
}

/// Takes the line with this number, from 1; a state line or the last line is given back.
fn take(
    alloc: Global,
    header: &mut Header,
    task: &Task,
    fluents: &FluentPredicates,
    line: CertLine,
    number: u64,
) -> Result<Option<CertLine>, Refusal>
    requires fluents { AreFluentsOf (task_of task.now) fluents.now }
    requires fit { IsFitHead header.old.evidence (text_line_of line) }
    ensures taken { IfOk result (λ back. (before : List TextLine) → BeginCertificate (before ++ text_line_of line ∷ [])
        → HasTaken (task_of task.now) before header.old → IsTaken (task_of task.now) before (text_line_of line) header.new back) }
    ensures wrong { IfErr result (λ refusal. (before : List TextLine) → BeginCertificate (before ++ text_line_of line ∷ []) → number ≡ length before + 1
        → HasTaken (task_of task.now) before header.old → IsWrongNow (task_of task.now) before (text_line_of line) refusal) }
    ensures weighed { OnOk result ((before : List TextLine) → BeginCertificate (before ++ text_line_of line ∷ [])
        → HasTaken (task_of task.now) before header.old → AreWeighed header.old.evidence → AreWeighed header.new.evidence) }
{
    match line {
        CertLine::Head(version) => {
            header.version = version;
            Ok(None)
        }
        CertLine::Claim(claim) => {
            header.claim = claim;
            Ok(None)
        }
        CertLine::Constant(constants) => {
            take_constants(alloc, &mut header.evidence, header.version, &constants)?;
            Ok(None)
        }
        CertLine::Swap { objects } => {
            take_exchange(alloc, task, &mut header.exchanges, &objects)?;
            Ok(None)
        }
        CertLine::Weight {
            weights,
            predicate,
            objects,
        } => {
            let atom = NamedAtom { predicate, objects };
            add_atom(header, task, fluents, &atom, &weights, number)?;
            Ok(None)
        }
        CertLine::Part(part) => {
            take_part(alloc, &mut header.evidence, part, number)?;
            Ok(None)
        }
        CertLine::Listed(_) | CertLine::Last { .. } => Ok(Some(line)),
    }
}

/// Appends the atom with these names, from the line with this number, and its weights.
fn add_atom(
    header: &mut Header,
    task: &Task,
    fluents: &FluentPredicates,
    name: &NamedAtom,
    weights: &[i64],
    number: u64,
) -> Result<(), Refusal>
    requires { AreFluentsOf (task_of task.now) fluents.now }
    ensures reported { OnOk result ((before : List TextLine) → BeginCertificate (before ++ atom (record { weights = weights.now; atom = named_atom_of name.now }) ∷ []) → HasTaken (task_of task.now) before header.old
        → HasTaken (task_of task.now) (before ++ atom (record { weights = weights.now; atom = named_atom_of name.now }) ∷ []) header.new) }
    ensures wrong { IfErr result (λ refusal. (before : List TextLine) → number ≡ length before + 1 → HasTaken (task_of task.now) before header.old
        → IsWrongNow (task_of task.now) before (atom (record { weights = weights.now; atom = named_atom_of name.now })) refusal) }
{
    let Some(atom) = fluent_atom_named(task, fluents, name) else {
        return Err(Refusal::Line {
            code: RefusalCode::NotFluent,
            line: number,
        });
    };
    if !header.atoms.insert(atom)? {
        return Err(Refusal::Line {
            code: RefusalCode::Repeated,
            line: number,
        });
    }
    take_weights(&mut header.evidence, weights)?;
    Ok(())
}

/// Reads the header, and the line after it; `None` if the text ends before that line.
pub(crate) fn read_header<R: Source>(
    alloc: Global,
    task: &Task,
    reader: &mut CertReader<R>,
) -> Result<(Header, Option<CertLine>), Refusal>
    requires { IsFresh reader.old }
    ensures begun { IfOk result (λ read. IsBegun R.remaining (task_of task.now) reader.old reader.new read.0 read.1) }
    ensures weighed { IfOk result (λ read. AreWeighed read.0.evidence) }
    ensures refused { IfErr result (IsLineRefusal R.remaining (task_of task.now) reader.old reader.new) }
    ensures failures { CountsRefusal (R.failures (source_of reader.old)) (R.failures (source_of reader.new)) result }
{
    let fluents = FluentPredicates::new(alloc, task)?;
    let mut header = nothing_reported(alloc);
    'lines: loop {
        let Some(line) = reader.next_line()? else {
            return Ok((header, None));
        };
        if let Some(line) = take(alloc, &mut header, task, &fluents, line, reader.lines())? {
            return Ok((header, Some(line)));
        }
    }
}

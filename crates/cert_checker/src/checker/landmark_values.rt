//! The test of a certificate's landmark values in its ground task.
ghost use Rattle.std.specs.Prelude.{◌≡◌, ◌<◌, IfErr, OnOk, length};
ghost use Rattle.grounding.specs.Ground.{task_in, atoms_in};
ghost use Rattle.landmarks.specs.Fairness.{is_unfair};
ghost use Rattle.certificate_reader.specs.Lines.{mark_of};
ghost use Rattle.certificate.specs.Certificate.{certificate_of};
ghost use Rattle.certificate_definitions.specs.Certificates.{AreFairFor, AreLandmarksFair, StateLine};
ghost use Rattle.certificate_definitions.specs.CertificateRefusals.{landmark_line};
ghost use Rattle.cert_checker.specs.FluentAtoms.{AreFluent};
ghost use Rattle.cert_checker.specs.CheckedLines.{IsFirstSymmetric, IsTrueAnyway};
ghost use Rattle.cert_checker.specs.LandmarkFaults.{IsFirstWhere, rests_on_another};
ghost use Rattle.cert_checker.specs.declared.refusal.Refusal.TheVariants as Refusal;
ghost use Rattle.cert_checker.specs.declared.refusal.RefusalCode.TheVariants.{ValueUnfair};
ghost use Rattle.model.specs.NumberedAtoms.{numbered_atoms};
ghost use Rattle.tables.specs.Several.{several_of};

use crate::checker::steps::state_line;
use crate::refusal::{Refusal, RefusalCode};
use certificate::{Basis, Cert, Mark};
use grounding::Ground;
use landmarks::{CutIndex, Fairness};
use std::alloc::Global;
use tables::TableFunctions;

/// Checks that the certificate's landmark values are fair for the ground task, which numbers the certificate's atoms first, and that
/// those that dead ends rest on are dead-fair. Its other values, whose tables are the certificate's, are fair.
pub(super) fn check_landmarks(
    alloc: Global,
    cert: &Cert,
    grounded: &Ground<'_>,
    common: &TableFunctions<'_>,
) -> Result<(), Refusal>
    requires fluent { AreFluent (task_in grounded.now) (certificate_of cert.now).atoms }
    requires numbered { atoms_in grounded.now ≡ numbered_atoms (task_in grounded.now) (certificate_of cert.now).atoms }
    requires tables { (several_of common.now).tables ≡ (certificate_of cert.now).tables }
    requires fair { AreFairFor (task_in grounded.now) (certificate_of cert.now) }
    ensures fair { OnOk result (AreLandmarksFair (task_in grounded.now) (certificate_of cert.now)) }
    ensures wrong { IfErr result (IsTrueAnyway (task_in grounded.now) (certificate_of cert.now)) }
    ensures first { IfErr result (IsFirstSymmetric (task_in grounded.now) (certificate_of cert.now)) }
{
    let landmarks = &cert.evidence().landmarks;
    if landmarks.value_count() == 0 {
        return Ok(());
    }
    let asked = common.asked(alloc, grounded)?;
    let index = CutIndex::new(alloc, grounded, &asked)?;
    let found = index.fairness_of_all(alloc, landmarks)?;
    if let Some(number) = first_unfair(&found) {
        return Err(value_line(cert, number));
    }
    if let Some(place) = first_not_dead(cert, &found) {
        return Err(state_line(RefusalCode::ValueNotDead, cert, place));
    }
    Ok(())
}

/// The number of the first value that is not fair, if there is one.
fn first_unfair(found: &[Fairness]) -> Option<usize>
    ensures { IsFirstWhere is_unfair found.now result }
{
    for number in 0..found.len() {
        if found[number].is_unfair() {
            return Some(number);
        }
    }
    None
}

/// The place of the first state line that is a dead end and rests on a landmark value that is not dead-fair, if there is one.
fn first_not_dead(cert: &Cert, found: &[Fairness]) -> Option<usize>
    ensures { IsFirstWhere (λ (l : StateLine). rests_on_another found.now l.mark) (certificate_of cert.now).lines result }
{
    let marks = cert.marks();
    for place in 0..marks.len() {
        if rests_on_another(marks[place].mark, found) {
            return Some(place);
        }
    }
    None
}

/// Whether it is a dead end that rests on a landmark value that is not dead-fair.
fn rests_on_another(mark: Mark, found: &[Fairness]) -> bool
    ensures { result ≡ rests_on_another found.now (mark_of mark) }
{
    match mark {
        Mark::Expanded | Mark::Cut { .. } | Mark::Dead { by: Basis::OfAll } => false,
        Mark::Dead {
            by: Basis::Landmark(number),
        } => match found.get(number as usize) {
            Some(fairness) => !fairness.is_dead_fair(),
            None => true,
        },
    }
}

/// Refuses the landmark value with this number, from 0, by its line. Its line comes right before those of states.
fn value_line(cert: &Cert, number: usize) -> Refusal
    requires { number < length (certificate_of cert.now).landmarks.values }
    ensures { result ≡ Refusal.Line ValueUnfair (landmark_line (certificate_of cert.now) number) }
{
    let following = cert.evidence().landmarks.value_count() - number;
    Refusal::Line {
        code: RefusalCode::ValueUnfair,
        line: cert.first_state_line() - following as u64,
    }
}

//! The potentials of a certificate of version 1 or 2 in its ground task, and their test of fairness.
ghost use Rattle.std.specs.Prelude.{◌≡◌, ◌<◌, ◌≤◌, ◌↔◌, pos, All, false, IsTrue, Some, IfErr, IfOk, OnOk, length, slice_get};
ghost use Rattle.formulas.specs.State.{instance_of};
ghost use Rattle.grounding.specs.Ground.{task_in, atoms_in};
ghost use Rattle.potentials.specs.Fairness.{DetectsDead};
ghost use Rattle.potentials.specs.Potentials.{potentials_of};
ghost use Rattle.certificate.specs.Certificate.{certificate_of};
ghost use Rattle.certificate.specs.Evidence.{potential_of};
ghost use Rattle.certificate_definitions.specs.Certificates as certificates;
ghost use Rattle.certificate_definitions.specs.Certificates.{has_tables};
ghost use Rattle.cert_checker.specs.FluentAtoms.{AreFluent};
ghost use Rattle.cert_checker.specs.CheckedLines.{IsFirstSymmetric, IsTrueAnyway};
ghost use Rattle.cert_checker.specs.Weights.{HasItsWeights};
ghost use Rattle.model.specs.StaticallyFalse.{kept_instances};
ghost use Rattle.model.specs.NumberedAtoms.{numbered_atoms};
ghost use Rattle.lower_bounds.specs.PotentialFunctions.{AreInRange};
ghost use Rattle.lower_bounds.specs.FairPotentials.{AreFair, AreDeadFair};

use crate::refusal::{Refusal, RefusalCode};
use certificate::{Cert, WrittenPotentials};
use faults::NoMemory;
use formulas::{Instance, copied};
use grounding::Ground;
use potentials::{Fairness, Potentials};
use std::alloc::Global;

/// The certificate's potentials, if they are fair for the ground task, which numbers the certificate's atoms first.
pub(super) fn fair_potentials(
    alloc: Global,
    cert: &Cert,
    grounded: &Ground<'_>,
) -> Result<Potentials, Refusal>
    requires version { has_tables (certificate_of cert.now).version ≡ false }
    requires fluent { AreFluent (task_in grounded.now) (certificate_of cert.now).atoms }
    requires numbered { atoms_in grounded.now ≡ numbered_atoms (task_in grounded.now) (certificate_of cert.now).atoms }
    ensures weights { IfOk result (λ p. HasItsWeights (certificates.potentials_of (certificate_of cert.now)) (length (atoms_in grounded.now)) (potentials_of p)) }
    ensures fair { OnOk result (AreFair (task_in grounded.now) (numbered_atoms (task_in grounded.now) (certificate_of cert.now).atoms) (certificates.potentials_of (certificate_of cert.now))) }
    ensures wrong { IfErr result (IsTrueAnyway (task_in grounded.now) (certificate_of cert.now)) }
    ensures first { IfErr result (IsFirstSymmetric (task_in grounded.now) (certificate_of cert.now)) }
{
    let potentials = at_width(alloc, &cert.evidence().values[0], grounded.width())?;
    match potentials.fair(alloc, grounded)? {
        Fairness::Fair => Ok(potentials),
        Fairness::Instance(number) => Err(Refusal::Unfair(kept_instance(grounded, number))),
        Fairness::Goal => Err(Refusal::Plain(RefusalCode::UnfairGoal)),
    }
}

/// The certificate's potentials for dead ends, if they are dead-fair for the ground task, which numbers the certificate's atoms
/// first. Its other potentials are fair.
pub(super) fn dead_fair_potentials(
    alloc: Global,
    cert: &Cert,
    grounded: &Ground<'_>,
) -> Result<Potentials, Refusal>
    requires version { has_tables (certificate_of cert.now).version ≡ false }
    requires fluent { AreFluent (task_in grounded.now) (certificate_of cert.now).atoms }
    requires numbered { atoms_in grounded.now ≡ numbered_atoms (task_in grounded.now) (certificate_of cert.now).atoms }
    requires fair { AreFair (task_in grounded.now) (numbered_atoms (task_in grounded.now) (certificate_of cert.now).atoms) (certificates.potentials_of (certificate_of cert.now)) }
    ensures weights { IfOk result (λ p. HasItsWeights (certificate_of cert.now).dead_ends (length (atoms_in grounded.now)) (potentials_of p)) }
    ensures dead_fair { OnOk result (AreDeadFair (task_in grounded.now) (numbered_atoms (task_in grounded.now) (certificate_of cert.now).atoms) (certificate_of cert.now).dead_ends) }
    ensures wrong { IfErr result (IsTrueAnyway (task_in grounded.now) (certificate_of cert.now)) }
    ensures first { IfErr result (IsFirstSymmetric (task_in grounded.now) (certificate_of cert.now)) }
{
    let potentials = at_width(alloc, &cert.evidence().dead_ends, grounded.width())?;
    match dead_fairness(alloc, &potentials, grounded)? {
        Fairness::Fair => Ok(potentials),
        Fairness::Instance(number) => Err(Refusal::DeadUnfair(kept_instance(grounded, number))),
        Fairness::Goal => Err(Refusal::Plain(RefusalCode::DeadUnfairGoal)),
    }
}

/// Whether these potentials are dead-fair for the ground task. If all are 0, as in version 1, they are: no instance is looked at.
fn dead_fairness(
    alloc: Global,
    potentials: &Potentials,
    grounded: &Ground<'_>,
) -> Result<Fairness, NoMemory>
    requires { length (potentials_of potentials.now).weights ≡ length (atoms_in grounded.now) }
    ensures { IfOk result (DetectsDead (task_in grounded.now) (atoms_in grounded.now) (potentials_of potentials.now)) }
{
    if potentials.constant() == 0 && are_zero(potentials.weights()) {
        Ok(Fairness::Fair)
    } else {
        potentials.dead_fair(alloc, grounded)
    }
}

/// Whether all weights are 0.
fn are_zero(weights: &[i64]) -> bool
    ensures { IsTrue result ↔ All (λ w. w ≡ pos 0) weights.now }
{
    weights.iter().all(|weight| *weight == 0)
}

/// A copy of these potentials, widened by weights of 0.
pub(super) fn at_width(
    alloc: Global,
    said: &WrittenPotentials,
    width: u32,
) -> Result<Potentials, NoMemory>
    requires range { AreInRange (potential_of said.now) }
    requires enough { length (potential_of said.now).weights ≤ width }
    ensures { IfOk result (λ p. HasItsWeights (potential_of said.now) width (potentials_of p)) }
{
    let mut weights = Vec::from_slice(alloc, &said.weights)?;
    weights.resize(width as usize, 0)?;
    Ok(Potentials::new(said.constant, weights).unwrap())
}

/// A copy of the kept instance with this number.
pub(super) fn kept_instance(grounded: &Ground<'_>, number: u32) -> Instance
    requires { number < length (kept_instances (task_in grounded.now)) }
    ensures { slice_get (kept_instances (task_in grounded.now)) number ≡ Some (instance_of result) }
{
    let instance = &grounded.instances()[number as usize];
    Instance {
        schema: instance.schema,
        objects: copied(&instance.objects),
    }
}

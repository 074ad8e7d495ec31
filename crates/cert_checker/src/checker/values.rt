//! A certificate's values in its ground task, and their test of fairness.
ghost use Rattle.std.specs.Prelude.{◌≡◌, ◌≤◌, All, false, true, IfErr, IfOk, OnOk, length, map};
ghost use Rattle.grounding.specs.Ground.{task_in, atoms_in};
ghost use Rattle.potentials.specs.Potentials.{potentials_of};
ghost use Rattle.potentials.specs.declared.potentials.Potentials as in_memory;
ghost use Rattle.certificate.specs.Certificate.{certificate_of};
ghost use Rattle.certificate.specs.Evidence.{potential_of};
ghost use Rattle.certificate.specs.declared.evidence.WrittenPotentials as code;
ghost use Rattle.certificate_definitions.specs.Certificates as certificates;
ghost use Rattle.certificate_definitions.specs.Certificates.{has_tables, AreFairFor};
ghost use Rattle.lower_bounds.specs.PotentialFunctions.{PotentialFunction, AreInRange};
ghost use Rattle.tables.specs.Several.{several_of};
ghost use Rattle.cert_checker.specs.FluentAtoms.{AreFluent};
ghost use Rattle.cert_checker.specs.CheckedLines.{IsFirstSymmetric, IsTrueAnyway};
ghost use Rattle.cert_checker.specs.Weights.{HaveTheirWeights, AreCounted, AreWidened};
ghost use Rattle.model.specs.NumberedAtoms.{numbered_atoms};

use crate::checker::weights::{at_width, dead_fair_potentials, fair_potentials, kept_instance};
use crate::refusal::{Refusal, RefusalCode};
use certificate::{Cert, Version, WrittenPotentials};
use faults::NoMemory;
use grounding::Ground;
use potentials::Potentials;
use std::alloc::Global;
use tables::{IndexedTables, TableFunctions, ValuesFairness};

/// The certificate's values, if they are fair for the ground task, and the one for dead ends is dead-fair. The ground task numbers
/// the certificate's atoms first.
pub(super) fn fair_values<'a>(
    alloc: Global,
    cert: &'a Cert,
    grounded: &Ground<'_>,
) -> Result<TableFunctions<'a>, Refusal>
    requires counted { AreCounted cert.now }
    requires fluent { AreFluent (task_in grounded.now) (certificate_of cert.now).atoms }
    requires numbered { atoms_in grounded.now ≡ numbered_atoms (task_in grounded.now) (certificate_of cert.now).atoms }
    ensures weights { IfOk result (λ f. HaveTheirWeights (certificates.several_of (certificate_of cert.now)) (length (atoms_in grounded.now)) (several_of f)) }
    ensures fair { OnOk result (AreFairFor (task_in grounded.now) (certificate_of cert.now)) }
    ensures wrong { IfErr result (IsTrueAnyway (task_in grounded.now) (certificate_of cert.now)) }
    ensures first { IfErr result (IsFirstSymmetric (task_in grounded.now) (certificate_of cert.now)) }
{
    match cert.version() {
        Version::One | Version::Two => fair_without_tables(alloc, cert, grounded),
        Version::Three | Version::Four => fair_with_tables(alloc, cert, grounded),
    }
}

/// The values of versions 1 and 2: two potential functions, which have to be fair for every kept instance; none is shut out.
fn fair_without_tables<'a>(
    alloc: Global,
    cert: &'a Cert,
    grounded: &Ground<'_>,
) -> Result<TableFunctions<'a>, Refusal>
    requires version { has_tables (certificate_of cert.now).version ≡ false }
    requires counted { AreCounted cert.now }
    requires fluent { AreFluent (task_in grounded.now) (certificate_of cert.now).atoms }
    requires numbered { atoms_in grounded.now ≡ numbered_atoms (task_in grounded.now) (certificate_of cert.now).atoms }
    ensures weights { IfOk result (λ f. HaveTheirWeights (certificates.several_of (certificate_of cert.now)) (length (atoms_in grounded.now)) (several_of f)) }
    ensures fair { OnOk result (AreFairFor (task_in grounded.now) (certificate_of cert.now)) }
    ensures wrong { IfErr result (IsTrueAnyway (task_in grounded.now) (certificate_of cert.now)) }
    ensures first { IfErr result (IsFirstSymmetric (task_in grounded.now) (certificate_of cert.now)) }
{
    let value = fair_potentials(alloc, cert, grounded)?;
    let dead_ends = dead_fair_potentials(alloc, cert, grounded)?;
    let values = vec![in alloc; value]?;
    let functions = over_tables(alloc, cert, values, dead_ends, grounded)?;
    Ok(functions)
}

/// The values of versions 3 and 4, over tables.
fn fair_with_tables<'a>(
    alloc: Global,
    cert: &'a Cert,
    grounded: &Ground<'_>,
) -> Result<TableFunctions<'a>, Refusal>
    requires version { has_tables (certificate_of cert.now).version ≡ true }
    requires counted { AreCounted cert.now }
    requires fluent { AreFluent (task_in grounded.now) (certificate_of cert.now).atoms }
    requires numbered { atoms_in grounded.now ≡ numbered_atoms (task_in grounded.now) (certificate_of cert.now).atoms }
    ensures weights { IfOk result (λ f. HaveTheirWeights (certificates.several_of (certificate_of cert.now)) (length (atoms_in grounded.now)) (several_of f)) }
    ensures fair { OnOk result (AreFairFor (task_in grounded.now) (certificate_of cert.now)) }
    ensures wrong { IfErr result (IsTrueAnyway (task_in grounded.now) (certificate_of cert.now)) }
    ensures first { IfErr result (IsFirstSymmetric (task_in grounded.now) (certificate_of cert.now)) }
{
    let evidence = cert.evidence();
    let width = grounded.width();
    let values = all_at_width(alloc, &evidence.values, width)?;
    let dead_ends = at_width(alloc, &evidence.dead_ends, width)?;
    let functions = over_tables(alloc, cert, values, dead_ends, grounded)?;
    check_fairness(alloc, cert, &functions, grounded)?;
    Ok(functions)
}

/// Checks that these values of the certificate are fair, and that the one for dead ends is dead-fair.
fn check_fairness(
    alloc: Global,
    cert: &Cert,
    functions: &TableFunctions<'_>,
    grounded: &Ground<'_>,
) -> Result<(), Refusal>
    requires version { has_tables (certificate_of cert.now).version ≡ true }
    requires fluent { AreFluent (task_in grounded.now) (certificate_of cert.now).atoms }
    requires numbered { atoms_in grounded.now ≡ numbered_atoms (task_in grounded.now) (certificate_of cert.now).atoms }
    requires weights { HaveTheirWeights (certificates.several_of (certificate_of cert.now)) (length (atoms_in grounded.now)) (several_of functions.now) }
    ensures fair { OnOk result (AreFairFor (task_in grounded.now) (certificate_of cert.now)) }
    ensures wrong { IfErr result (IsTrueAnyway (task_in grounded.now) (certificate_of cert.now)) }
    ensures first { IfErr result (IsFirstSymmetric (task_in grounded.now) (certificate_of cert.now)) }
{
    match functions.fairness(alloc, grounded)? {
        ValuesFairness::Fair => Ok(()),
        ValuesFairness::Instance { number, .. } => {
            Err(Refusal::Unfair(kept_instance(grounded, number)))
        }
        ValuesFairness::Goals { .. } => Err(Refusal::Plain(RefusalCode::UnfairGoal)),
        ValuesFairness::DeadEndInstance { number } => {
            Err(Refusal::DeadUnfair(kept_instance(grounded, number)))
        }
        ValuesFairness::DeadEndGoals => Err(Refusal::Plain(RefusalCode::DeadUnfairGoal)),
    }
}

/// These potential functions over the certificate's tables, whose rows are not copied. Each has a weight for each numbered atom.
fn over_tables<'a>(
    alloc: Global,
    cert: &'a Cert,
    values: Vec<Potentials>,
    dead_ends: Potentials,
    grounded: &Ground<'_>,
) -> Result<TableFunctions<'a>, NoMemory>
    requires counted { AreCounted cert.now }
    requires enough { length (certificate_of cert.now).atoms ≤ length (atoms_in grounded.now) }
    requires as_many { length values.items ≡ length (certificate_of cert.now).values }
    requires values { All (λ (p : in_memory.Potentials). length (potentials_of p).weights ≡ length (atoms_in grounded.now)) values.items }
    requires dead_ends { length (potentials_of dead_ends).weights ≡ length (atoms_in grounded.now) }
    ensures { IfOk result (λ f. several_of f ≡ record { values = map potentials_of values.items; dead_ends = potentials_of dead_ends; tables = (certificate_of cert.now).tables }) }
{
    let count = values.len() as u32 + 1;
    let tables = IndexedTables::index(alloc, grounded.width(), count, &cert.evidence().tables)?;
    Ok(TableFunctions::new(values, dead_ends, tables))
}

/// Copies of these potentials, widened by weights of 0.
fn all_at_width(
    alloc: Global,
    said: &[WrittenPotentials],
    width: u32,
) -> Result<Vec<Potentials>, NoMemory>
    requires range { All (λ (p : code.WrittenPotentials). AreInRange (potential_of p)) said.now }
    requires enough { All (λ (p : code.WrittenPotentials). length (potential_of p).weights ≤ width) said.now }
    ensures { IfOk result (λ made. AreWidened (map potential_of said.now) width (map potentials_of made.items)) }
{
    let mut made = Vec::new(alloc);
    for potential in said {
        made.push(at_width(alloc, potential, width)?)?;
    }
    Ok(made)
}

//! The test that a certificate's exchanges are symmetries of the task.
ghost use Rattle.std.specs.Prelude.{◌≡◌, ◌++◌, ◌<◌, ◌^◌, true, IsTrue, IfErr, IfOk, OnOk, Option, None, Some, if◌then◌else◌, map};
ghost use Rattle.std.specs.List.{list_all};
ghost use Rattle.std.specs.Option.{option_map};
ghost use Rattle.task.specs.Task.{task_of};
ghost use Rattle.grounding.specs.Ground.{task_in, atoms_in};
ghost use Rattle.symmetries.specs.Exchange.{exchange_of};
ghost use Rattle.symmetries.specs.ObjectPairs.{exchange_among, pairs_in};
ghost use Rattle.symmetries.specs.SymmetryTest.{task_tested};
ghost use Rattle.symmetries_definitions.specs.Exchanges.{objects_in};
ghost use Rattle.symmetries_definitions.specs.Orbits.{keeps_atoms};
ghost use Rattle.certificate.specs.Certificate.{certificate_of};
ghost use Rattle.certificate_definitions.specs.CertificateRefusals.{exchange_line};
ghost use Rattle.cert_checker.specs.CheckedLines.{AreSymmetries, IsFirstGrounded, IsTrueAnyway};
ghost use Rattle.cert_checker.specs.Exchanged.{is_said, is_symmetry_by};
ghost use Rattle.cert_checker.specs.FluentAtoms.{AreFluent};
ghost use Rattle.cert_checker.specs.Represented.{Represents};
ghost use Rattle.cert_checker.specs.declared.refusal.Refusal.TheVariants as Refusal;
ghost use Rattle.cert_checker.specs.declared.refusal.RefusalCode.TheVariants.{NotSymmetry};
ghost use Rattle.model.specs.NumberedAtoms.{numbered_atoms};

use crate::refusal::{Refusal, RefusalCode};
use certificate::Cert;
use faults::NoMemory;
use grounding::Ground;
use std::alloc::Global;
use symmetries::{Exchange, Representatives, SymmetryTest, exchanged_numbers};
use task::{ObjectId, Task};

/// The certificate's exchanges, if each is a symmetry of the task and maps numbered atoms to numbered atoms.
pub(super) fn symmetric_exchanges(
    alloc: Global,
    cert: &Cert,
    grounded: &Ground<'_>,
) -> Result<Vec<Exchange>, Refusal>
    requires said { IsTrue (list_all (is_said (task_in grounded.now)) (certificate_of cert.now).exchanges) }
    requires fluent { AreFluent (task_in grounded.now) (certificate_of cert.now).atoms }
    requires numbered { atoms_in grounded.now ≡ numbered_atoms (task_in grounded.now) (certificate_of cert.now).atoms }
    ensures exchanges { IfOk result (λ made. map exchange_of made.items ≡ (certificate_of cert.now).exchanges) }
    ensures symmetric { OnOk result (AreSymmetries (task_in grounded.now) (certificate_of cert.now)) }
    ensures wrong { IfErr result (IsTrueAnyway (task_in grounded.now) (certificate_of cert.now)) }
    ensures first { IfErr result (IsFirstGrounded (task_in grounded.now) (certificate_of cert.now)) }
{
    if cert.exchanges().is_empty() {
        return Ok(Vec::new(alloc));
    }
    let test = SymmetryTest::new(alloc, grounded.task())?;
    tested_exchanges(alloc, cert, grounded, &test)
}

/// The same, with the task's test of symmetry.
fn tested_exchanges(
    alloc: Global,
    cert: &Cert,
    grounded: &Ground<'_>,
    test: &SymmetryTest<'_>,
) -> Result<Vec<Exchange>, Refusal>
    requires tested { task_tested test.now ≡ task_in grounded.now }
    requires said { IsTrue (list_all (is_said (task_in grounded.now)) (certificate_of cert.now).exchanges) }
    requires fluent { AreFluent (task_in grounded.now) (certificate_of cert.now).atoms }
    requires numbered { atoms_in grounded.now ≡ numbered_atoms (task_in grounded.now) (certificate_of cert.now).atoms }
    ensures exchanges { IfOk result (λ made. map exchange_of made.items ≡ (certificate_of cert.now).exchanges) }
    ensures symmetric { OnOk result (AreSymmetries (task_in grounded.now) (certificate_of cert.now)) }
    ensures wrong { IfErr result (IsTrueAnyway (task_in grounded.now) (certificate_of cert.now)) }
    ensures first { IfErr result (IsFirstGrounded (task_in grounded.now) (certificate_of cert.now)) }
{
    let exchanges = cert.exchanges();
    let mut made = Vec::new(alloc);
    for place in 0..exchanges.len() {
        match symmetric_exchange(alloc, exchanges[place].as_slice(), grounded, test)? {
            Some(exchange) => made.push(exchange)?,
            None => return Err(swap_line(place)),
        }
    }
    Ok(made)
}

/// The exchange of these pairs, if it is a symmetry of the task and maps numbered atoms to numbered atoms.
fn symmetric_exchange(
    alloc: Global,
    pairs: &[(ObjectId, ObjectId)],
    grounded: &Ground<'_>,
    test: &SymmetryTest<'_>,
) -> Result<Option<Exchange>, NoMemory>
    requires tested { task_tested test.now ≡ task_in grounded.now }
    requires said { IsTrue (is_said (task_in grounded.now) (pairs_in pairs.now)) }
    ensures { IfOk result (λ made. option_map exchange_of made ≡ (if is_symmetry_by (task_in grounded.now) (atoms_in grounded.now) (pairs_in pairs.now) then Some (pairs_in pairs.now) else None)) }
{
    let Some(exchange) = exchange_with(alloc, grounded.task(), pairs)? else {
        return Ok(None);
    };
    let symmetric = is_symmetry(alloc, &exchange, grounded, test)?;
    if symmetric {
        Ok(Some(exchange))
    } else {
        Ok(None)
    }
}

/// The exchange of these pairs, if they are of different objects of the task.
fn exchange_with(
    alloc: Global,
    task: &Task,
    pairs: &[(ObjectId, ObjectId)],
) -> Result<Option<Exchange>, NoMemory>
    ensures { IfOk result (λ made. option_map exchange_of made ≡ exchange_among (task_of task.now) (objects_in (pairs_in pairs.now))) }
{
    let mut objects = Vec::new(alloc);
    for &(first, second) in pairs {
        objects.push(first)?;
        objects.push(second)?;
    }
    Exchange::new(alloc, task, objects.as_slice())
}

/// Whether the exchange is a symmetry of the task and maps numbered atoms to numbered atoms.
fn is_symmetry(
    alloc: Global,
    exchange: &Exchange,
    grounded: &Ground<'_>,
    test: &SymmetryTest<'_>,
) -> Result<bool, NoMemory>
    requires tested { task_tested test.now ≡ task_in grounded.now }
    ensures { IfOk result (λ is. is ≡ is_symmetry_by (task_in grounded.now) (atoms_in grounded.now) (exchange_of exchange.now)) }
{
    if !test.is_symmetry(exchange) {
        return Ok(false);
    }
    let numbers = exchanged_numbers(alloc, grounded.atoms(), exchange)?;
    Ok(numbers.is_some())
}

/// Refuses the exchange at this place, from 0, by its line.
fn swap_line(place: usize) -> Refusal
    requires { place < 2 ^ 32 }
    ensures { result ≡ Refusal.Line NotSymmetry (exchange_line place) }
{
    Refusal::Line {
        code: RefusalCode::NotSymmetry,
        line: 4 + place as u64,
    }
}

/// The representatives by these exchanges, each of which maps numbered atoms to numbered atoms.
pub(super) fn representatives_by<'g, 't, 'e>(
    alloc: Global,
    grounded: &'g Ground<'t>,
    exchanges: &'e [Exchange],
) -> Result<Representatives<'g, 't, 'e>, NoMemory>
    requires { list_all (keeps_atoms (atoms_in grounded.now)) (map exchange_of exchanges.now) ≡ true }
    ensures { IfOk result (Represents (task_in grounded.now) (atoms_in grounded.now) (map exchange_of exchanges.now)) }
{
    match Representatives::new(alloc, grounded, exchanges)? {
        Some(representatives) => Ok(representatives),
        None => unreachable!(),
    }
}

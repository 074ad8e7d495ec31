//! The exchanges that the search for symmetries returns.
ghost use Rattle.std.specs.Prelude.{◌≤◌, IfOk, IsTrue, length, map};
ghost use Rattle.std.specs.List.{list_all};
ghost use Rattle.task.specs.Task.{task_of};
ghost use Rattle.symmetries.specs.Exchange.{exchange_of};
ghost use Rattle.symmetries.specs.SymmetryTest.{task_tested};
ghost use Rattle.symmetries_definitions.specs.Symmetries.{is_symmetry};
ghost use Rattle.symmetries_drafted.specs.Drafts.{AreTested};

use crate::finder::found_exchanges;
use faults::{DraftMemory, NoMemory};
use std::alloc::Global;
use symmetries::{Exchange, SymmetryTest};
use task::Task;

/// The maximum number of exchanges returned: as many as a certificate may have.
pub const MAX_EXCHANGES: usize = 1_048_576;

/// Exchanges of objects that are symmetries of the task: swaps of neighbours in each class of interchangeable objects of a type,
/// and swaps of objects together with the objects that belong to them. The result is deterministic.
///
/// # Errors
/// An allocation failed, which says nothing about the task.
pub fn drafted_exchanges(alloc: Global, task: &Task) -> Result<Vec<Exchange>, NoMemory>
    ensures symmetries { IfOk result (λ found. IsTrue (list_all (is_symmetry (task_of task.now)) (map exchange_of found.items))) }
    ensures few { IfOk result (λ found. length found.items ≤ MAX_EXCHANGES) }
{
    let test = SymmetryTest::new(alloc, task)?;
    let memory = DraftMemory::new(alloc);
    let drafts = found_exchanges(&memory, task, &test);
    let exchanges = tested(&memory, &test, drafts);
    memory.finish(exchanges)
}

/// The exchanges that pass the test, in order, up to the limit.
fn tested(memory: &DraftMemory, test: &SymmetryTest<'_>, drafts: Vec<Exchange>) -> Vec<Exchange>
    ensures { AreTested (task_tested test.now) result.items }
{
    let mut passed = memory.list();
    for exchange in drafts {
        add_tested(memory, test, exchange, &mut passed);
    }
    passed
}

/// Adds the exchange if it passes the test and the limit is not reached.
fn add_tested(
    memory: &DraftMemory,
    test: &SymmetryTest<'_>,
    exchange: Exchange,
    passed: &mut Vec<Exchange>,
)
    ensures { AreTested (task_tested test.now) passed.old.items → AreTested (task_tested test.now) passed.new.items }
{
    if passed.len() >= MAX_EXCHANGES {
        return;
    }
    if !test.is_symmetry(&exchange) {
        return;
    }
    memory.kept(passed.push(exchange));
}

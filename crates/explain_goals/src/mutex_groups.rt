//! The test of groups of which at most one atom is ever true.
//!
//! A potential function counts: it is 2 minus the number of the group's atoms that are true. If no instance may make it fall, and
//! the initial state has a value of at least 1, so has every state that a list of actions leads to.
ghost use Rattle.std.specs.Prelude.{◌≡◌, ◌<◌, IfOk, IfSome, OnOk, length, true};
ghost use Rattle.formulas.specs.State.{state_of};
ghost use Rattle.grounding.specs.Ground.{atoms_in, task_in};
ghost use Rattle.potentials.specs.Potentials.{potentials_of};
ghost use Rattle.explain_goals.specs.Exclusive.{IsMutexGroup};
ghost use Rattle.explain_goals.specs.MutexGroups.{AreCounted, IsAdded, IsCounter, StaysAboveZero};

use faults::NoMemory;
use formulas::State;
use grounding::Ground;
use potentials::{Fairness, Potentials};
use std::alloc::Global;

/// The atoms with these numbers, if the test shows that at most one of them is ever true.
pub(crate) fn mutex_group(
    alloc: Global,
    ground: &Ground<'_>,
    numbers: &[u32],
) -> Result<Option<State>, NoMemory>
    ensures { IfOk result (λ o. IfSome o (λ group. IsMutexGroup (task_in ground.now) (state_of group))) }
{
    let counter = counter_of(alloc, ground, numbers)?;
    if !stays_above_zero(alloc, ground, &counter)? {
        return Ok(None);
    }
    Ok(Some(counted_atoms(alloc, ground, &counter)?))
}

/// 2 minus the number of atoms with these numbers that are true.
fn counter_of(alloc: Global, ground: &Ground<'_>, numbers: &[u32]) -> Result<Potentials, NoMemory>
    ensures { IfOk result (λ p. IsCounter (length (atoms_in ground.now)) (potentials_of p)) }
{
    let mut counter = Potentials::zero(alloc, ground)?;
    counter.set_constant(2);
    'numbers: for number in numbers {
        count(*number, ground.width(), &mut counter);
    }
    Ok(counter)
}

/// Takes 1 away where the atom with this number is true, if it is below the width.
fn count(number: u32, width: u32, counter: &mut Potentials)
    requires { IsCounter width (potentials_of counter.old) }
    ensures { IsCounter width (potentials_of counter.new) }
{
    if number < width {
        counter.set_weight(number, -1);
    }
}

/// Whether the initial state has a value of at least 1, and no instance may make the value fall.
fn stays_above_zero(
    alloc: Global,
    ground: &Ground<'_>,
    counter: &Potentials,
) -> Result<bool, NoMemory>
    requires { length (potentials_of counter.now).weights ≡ length (atoms_in ground.now) }
    ensures { IfOk result (λ stays. stays ≡ true → StaysAboveZero (task_in ground.now) (atoms_in ground.now) (potentials_of counter.now)) }
{
    let initial = ground.initial(alloc)?;
    if counter.value(&initial) < 1 {
        return Ok(false);
    }
    match counter.dead_fair(alloc, ground)? {
        Fairness::Fair => Ok(true),
        Fairness::Instance(_) => Ok(false),
        Fairness::Goal => Ok(false),
    }
}

/// The atoms that are counted: those with the weight -1.
fn counted_atoms(
    alloc: Global,
    ground: &Ground<'_>,
    counter: &Potentials,
) -> Result<State, NoMemory>
    requires { length (potentials_of counter.now).weights ≡ length (atoms_in ground.now) }
    ensures { IfOk result (λ group. AreCounted (atoms_in ground.now) (potentials_of counter.now) (state_of group)) }
{
    let mut group = State::new(alloc);
    'numbers: for number in 0..ground.width() {
        if counter.weight(number) == -1 {
            add_atom(ground, number, &mut group)?;
        }
    }
    Ok(group)
}

/// Adds the atom with this number.
fn add_atom(ground: &Ground<'_>, number: u32, group: &mut State) -> Result<(), NoMemory>
    ensures { OnOk result (IsAdded (atoms_in ground.now) number (state_of group.old) (state_of group.new)) }
{
    match ground.atom(number) {
        Some(atom) => group.insert(atom.clone()?),
        None => Ok(()),
    }
}

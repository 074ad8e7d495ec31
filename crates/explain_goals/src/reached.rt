//! The atoms that may become true if deletes and negative literals are ignored.
ghost use Rattle.std.specs.Prelude.{◌≡◌, ◌<◌, IfOk, length, map, true};
ghost use Rattle.std.specs.List.{list_all};
ghost use Rattle.packed_state.specs.Packed.{bits_of};
ghost use Rattle.grounding.specs.Changes.{conditional_of};
ghost use Rattle.grounding.specs.Ground.{atoms_in, task_in};
ghost use Rattle.grounding.specs.Views.{numbered_of};
ghost use Rattle.model.specs.StaticallyFalse.{kept_instances};
ghost use Rattle.explain_goals.specs.Settled as defined;
ghost use Rattle.explain_goals.specs.Settled.{AreMade, AreSettledBelow, IsGrown, IsGrownTo, IsLeastSettled};

use faults::NoMemory;
use grounding::{CountingChange, Ground, NumberedLiteral, instance_count};
use packed_state::Packed;
use std::alloc::Global;

/// The least set of atoms, by number, that has the initial ones and to which no instance adds, if deletes and negative literals are
/// ignored.
pub(crate) fn reached(alloc: Global, ground: &Ground<'_>) -> Result<Packed, NoMemory>
    ensures { IfOk result (λ set. IsLeastSettled (task_in ground.now) (atoms_in ground.now) (bits_of set)) }
{
    let mut set = ground.initial(alloc)?;
    settle(ground, &mut set);
    Ok(set)
}

/// Adds what instances add, until they add no more.
fn settle(ground: &Ground<'_>, set: &mut Packed)
    requires { length (bits_of set.old) ≡ length (atoms_in ground.now) }
    ensures { IsGrownTo (AreSettledBelow (task_in ground.now) (atoms_in ground.now) (length (kept_instances (task_in ground.now)))) (bits_of set.old) (bits_of set.new) }
{
    'rounds: loop {
        if !add_all(ground, set) {
            return;
        }
    }
}

/// Adds what each instance adds, one after another; whether that was anything.
fn add_all(ground: &Ground<'_>, set: &mut Packed) -> bool
    requires { length (bits_of set.old) ≡ length (atoms_in ground.now) }
    ensures { IsGrown (AreSettledBelow (task_in ground.now) (atoms_in ground.now) (length (kept_instances (task_in ground.now)))) (bits_of set.old) (bits_of set.new) result }
{
    let mut grew = false;
    for number in 0..instance_count(ground) {
        let one = add_by(ground, number, set);
        grew = one | grew;
    }
    grew
}

/// Adds what the instance adds, if its precondition needs only atoms of the set; whether that was anything.
fn add_by(ground: &Ground<'_>, number: u32, set: &mut Packed) -> bool
    requires there { number < length (kept_instances (task_in ground.now)) }
    requires width { length (bits_of set.old) ≡ length (atoms_in ground.now) }
    ensures { IsGrown (λ some. defined.is_settled (task_in ground.now) (atoms_in ground.now) some number ≡ true) (bits_of set.old) (bits_of set.new) result }
{
    if !may_apply(ground, number, set) {
        return false;
    }
    add_changes(ground.counting(number), set)
}

/// Adds what these changes add; whether that was anything.
fn add_changes(changes: &[CountingChange<'_>], set: &mut Packed) -> bool
    ensures { IsGrown (AreMade (map conditional_of changes.now)) (bits_of set.old) (bits_of set.new) result }
{
    let mut grew = false;
    for change in changes {
        let one = add_change(change, set);
        grew = one | grew;
    }
    grew
}

/// Adds what the change adds, if its condition needs only atoms of the set; whether that was anything.
fn add_change(change: &CountingChange<'_>, set: &mut Packed) -> bool
    ensures { IsGrown (λ some. defined.is_made some (conditional_of change.now) ≡ true) (bits_of set.old) (bits_of set.new) result }
{
    if !may_add(change, set) {
        return false;
    }
    add(change.atom, set)
}

/// Adds the number, if it is below the width; whether it is new.
fn add(number: u32, set: &mut Packed) -> bool
    ensures { IsGrown (λ some. defined.is_there some number ≡ true) (bits_of set.old) (bits_of set.new) result }
{
    if number >= set.width() {
        return false;
    }
    if set.has(number) {
        return false;
    }
    set.insert(number);
    true
}

/// Whether the change adds its atom, and its condition needs only atoms of the set.
fn may_add(change: &CountingChange<'_>, set: &Packed) -> bool
    ensures { result ≡ defined.may_add (bits_of set.now) (conditional_of change.now) }
{
    change.value && !change.requires_unnumbered() && allows_all(set, change.condition())
}

/// Whether the precondition of the instance needs only atoms of the set.
fn may_apply(ground: &Ground<'_>, number: u32, set: &Packed) -> bool
    requires { number < length (kept_instances (task_in ground.now)) }
    ensures { result ≡ defined.may_apply (task_in ground.now) (atoms_in ground.now) (bits_of set.now) number }
{
    !ground.requires_unnumbered(number) && allows_all(set, ground.literals(number))
}

/// Whether the set has the atoms that the literals require.
fn allows_all(set: &Packed, literals: &[NumberedLiteral]) -> bool
    ensures { result ≡ defined.allows_all (bits_of set.now) (map numbered_of literals.now) }
{
    for literal in literals {
        if !allows(set, literal) {
            return false;
        }
    }
    true
}

/// Whether the set has the atom, if the literal requires it.
fn allows(set: &Packed, literal: &NumberedLiteral) -> bool
    ensures { result ≡ defined.allows (bits_of set.now) (numbered_of literal.now) }
{
    !literal.value || has(set, literal.atom)
}

/// Whether the set has the number.
pub(crate) fn has(set: &Packed, number: u32) -> bool
    ensures { result ≡ defined.has (bits_of set.now) number }
{
    number < set.width() && set.has(number)
}

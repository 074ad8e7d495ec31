//! Two atoms that a goal requires and that are never both true, such as one object in two places.
ghost use Rattle.std.specs.Prelude.{◌≡◌, IfOk, IfSome, map};
ghost use Rattle.task.specs.TaskParts.{atom_of};
ghost use Rattle.formulas.specs.Literals.{literal_of};
ghost use Rattle.formulas.specs.State.{state_of};
ghost use Rattle.grounding.specs.Ground.{task_in};
ghost use Rattle.explain_goals.specs.Exclusive.{AreTwoOf, IsOtherOf};
ghost use Rattle.explain_goals.specs.Notes.{IsExclusiveNote};

use crate::chains::alone;
use crate::mutex_groups::mutex_group;
use crate::reached::has;
use crate::relaxation::Relaxation;
use abstractions::found_groups;
use faults::{DraftMemory, NoMemory};
use formulas::{Atom, Literal, State};
use std::alloc::Global;

/// Two atoms that a goal requires and that are never both true.
#[derive(Drop)]
pub struct Exclusive {
    /// The one that the goal requires first.
    pub first: Atom,
    /// The other one.
    pub second: Atom,
    /// A group that both are in: at most one of its atoms is true in each state that a list of actions leads to.
    pub group: State,
}

impl Relaxation<'_, '_> {
    /// Two atoms that the literals require and that are in a group of which at most one atom is ever true; each alone may become
    /// true. `None` if none were found.
    pub(crate) fn exclusive_atoms(
        &self,
        alloc: Global,
        literals: &[Literal],
    ) -> Result<Option<Exclusive>, NoMemory>
        ensures { IfOk result (λ o. IfSome o (IsExclusiveNote (task_in self.now.ground.now) (map literal_of literals.now))) }
    {
        if self.ground.goal_literals().len() < 2 {
            return Ok(None);
        }
        let initial = self.ground.initial(alloc)?;
        let memory = DraftMemory::new(alloc);
        let groups = memory.finish(found_groups(&memory, self.ground, &initial))?;
        'groups: for numbers in &groups {
            if self.are_two_required(numbers) {
                if let Some(found) = self.exclusive_in(alloc, literals, numbers)? {
                    return Ok(Some(found));
                }
            }
        }
        Ok(None)
    }

    /// Whether the goal requires two of the atoms with these numbers, which are in ascending order, and each may become true.
    fn are_two_required(&self, numbers: &[u32]) -> bool {
        let mut count = 0u32;
        for literal in self.ground.goal_literals() {
            let may_be_true = literal.value && has(self.set, literal.atom);
            if may_be_true && numbers.binary_search(&literal.atom).is_ok() {
                count = count.saturating_add(1);
            }
        }
        count >= 2
    }

    /// Two atoms that the literals require, among those with these numbers, if the test shows that at most one of them is ever
    /// true.
    fn exclusive_in(
        &self,
        alloc: Global,
        literals: &[Literal],
        numbers: &[u32],
    ) -> Result<Option<Exclusive>, NoMemory>
        ensures { IfOk result (λ o. IfSome o (IsExclusiveNote (task_in self.now.ground.now) (map literal_of literals.now))) }
    {
        match mutex_group(alloc, self.ground, numbers)? {
            Some(group) => self.two_of(alloc, literals, group),
            None => Ok(None),
        }
    }

    /// Two different atoms of the group that the literals require, and of which each may become true.
    fn two_of(
        &self,
        alloc: Global,
        literals: &[Literal],
        group: State,
    ) -> Result<Option<Exclusive>, NoMemory>
        ensures two { IfOk result (λ o. IfSome o (λ e. AreTwoOf (map literal_of literals.now) (state_of group) (atom_of e.first) (atom_of e.second))) }
        ensures group { IfOk result (λ o. IfSome o (λ e. state_of e.group ≡ state_of group)) }
    {
        let Some(first) = self.first_other(literals, &group, &State::new(alloc)) else {
            return Ok(None);
        };
        let Some(second) = self.first_other(literals, &group, &alone(alloc, first)?) else {
            return Ok(None);
        };
        Ok(Some(exclusive_of(first, second, group)?))
    }

    /// The first atom that the literals require and that may become true, among the atoms of the group that are not excluded.
    fn first_other<'l>(
        &self,
        literals: &'l [Literal],
        group: &State,
        excluded: &State,
    ) -> Option<&'l Atom>
        ensures { IfSome result (λ a. IsOtherOf (map literal_of literals.now) (state_of group.now) (state_of excluded.now) (atom_of a.now)) }
    {
        for literal in literals {
            if let Literal::IsTrue(atom) = literal {
                if group.contains(atom) && !excluded.contains(atom) && self.has_number(atom) {
                    return Some(atom);
                }
            }
        }
        None
    }
}

/// These atoms with their group.
fn exclusive_of(first: &Atom, second: &Atom, group: State) -> Result<Exclusive, NoMemory>
    ensures first { IfOk result (λ e. atom_of e.first ≡ atom_of first.now) }
    ensures second { IfOk result (λ e. atom_of e.second ≡ atom_of second.now) }
    ensures group { IfOk result (λ e. state_of e.group ≡ state_of group) }
{
    Ok(Exclusive {
        first: first.clone()?,
        second: second.clone()?,
        group,
    })
}

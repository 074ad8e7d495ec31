//! What atoms need that may not become true.
ghost use Rattle.std.specs.Prelude.{◌≡◌, ◌<◌, [], IfOk, IfSome, IsTrue, length, map};
ghost use Rattle.std.specs.FinSet.{insert};
ghost use Rattle.std.specs.List.{list_any};
ghost use Rattle.task.specs.TaskParts.{atom_of};
ghost use Rattle.formulas.specs.Literals.{literal_of};
ghost use Rattle.formulas.specs.State.{instance_of, state_of};
ghost use Rattle.grounding.specs.Changes.{conditional_of};
ghost use Rattle.grounding.specs.Ground.{atoms_in, task_in};
ghost use Rattle.model.specs.Meaning.{initial_state, is_instance};
ghost use Rattle.model.specs.NumberedAtoms.{numbered_atoms};
ghost use Rattle.model.specs.StaticallyFalse.{kept_instances};
ghost use Rattle.explain_goals.specs.Chains.{NeedOneOf};
ghost use Rattle.explain_goals.specs.Needed as defined;
ghost use Rattle.explain_goals.specs.Needed.{AreOut, IsNeed, IsNeedAdded, IsAnswered, WhenAdded};
ghost use Rattle.explain_goals.specs.Relaxation.{sure_of_instance};

use crate::relaxation::Relaxation;
use faults::NoMemory;
use formulas::{Atom, Instance, Literal, State, sure};
use grounding::{CountingChange, instance_count};
use std::alloc::Global;

/// The maximum number of atoms in a link of a chain.
const MOST_NEEDED: usize = 1000;

/// What was found of the needs of an instance.
#[derive(Clone, Copy, Debug, PartialEq, Eq)]
pub(crate) enum Needs {
    /// An atom was added that each change in question needs, or there is no such change.
    Added,
    /// No such atom was found, or there are too many.
    Unreported,
}

impl Relaxation<'_, '_> {
    /// Atoms that may not become true, such that each change that adds one of `added` needs one of them; `None` if they are not
    /// reported.
    pub(crate) fn needs(&self, alloc: Global, added: &State) -> Result<Option<State>, NoMemory>
        requires initial { state_of self.now.initial.now ≡ initial_state (task_in self.now.ground.now) }
        requires numbered { atoms_in self.now.ground.now ≡ numbered_atoms (task_in self.now.ground.now) [] }
        ensures needed { IfOk result (λ o. IfSome o (λ needed. NeedOneOf (task_in self.now.ground.now) (state_of added.now) (state_of needed))) }
        ensures out { IfOk result (λ o. IfSome o (λ needed. AreOut self.now (state_of needed))) }
    {
        let mut needed = State::new(alloc);
        for number in 0..instance_count(self.ground) {
            match self.add_needs(alloc, number, added, &mut needed)? {
                Needs::Added => {}
                Needs::Unreported => return Ok(None),
            }
        }
        Ok(Some(needed))
    }

    /// Adds an atom that the instance needs and that may not become true, if the instance adds one of `added`.
    fn add_needs(
        &self,
        alloc: Global,
        number: u32,
        added: &State,
        needed: &mut State,
    ) -> Result<Needs, NoMemory>
        requires initial { state_of self.now.initial.now ≡ initial_state (task_in self.now.ground.now) }
        requires numbered { atoms_in self.now.ground.now ≡ numbered_atoms (task_in self.now.ground.now) [] }
        requires there { number < length (kept_instances (task_in self.now.ground.now)) }
        ensures { IfOk result (λ n. WhenAdded n (IsAnswered self.now (state_of added.now) number (state_of needed.old) (state_of needed.new))) }
    {
        if !self.adds_one(self.ground.counting(number), added) {
            return Ok(Needs::Added);
        }
        match self.ground.instance(number) {
            Some(instance) => self.add_need_of(alloc, instance, needed),
            None => Ok(Needs::Unreported),
        }
    }

    /// Whether one of the changes adds one of these atoms.
    fn adds_one(&self, changes: &[CountingChange<'_>], added: &State) -> bool
        ensures { result ≡ list_any (defined.is_adding (atoms_in self.now.ground.now) (state_of added.now)) (map conditional_of changes.now) }
    {
        for change in changes {
            if self.is_adding(change, added) {
                return true;
            }
        }
        false
    }

    /// Whether the change adds one of these atoms.
    fn is_adding(&self, change: &CountingChange<'_>, added: &State) -> bool
        ensures { result ≡ defined.is_adding (atoms_in self.now.ground.now) (state_of added.now) (conditional_of change.now) }
    {
        change.value && self.is_named(change.atom, added)
    }

    /// Whether the atom with this number is among these.
    fn is_named(&self, number: u32, atoms: &State) -> bool
        ensures { result ≡ defined.is_named (atoms_in self.now.ground.now) (state_of atoms.now) number }
    {
        match self.ground.atom(number) {
            Some(atom) => atoms.contains(atom),
            None => false,
        }
    }

    /// Adds the first atom that the precondition of the instance requires and that may not become true.
    fn add_need_of(
        &self,
        alloc: Global,
        instance: &Instance,
        needed: &mut State,
    ) -> Result<Needs, NoMemory>
        requires initial { state_of self.now.initial.now ≡ initial_state (task_in self.now.ground.now) }
        requires instance { IsTrue (is_instance (task_in self.now.ground.now) (instance_of instance.now)) }
        ensures { IfOk result (λ n. WhenAdded n (IsNeedAdded self.now (sure_of_instance (task_in self.now.ground.now) (instance_of instance.now)) (state_of needed.old) (state_of needed.new))) }
    {
        let literals = self.precondition(alloc, instance)?;
        self.add_first(&literals, needed)
    }

    /// The sure literals of the instance's precondition.
    fn precondition(&self, alloc: Global, instance: &Instance) -> Result<Vec<Literal>, NoMemory>
        requires { IsTrue (is_instance (task_in self.now.ground.now) (instance_of instance.now)) }
        ensures { IfOk result (λ found. map literal_of found.items ≡ sure_of_instance (task_in self.now.ground.now) (instance_of instance.now)) }
    {
        let task = self.ground.task();
        match task.schema(instance.schema) {
            Some(schema) => sure(alloc, task, &schema.precondition, &instance.objects),
            None => Ok(Vec::new(alloc)),
        }
    }

    /// Adds the first atom that the literals require and that may not become true.
    fn add_first(&self, literals: &[Literal], needed: &mut State) -> Result<Needs, NoMemory>
        requires { state_of self.now.initial.now ≡ initial_state (task_in self.now.ground.now) }
        ensures { IfOk result (λ n. WhenAdded n (IsNeedAdded self.now (map literal_of literals.now) (state_of needed.old) (state_of needed.new))) }
    {
        match self.first_out(literals) {
            Some(atom) => add_need(atom, needed),
            None => Ok(Needs::Unreported),
        }
    }

    /// The first atom that the literals require and that may not become true.
    fn first_out<'l>(&self, literals: &'l [Literal]) -> Option<&'l Atom>
        requires { state_of self.now.initial.now ≡ initial_state (task_in self.now.ground.now) }
        ensures { IfSome result (λ a. IsNeed self.now (map literal_of literals.now) (atom_of a.now)) }
    {
        for literal in literals {
            if let Literal::IsTrue(atom) = literal {
                if !self.has(atom) {
                    return Some(atom);
                }
            }
        }
        None
    }
}

/// Adds the atom, if there is room.
fn add_need(atom: &Atom, needed: &mut State) -> Result<Needs, NoMemory>
    ensures { IfOk result (λ n. WhenAdded n (state_of needed.new ≡ insert (state_of needed.old) (atom_of atom.now))) }
{
    if needed.atoms().len() >= MOST_NEEDED {
        return Ok(Needs::Unreported);
    }
    needed.insert(atom.clone()?)?;
    Ok(Needs::Added)
}

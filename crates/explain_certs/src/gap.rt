//! The step by which the listing of a certificate is not closed.
ghost use Rattle.std.specs.Prelude.{map, IsTrue};
ghost use Rattle.std.specs.List.{list_all};
ghost use Rattle.task.specs.Task.{task_of};
ghost use Rattle.formulas.specs.State.{instance_of};
ghost use Rattle.model.specs.Meaning.{is_instance};

use crate::named_atom::atoms_of;
use crate::numbers::{Listed, cost_listed, number_in};
use crate::words::CheckedCert;
use faults::NoMemory;
use formulas::{FluentPredicates, Instance, State, apply, cost};
use grounding_instances::{GroundFault, Numbering};
use indexmap::IndexSet;
use plan_file::step_text;
use std::alloc::Global;
use task::Atom;

/// A step from a listed state to one that is not listed, or is listed at too high a cost.
#[derive(Drop)]
pub(crate) struct Gap {
    /// The step, as in a plan: `(hop a b)`.
    pub step: String,
    /// What it costs.
    pub cost: u32,
    /// The cost at which the state after it is listed; `None` if it is not listed.
    pub listed: Option<u64>,
}

/// The first such step from this state, in the order of the task's actions. `None` if there is none, or if the certificate has
/// exchanges of objects: a state then stands for others too.
///
/// # Errors
/// An allocation failed.
pub(crate) fn gap_at(
    alloc: Global,
    cert: CheckedCert<'_>,
    at: Listed<'_>,
) -> Result<Option<Gap>, NoMemory> {
    let Some(atoms) = atoms_of(alloc, cert.task, cert.text)? else {
        return Ok(None);
    };
    let fluents = FluentPredicates::new(alloc, cert.task)?;
    let listing = Listing {
        alloc,
        cert,
        atoms,
        fluents,
    };
    listing.gap_from(at)
}

/// The listed states of a certificate without exchanges.
struct Listing<'a> {
    alloc: Global,
    cert: CheckedCert<'a>,
    /// The atoms of the certificate, each at the index of its number.
    atoms: IndexSet<Atom>,
    /// The fluent predicates of the task.
    fluents: FluentPredicates,
}

impl Drop for Listing<'_> {
    fn drop(self) {
        let Self {
            alloc: _,
            cert: _,
            atoms: _,
            fluents: _,
        } = self;
    }
}

impl Listing<'_> {
    /// The first step from this state to one that is not listed, or is listed at too high a cost.
    fn gap_from(&self, at: Listed<'_>) -> Result<Option<Gap>, NoMemory> {
        let Some(state) = self.state_of(at.numbers)? else {
            return Ok(None);
        };
        match Numbering::new(self.alloc, self.cert.task, &[], self.cert.max_instances) {
            Ok(numbering) => self.first_gap(at.paid, &state, numbering.instances()),
            Err(GroundFault::At(_)) => Ok(None),
            Err(GroundFault::NoMemory) => Err(NoMemory),
        }
    }

    /// The same among these instances, from a state that is listed at this cost.
    fn first_gap(
        &self,
        paid: u64,
        state: &State,
        instances: &[Instance],
    ) -> Result<Option<Gap>, NoMemory>
        requires { IsTrue (list_all (is_instance (task_of self.now.cert.task.now)) (map instance_of instances.now)) }
    {
        for step in instances {
            let gap = self.gap_by(paid, state, step)?;
            if gap.is_some() {
                return Ok(gap);
            }
        }
        Ok(None)
    }

    /// The instance as such a step, if it is one.
    fn gap_by(&self, paid: u64, state: &State, step: &Instance) -> Result<Option<Gap>, NoMemory>
        requires { IsTrue (is_instance (task_of self.now.cert.task.now) (instance_of step.now)) }
    {
        let Some(next) = apply(self.alloc, self.cert.task, step, state)? else {
            return Ok(None);
        };
        let cost = cost(self.cert.task, step);
        let listed = self.cost_of(&next)?;
        let most = paid.saturating_add(u64::from(cost));
        if listed.is_some_and(|least| least <= most) {
            return Ok(None);
        }
        let step = step_text(self.alloc, self.cert.task, step)?;
        Ok(Some(Gap { step, cost, listed }))
    }

    /// The cost at which the state is listed; `None` if it is not listed.
    fn cost_of(&self, state: &State) -> Result<Option<u64>, NoMemory> {
        match self.numbers_of(state)? {
            Some(numbers) => Ok(cost_listed(self.cert.text, numbers.as_bytes())),
            None => Ok(None),
        }
    }

    /// The numbers of the state's fluent atoms, as a line has them; `None` if one of them has no number.
    fn numbers_of(&self, state: &State) -> Result<Option<String>, NoMemory> {
        let mut numbers = Vec::new(self.alloc);
        for atom in state.atoms() {
            match self.atoms.get_index_of(atom) {
                Some(number) => numbers.push(number)?,
                None if self.fluents.contains(atom.predicate) => return Ok(None),
                None => {}
            }
        }
        numbers.sort_unstable();
        Ok(Some(joined(self.alloc, numbers.as_slice())?))
    }

    /// The state whose fluent atoms have these numbers; `None` if there is no atom with one of them.
    fn state_of(&self, numbers: &[u8]) -> Result<Option<State>, NoMemory> {
        let mut state = self.static_atoms()?;
        if numbers.is_empty() {
            return Ok(Some(state));
        }
        for word in numbers.split(|byte| *byte == b' ') {
            let Some(number) = number_in(word) else {
                return Ok(None);
            };
            let Some(atom) = self.atoms.get_index(number as usize) else {
                return Ok(None);
            };
            state.insert(atom.clone()?)?;
        }
        Ok(Some(state))
    }

    /// The initial atoms that no action changes.
    fn static_atoms(&self) -> Result<State, NoMemory> {
        let mut state = State::new(self.alloc);
        for atom in self.cert.task.init() {
            if !self.fluents.contains(atom.predicate) {
                state.insert(atom.clone()?)?;
            }
        }
        Ok(state)
    }
}

/// These numbers, with a blank between two of them.
fn joined(alloc: Global, numbers: &[usize]) -> Result<String, NoMemory> {
    let mut text = String::new(alloc);
    for number in numbers {
        if !text.is_empty() {
            text.push_str(" ")?;
        }
        write!(text, "{number}")?;
    }
    Ok(text)
}

//! The effects of all instances on each variable.
use crate::lists::{append, empty_lists};
use crate::numbers::{number_of, place_of};
use crate::transitions::{InstancePart, Transition, source_count, transitions_from};
use crate::variables::Variables;
use faults::DraftMemory;
use grounding::{CountingChange, Ground, NumberedLiteral, instance_count};

/// The maximum number of transitions kept in total.
const MAX_MOVES: usize = 4_000_000;

/// An instance, and the variable's step that it takes.
#[derive(Clone, Copy, PartialEq, Eq, PartialOrd, Ord)]
pub(crate) struct StepUse {
    pub(crate) instance: u32,
    pub(crate) step: u32,
}

/// The effects of instances on one variable: its steps, each a list of transitions, and the instances that take them.
#[derive(Drop)]
pub(crate) struct VariableSteps {
    steps: Vec<Vec<Transition>>,
    /// In ascending order of instances.
    uses: Vec<StepUse>,
}

/// The effects of all instances on each variable.
#[derive(Drop)]
pub struct Steps {
    variables: Vec<VariableSteps>,
}

/// The instances that are shut out: they are applicable in no reachable state.
#[derive(Drop)]
pub struct Shutters {
    is_shut_out: Vec<bool>,
}

/// For each variable, the effects of instances on it, still in the order of instances.
#[derive(Drop)]
struct Drafts<'a> {
    memory: &'a DraftMemory,
    variables: &'a Variables,
    transitions: Vec<Vec<(Vec<Transition>, u32)>>,
    count: usize,
}

impl Steps {
    /// The steps of the ground task's instances; `None` if there would be too many transitions, or if memory was refused.
    pub fn new(memory: &DraftMemory, ground: &Ground<'_>, variables: &Variables) -> Option<Steps> {
        let mut drafts = Drafts {
            memory,
            variables,
            transitions: empty_lists(memory, variables.count()),
            count: 0,
        };
        for number in 0..instance_count(ground) {
            drafts.add(number, ground.literals(number), ground.counting(number));
            if drafts.count > MAX_MOVES || memory.is_refused() {
                return None;
            }
        }
        Some(drafts.finish())
    }

    /// The effects of instances on the variable with this number.
    pub(crate) fn of(&self, variable: u32) -> Option<&VariableSteps> {
        self.variables.get(place_of(variable))
    }
}

impl Drafts<'_> {
    /// Adds the effect of the instance with these literals and changes on each variable of their atoms.
    fn add(&mut self, number: u32, literals: &[NumberedLiteral], changes: &[CountingChange<'_>]) {
        let memory = self.memory;
        let variables = self.variables;
        let mut mentioned = variables.of_literals(memory, literals);
        append(
            memory,
            &mut mentioned,
            &variables.of_changes(memory, changes),
        );
        mentioned.sort_unstable();
        mentioned.dedup();
        for variable in mentioned {
            let part = InstancePart {
                memory,
                variables,
                variable,
                literals,
                changes,
            };
            let transitions = part.transitions();
            self.count = self.count.saturating_add(transitions.len());
            if let Some(all) = self.transitions.get_mut(place_of(variable)) {
                memory.push(all, (transitions, number));
            }
        }
    }

    /// The steps of each variable.
    fn finish(self) -> Steps {
        let Drafts {
            memory,
            transitions,
            ..
        } = self;
        let mut variables = memory.list();
        for of_variable in transitions {
            memory.push(&mut variables, VariableSteps::new(memory, of_variable));
        }
        Steps { variables }
    }
}

impl VariableSteps {
    /// The steps for these lists of transitions, each distinct list once, and the instances that take them.
    fn new(memory: &DraftMemory, mut drafts: Vec<(Vec<Transition>, u32)>) -> VariableSteps {
        drafts.sort_unstable();
        let mut of_variable = VariableSteps {
            steps: memory.list(),
            uses: memory.list(),
        };
        for (transitions, instance) in drafts {
            of_variable.take(memory, transitions, instance);
        }
        of_variable.uses.sort_unstable();
        of_variable
    }

    /// Records that the instance takes these transitions, which are those of the last step or come after them.
    fn take(&mut self, memory: &DraftMemory, transitions: Vec<Transition>, instance: u32) {
        if self.steps.last() != Some(&transitions) {
            memory.push(&mut self.steps, transitions);
        }
        let step = number_of(self.steps.len()).saturating_sub(1);
        memory.push(&mut self.uses, StepUse { instance, step });
    }

    /// The instances that mention the variable, in ascending order, each with its step.
    pub(crate) fn uses(&self) -> &[StepUse] {
        &self.uses
    }

    /// The number of steps.
    pub(crate) fn step_count(&self) -> usize {
        self.steps.len()
    }

    /// The transitions of this step.
    fn transitions(&self, step: u32) -> &[Transition] {
        match self.steps.get(place_of(step)) {
            Some(transitions) => transitions,
            None => &[],
        }
    }

    /// The transitions of this step from the value.
    pub(crate) fn transitions_from(&self, step: u32, value: u32) -> &[Transition] {
        transitions_from(self.transitions(step), value)
    }

    /// The number of values from which this step has transitions.
    pub(crate) fn source_count(&self, step: u32) -> u32 {
        source_count(self.transitions(step))
    }

    /// All transitions of this step, in ascending order of source values.
    pub(crate) fn all_transitions(&self, step: u32) -> &[Transition] {
        self.transitions(step)
    }
}

impl Shutters {
    /// The instances of the ground task that require an atom without a number.
    pub fn new(memory: &DraftMemory, ground: &Ground<'_>) -> Shutters {
        let mut is_shut_out = memory.list();
        for number in 0..instance_count(ground) {
            memory.push(&mut is_shut_out, ground.requires_unnumbered(number));
        }
        Shutters { is_shut_out }
    }

    /// Whether the instance is shut out.
    pub fn is_shut_out(&self, instance: u32) -> bool {
        match self.is_shut_out.get(place_of(instance)) {
            Some(is_shut_out) => *is_shut_out,
            None => false,
        }
    }

    /// Shuts out these instances too.
    pub fn shut_out(&mut self, instances: &[u32]) {
        for instance in instances {
            if let Some(is_shut_out) = self.is_shut_out.get_mut(place_of(*instance)) {
                *is_shut_out = true;
            }
        }
    }
}

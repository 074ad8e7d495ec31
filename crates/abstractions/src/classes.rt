//! Classes of instances with the same behaviour in a table.
use crate::by_counting::places_in_order;
use crate::lists::with_room;
use crate::numbers::{number_of, place_of};
use crate::reached::MAX_TABLE_VARIABLES;
use crate::steps::{Shutters, StepUse, Steps};
use faults::DraftMemory;

/// The step of an instance for each variable of a table; none if it does not mention the variable.
#[derive(Clone, Copy, PartialEq, Eq)]
pub(crate) struct TableSteps {
    pub(crate) steps: [Option<u32>; MAX_TABLE_VARIABLES],
}

/// The instances of all classes, class by class.
#[derive(Drop)]
pub(crate) struct Classes {
    pub(crate) steps: Vec<TableSteps>,
    /// The end of each class among the instances.
    pub(crate) ends: Vec<u32>,
    pub(crate) instances: Vec<u32>,
}

impl TableSteps {
    /// The steps of an instance that mentions no variable.
    const NONE: TableSteps = TableSteps {
        steps: [None; MAX_TABLE_VARIABLES],
    };

    /// The same steps with this one at this position.
    fn with(mut self, place: usize, step: u32) -> TableSteps {
        if let Some(of_variable) = self.steps.get_mut(place) {
            *of_variable = Some(step);
        }
        self
    }

    /// The step at this position.
    pub(crate) fn at(&self, place: usize) -> Option<u32> {
        match self.steps.get(place) {
            Some(step) => *step,
            None => None,
        }
    }
}

impl Classes {
    /// The classes of the instances that mention one of these variables and are not shut out.
    pub(crate) fn new(
        memory: &DraftMemory,
        steps: &Steps,
        variables: &[u32],
        shutters: &Shutters,
    ) -> Classes {
        let entries = entries(memory, steps, variables, shutters);
        let mut classes = Classes {
            steps: memory.list(),
            ends: memory.list(),
            instances: with_room(memory, entries.len()),
        };
        for entry in &entries {
            classes.add(memory, entry.steps, entry.instance);
        }
        classes
    }

    /// Adds the instance to the last class if that has these steps, otherwise to a new class.
    fn add(&mut self, memory: &DraftMemory, steps: TableSteps, instance: u32) {
        memory.push(&mut self.instances, instance);
        let end = number_of(self.instances.len());
        if self.steps.last() != Some(&steps) {
            memory.push(&mut self.steps, steps);
            memory.push(&mut self.ends, end);
        }
        if let Some(last) = self.ends.last_mut() {
            *last = end;
        }
    }
}

/// An instance, with its step for each variable of a table.
#[derive(Clone, Copy)]
struct Entry {
    instance: u32,
    steps: TableSteps,
}

/// The remaining uses of a variable's steps, in ascending order of instances.
#[derive(Clone, Copy)]
struct Left<'a> {
    uses: &'a [StepUse],
}

impl Left<'_> {
    /// The next instance.
    fn instance(&self) -> Option<u32> {
        match self.uses.first() {
            Some(next) => Some(next.instance),
            None => None,
        }
    }

    /// The step of this instance, if it is the next one, which is then consumed.
    fn take(&mut self, instance: u32) -> Option<u32> {
        let (next, rest) = self.uses.split_first()?;
        if next.instance != instance {
            return None;
        }
        self.uses = rest;
        Some(next.step)
    }
}

/// The instances that mention one of these variables and are not shut out, each with its steps, sorted so that equal steps are
/// adjacent and instances ascend within a class.
fn entries(
    memory: &DraftMemory,
    steps: &Steps,
    variables: &[u32],
    shutters: &Shutters,
) -> Vec<Entry> {
    let mut left = memory.list();
    let mut counts = memory.list();
    let mut most = 0usize;
    for variable in variables {
        if let Some(of_variable) = steps.of(*variable) {
            let uses = of_variable.uses();
            most = most.saturating_add(uses.len());
            memory.push(&mut left, Left { uses });
            memory.push(&mut counts, of_variable.step_count());
        }
    }
    let mut entries = joined(memory, &mut left, most, shutters);
    for (place, count) in counts.iter().enumerate() {
        entries = by_step(memory, &entries, place, *count);
    }
    entries
}

/// The entries of all instances with remaining uses that are not shut out, up to a limit, in ascending order.
fn joined(
    memory: &DraftMemory,
    left: &mut [Left<'_>],
    most: usize,
    shutters: &Shutters,
) -> Vec<Entry> {
    let mut entries: Vec<Entry> = memory.list();
    for _ in 0..most {
        let Some(instance) = least(left) else {
            break;
        };
        let mut steps = TableSteps::NONE;
        for (place, uses) in left.iter_mut().enumerate() {
            if let Some(step) = uses.take(instance) {
                steps = steps.with(place, step);
            }
        }
        if !shutters.is_shut_out(instance) {
            memory.push(&mut entries, Entry { instance, steps });
        }
    }
    entries
}

/// The least of the next instances.
fn least(left: &[Left<'_>]) -> Option<u32> {
    let mut least: Option<u32> = None;
    for uses in left {
        if let Some(instance) = uses.instance() {
            least = match least {
                Some(other) => Some(other.min(instance)),
                None => Some(instance),
            };
        }
    }
    least
}

/// Sorts the entries stably by the step at this position, entries without one first. There are `count` steps.
fn by_step(memory: &DraftMemory, entries: &[Entry], place: usize, step_count: usize) -> Vec<Entry> {
    let mut numbers: Vec<u32> = with_room(memory, entries.len());
    for entry in entries {
        memory.push(
            &mut numbers,
            match entry.steps.at(place) {
                Some(step) => step.saturating_add(1),
                None => 0,
            },
        );
    }
    let mut sorted = with_room(memory, entries.len());
    for at in &places_in_order(memory, &numbers, step_count.saturating_add(1)) {
        if let Some(entry) = entries.get(place_of(*at)) {
            memory.push(&mut sorted, *entry);
        }
    }
    sorted
}

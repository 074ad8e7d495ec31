//! Which variables are related, that is, likely to be useful in the same table.
use abstractions::{Variables, place_of};
use faults::DraftMemory;
use grounding::{Ground, instance_count};

/// An instance that changes more variables than this does not relate them.
const MAX_CHANGED: usize = 40;

/// For each variable, those required by instances that change it, and those changed with it.
#[derive(Drop)]
pub(crate) struct Links {
    required: Vec<Vec<u32>>,
    changed: Vec<Vec<u32>>,
}

impl Links {
    /// The links from the ground task's instances.
    pub(crate) fn new(memory: &DraftMemory, ground: &Ground<'_>, variables: &Variables) -> Links {
        let mut links = Links {
            required: empty_lists(memory, variables.count()),
            changed: empty_lists(memory, variables.count()),
        };
        for number in 0..instance_count(ground) {
            if memory.is_refused() {
                break;
            }
            let required = variables.of_literals(memory, ground.literals(number));
            let changed = variables.of_changes(memory, ground.counting(number));
            if changed.len() <= MAX_CHANGED {
                links.add(memory, &required, &changed);
            }
        }
        links
    }

    /// Links each changed variable with the required ones and with the other changed ones.
    fn add(&mut self, memory: &DraftMemory, required: &[u32], changed: &[u32]) {
        for variable in changed {
            if let Some(links) = self.required.get_mut(place_of(*variable)) {
                join(memory, links, required, *variable);
            }
            if let Some(links) = self.changed.get_mut(place_of(*variable)) {
                join(memory, links, changed, *variable);
            }
        }
    }

    /// The variables required by instances that change this one.
    pub(crate) fn required(&self, variable: u32) -> &[u32] {
        list_at(&self.required, variable)
    }

    /// The variables changed together with this one.
    pub(crate) fn changed(&self, variable: u32) -> &[u32] {
        list_at(&self.changed, variable)
    }
}

/// This many empty lists.
fn empty_lists(memory: &DraftMemory, count: u32) -> Vec<Vec<u32>> {
    let mut lists = memory.list();
    for _ in 0..count {
        memory.push(&mut lists, memory.list());
    }
    lists
}

/// The list at this index.
fn list_at(lists: &[Vec<u32>], place: u32) -> &[u32] {
    match lists.get(place_of(place)) {
        Some(list) => list,
        None => &[],
    }
}

/// Merges into the sorted list the elements of `more` that are new and are not `but`.
fn join(memory: &DraftMemory, links: &mut Vec<u32>, more: &[u32], but: u32) {
    for variable in more {
        if *variable != but {
            if let Err(place) = links.binary_search(variable) {
                if place <= links.len() {
                    memory.kept(links.insert(place, *variable));
                }
            }
        }
    }
}

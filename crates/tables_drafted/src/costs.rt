//! Remaining costs of instances.
use abstractions::{InstanceClass, RowGraph, place_of};
use faults::DraftMemory;

/// The remaining cost of each instance; `None` if the instance is shut out and its cost does not matter.
#[derive(Drop)]
pub(crate) struct Costs {
    left: Vec<Option<i64>>,
}

impl Costs {
    /// These costs.
    pub(crate) fn new(left: Vec<Option<i64>>) -> Costs {
        Costs { left }
    }

    /// A copy.
    pub(crate) fn copied(&self, memory: &DraftMemory) -> Costs {
        Costs {
            left: memory.copied(&self.left),
        }
    }

    /// The remaining costs, in the order of instances.
    pub(crate) fn left(&self) -> &[Option<i64>] {
        &self.left
    }

    /// The remaining cost of the instance, at least 0; `None` if the instance is shut out.
    pub(crate) fn of(&self, instance: u32) -> Option<i64> {
        match self.left.get(place_of(instance)) {
            Some(Some(left)) => Some((*left).max(0)),
            Some(None) => None,
            None => None,
        }
    }

    /// The least remaining cost of the class's instances; `None` if all are shut out.
    pub(crate) fn of_class(&self, abstraction: &RowGraph, class: &InstanceClass) -> Option<i64> {
        let mut least: Option<i64> = None;
        for instance in abstraction.instances_of(class) {
            if let Some(left) = self.of(*instance) {
                least = match least {
                    Some(before) => Some(before.min(left)),
                    None => Some(left),
                };
            }
        }
        least
    }

    /// Shuts out these instances: their costs no longer matter.
    pub(crate) fn shut_out(&mut self, instances: &[u32]) {
        for instance in instances {
            if let Some(left) = self.left.get_mut(place_of(*instance)) {
                *left = None;
            }
        }
    }

    /// Subtracts this from the cost of the instance.
    pub(crate) fn take(&mut self, instance: u32, cost: i64) {
        if let Some(Some(left)) = self.left.get_mut(place_of(instance)) {
            *left = left.saturating_sub(cost);
        }
    }
}

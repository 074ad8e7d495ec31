//! The classes of interchangeable objects.
//!
//! Each object, in order, is tested against the last object of each class with its key. The number of tests is therefore about
//! the number of objects times that of classes, and the exchanges swap neighbours in a class.
use crate::colours::{colours_of, keys_of, object_at};
use crate::facts::Facts;
use crate::partners::Partners;
use faults::DraftMemory;
use indexmap::{IndexMap, IndexSet};
use symmetries::{Exchange, SymmetryTest};
use task::{ObjectId, Task};

/// The maximum number of classes that an object is tested against: the most recently begun ones with its key.
const MAX_CLASSES: usize = 16;

/// Classes searched for a known pair.
const MAX_KNOWN: usize = 256;

/// The last object of each class so far, by key.
type Classes = IndexMap<u64, Vec<ObjectId>>;

/// The state of the search for exchanges.
#[derive(Drop)]
struct Finder<'f, 'x, 't> {
    memory: &'x DraftMemory,
    task: &'x Task,
    test: &'x SymmetryTest<'t>,
    partners: Partners<'f>,
    /// The pairs that some exchange found so far swaps.
    alike: IndexSet<(ObjectId, ObjectId)>,
    found: Vec<Exchange>,
}

/// The kind of exchange that is tried for two objects.
#[derive(Clone, Copy)]
enum Trial {
    /// Just the two objects are swapped.
    Alone,
    /// The two objects are swapped together with their partners.
    WithPartners,
}

/// Exchanges that are symmetries of the task; `test` is for this task.
pub(crate) fn found_exchanges<'x>(
    memory: &'x DraftMemory,
    task: &'x Task,
    test: &'x SymmetryTest<'_>,
) -> Vec<Exchange> {
    let facts = Facts::new(memory, task);
    let colours = colours_of(memory, task, &facts);
    let keys = keys_of(memory, &facts, &colours);
    let mut finder = Finder {
        memory,
        task,
        test,
        partners: Partners::new(memory, &facts, &colours),
        alike: IndexSet::new(memory.alloc()),
        found: memory.list(),
    };
    finder.file_all(&keys, Trial::Alone);
    finder.file_all(&colours, Trial::WithPartners);
    let Finder { found, .. } = finder;
    found
}

impl Finder<'_, '_, '_> {
    /// Puts every object into a class, among those with its key.
    fn file_all(&mut self, keys: &[u64], trial: Trial) {
        let memory = self.memory;
        let mut classes: Classes = IndexMap::new(memory.alloc());
        for (number, key) in keys.iter().enumerate() {
            if memory.is_refused() {
                break;
            }
            if !classes.contains_key(key) {
                memory.kept(classes.insert(*key, memory.list()));
            }
            if let Some(lasts) = classes.get_mut(key) {
                self.file(object_at(number), lasts, trial);
            }
        }
    }

    /// Puts the object into one of the classes with these last objects, or begins a new class.
    fn file(&mut self, object: ObjectId, lasts: &mut Vec<ObjectId>, trial: Trial) {
        for last in lasts.iter_mut().rev().take(MAX_KNOWN) {
            if self.alike.contains(&ordered(*last, object)) {
                *last = object;
                return;
            }
        }
        for last in lasts.iter_mut().rev().take(MAX_CLASSES) {
            if self.are_alike(*last, object, trial) {
                *last = object;
                return;
            }
        }
        self.memory.push(lasts, object);
    }

    /// Whether an exchange that swaps the objects is found to be a symmetry.
    fn are_alike(&mut self, one: ObjectId, other: ObjectId, trial: Trial) -> bool {
        match trial {
            Trial::Alone => self.try_exchange(&[one, other]),
            Trial::WithPartners => {
                if !self.partners.find(self.memory, one, other) {
                    return false;
                }
                let objects = objects_in(self.memory, self.partners.pairs());
                self.try_exchange(&objects)
            }
        }
    }

    /// Keeps the exchange of these objects if it is a symmetry. Returns whether it is.
    fn try_exchange(&mut self, objects: &[ObjectId]) -> bool {
        let memory = self.memory;
        let made = memory.kept(Exchange::new(memory.alloc(), self.task, objects));
        let Some(Some(exchange)) = made else {
            return false;
        };
        if !self.test.is_symmetry(&exchange) {
            return false;
        }
        for (one, other) in exchange.pairs() {
            memory.kept(self.alike.insert(ordered(*one, *other)));
        }
        memory.push(&mut self.found, exchange);
        true
    }
}

/// The pair with the lower object first.
fn ordered(one: ObjectId, other: ObjectId) -> (ObjectId, ObjectId) {
    if one <= other {
        (one, other)
    } else {
        (other, one)
    }
}

/// The objects of the pairs, in order.
fn objects_in(memory: &DraftMemory, pairs: &[(ObjectId, ObjectId)]) -> Vec<ObjectId> {
    let mut objects = memory.list();
    for (one, other) in pairs {
        memory.push(&mut objects, *one);
        memory.push(&mut objects, *other);
    }
    objects
}

//! Colours of objects by what is stated about them: objects that a symmetry maps to each other have the same colour. Computed by
//! colour refinement, the one-dimensional Weisfeiler-Leman algorithm (Weisfeiler & Leman 1968), on hashes.
use crate::facts::{Fact, Facts, Source};
use faults::DraftMemory;
use task::{ObjectId, Task};

/// The number of rounds of colour refinement.
const ROUNDS: usize = 3;

/// The object with this number; the greatest object number if it is too large.
pub(crate) fn object_at(number: usize) -> ObjectId {
    match u32::try_from(number) {
        Ok(number) => ObjectId(number),
        Err(_) => ObjectId(u32::MAX),
    }
}

/// Extends a hash by a word.
fn mixed(hash: u64, word: u64) -> u64 {
    (hash ^ word)
        .wrapping_mul(0x9E37_79B9_7F4A_7C15)
        .rotate_left(29)
}

/// The colour of each object: computed from its declared type and the facts that name it, with the colours of the other objects
/// in these facts. A symmetry maps an object to one of the same colour.
pub(crate) fn colours_of(memory: &DraftMemory, task: &Task, facts: &Facts) -> Vec<u64> {
    let mut colours = memory.list();
    for number in 0..task.object_count() {
        memory.push(&mut colours, type_colour(task, object_at(number)));
    }
    for _ in 0..ROUNDS {
        colours = refined(memory, facts, &colours);
    }
    colours
}

/// The initial colour: that of the object's declared type.
fn type_colour(task: &Task, object: ObjectId) -> u64 {
    match task.declared_type(object) {
        Some(declared) => mixed(1, u64::from(declared.0)),
        None => 0,
    }
}

/// The colour of the object.
pub(crate) fn colour_of(colours: &[u64], object: ObjectId) -> u64 {
    match colours.get(object.0 as usize) {
        Some(colour) => *colour,
        None => 0,
    }
}

/// One round of refinement: the colours, split by the colours of objects that occur in the same facts.
fn refined(memory: &DraftMemory, facts: &Facts, colours: &[u64]) -> Vec<u64> {
    let mut refined = memory.list();
    for (number, colour) in colours.iter().enumerate() {
        let sum = colour_by_facts(facts, colours, object_at(number));
        memory.push(&mut refined, mixed(*colour, sum));
    }
    refined
}

/// A hash of the facts that name the object, independent of their order.
fn colour_by_facts(facts: &Facts, colours: &[u64], object: ObjectId) -> u64 {
    let mut sum: u64 = 0;
    for place in facts.places_of(object) {
        if let Some(fact) = facts.at(*place) {
            sum = sum.wrapping_add(colour_by_fact(fact, colours, object));
        }
    }
    sum
}

/// A hash of the fact in which the object itself is marked and the others are represented by their colours.
fn colour_by_fact(fact: &Fact, colours: &[u64], object: ObjectId) -> u64 {
    let mut hash = begun(fact);
    for other in &fact.objects {
        let word = if *other == object {
            1
        } else {
            colour_of(colours, *other)
        };
        hash = mixed(hash, word);
    }
    hash
}

/// A hash of the fact's source and predicate.
fn begun(fact: &Fact) -> u64 {
    let source = match fact.source {
        Source::Start => 1,
        Source::Goal => 2,
        Source::Value(value) => mixed(3, u64::from(value)),
    };
    mixed(source, fact.predicate.0 as u64)
}

/// The key of each object: computed from its colour and the facts that name it, with the other objects themselves, except those
/// of its own colour. A symmetry that swaps just two objects maps an object to one with the same key.
pub(crate) fn keys_of(memory: &DraftMemory, facts: &Facts, colours: &[u64]) -> Vec<u64> {
    let mut keys = memory.list();
    for (number, colour) in colours.iter().enumerate() {
        let sum = key_by_facts(facts, colours, object_at(number));
        memory.push(&mut keys, mixed(*colour, sum));
    }
    keys
}

/// A hash of the facts that name the object, independent of their order.
fn key_by_facts(facts: &Facts, colours: &[u64], object: ObjectId) -> u64 {
    let mut sum: u64 = 0;
    for place in facts.places_of(object) {
        if let Some(fact) = facts.at(*place) {
            sum = sum.wrapping_add(key_by_fact(fact, colours, object));
        }
    }
    sum
}

/// A hash of the fact in which the object is marked, objects of its colour share one mark, and others are represented by their
/// numbers.
fn key_by_fact(fact: &Fact, colours: &[u64], object: ObjectId) -> u64 {
    let mut hash = begun(fact);
    for other in &fact.objects {
        let word = if *other == object {
            1
        } else if colour_of(colours, *other) == colour_of(colours, object) {
            2
        } else {
            mixed(3, u64::from(other.0))
        };
        hash = mixed(hash, word);
    }
    hash
}

//! Objects that must be swapped together: the facts that an exchange violates show which further swaps it needs.
use crate::colours::colour_of;
use crate::facts::{Fact, Facts};
use faults::DraftMemory;
use task::ObjectId;

/// The maximum number of pairs in an exchange.
const MAX_PAIRS: usize = 32;

/// The budget of fact lookups: this many in all, plus a number for each fact.
const MAX_LOOKS: usize = 5_000;

/// The number of lookups for each fact.
const LOOKS_AT_EACH: usize = 8;

/// The search for partners.
#[derive(Drop)]
pub(crate) struct Partners<'f> {
    facts: &'f Facts,
    colours: &'f [u64],
    /// The pairs of the current exchange.
    pairs: Vec<(ObjectId, ObjectId)>,
    /// The remaining number of fact lookups.
    looks_left: usize,
}

impl<'f> Partners<'f> {
    /// A search before its first use.
    pub(crate) fn new(memory: &DraftMemory, facts: &'f Facts, colours: &'f [u64]) -> Partners<'f> {
        Partners {
            facts,
            colours,
            pairs: memory.list(),
            looks_left: facts
                .count()
                .saturating_mul(LOOKS_AT_EACH)
                .saturating_add(MAX_LOOKS),
        }
    }

    /// The pairs of the last successful search.
    pub(crate) fn pairs(&self) -> &[(ObjectId, ObjectId)] {
        &self.pairs
    }

    /// Extends the swap of the two objects until all facts that name a swapped object are preserved. Returns whether that
    /// succeeds.
    pub(crate) fn find(&mut self, memory: &DraftMemory, one: ObjectId, other: ObjectId) -> bool {
        self.pairs.clear();
        memory.push(&mut self.pairs, (one, other));
        for place in 0..MAX_PAIRS {
            let Some(pair) = self.pairs.get(place) else {
                return true;
            };
            let (first, second) = *pair;
            if !self.keep(memory, first, second) || !self.keep(memory, second, first) {
                return false;
            }
        }
        false
    }

    /// Adds pairs until the facts that name the object, whose image is given, are preserved. Returns whether that succeeds.
    fn keep(&mut self, memory: &DraftMemory, object: ObjectId, image: ObjectId) -> bool {
        let facts = self.facts;
        for place in facts.places_of(object) {
            if let Some(fact) = facts.at(*place) {
                if !self.keep_fact(memory, fact, image) {
                    return false;
                }
            }
        }
        true
    }

    /// Adds pairs until the image of the fact, which names the object, is a fact. Returns whether that succeeds.
    fn keep_fact(&mut self, memory: &DraftMemory, fact: &Fact, image: ObjectId) -> bool {
        if self.is_kept(memory, fact) {
            return true;
        }
        let facts = self.facts;
        for place in facts.places_of(image) {
            if self.looks_left == 0 || self.pairs.len() > MAX_PAIRS {
                return false;
            }
            if let Some(other) = facts.at(*place) {
                if self.match_up(memory, fact, other) {
                    return true;
                }
            }
        }
        false
    }

    /// Adds pairs that make the second fact the image of the first. Returns whether there are such pairs and the second fact is
    /// not the image of another one.
    fn match_up(&mut self, memory: &DraftMemory, fact: &Fact, other: &Fact) -> bool {
        let may_be = fact.source == other.source
            && fact.predicate == other.predicate
            && fact.objects.len() == other.objects.len();
        if !may_be || self.is_kept(memory, other) {
            return false;
        }
        let before = self.pairs.len();
        for (object, image) in fact.objects.iter().zip(&other.objects) {
            if !self.pair(memory, *object, *image) {
                self.pairs.truncate(before);
                return false;
            }
        }
        true
    }

    /// Makes the second object the image of the first, unless one of them has another image or their colours differ. Returns
    /// whether it is the image then.
    fn pair(&mut self, memory: &DraftMemory, object: ObjectId, image: ObjectId) -> bool {
        if self.image_of(object) == image {
            return true;
        }
        let free = self.image_of(object) == object && self.image_of(image) == image;
        if !free || colour_of(self.colours, object) != colour_of(self.colours, image) {
            return false;
        }
        memory.push(&mut self.pairs, (object, image));
        true
    }

    /// The image of this object.
    fn image_of(&self, object: ObjectId) -> ObjectId {
        for (one, other) in &self.pairs {
            if *one == object {
                return *other;
            }
            if *other == object {
                return *one;
            }
        }
        object
    }

    /// Whether the image of the fact is a fact; counts as a lookup.
    fn is_kept(&mut self, memory: &DraftMemory, fact: &Fact) -> bool {
        self.looks_left = self.looks_left.saturating_sub(1);
        let mut objects = memory.list();
        for object in &fact.objects {
            memory.push(&mut objects, self.image_of(*object));
        }
        let image = Fact {
            source: fact.source,
            predicate: fact.predicate,
            objects,
        };
        self.facts.contain(&image)
    }
}

//! Facts: the literals that an instance or the goal needs, by numbers of their own.
use crate::rows::number_of;
use faults::DraftMemory;
use grounding::NumberedLiteral;

/// The fact that all literals of the goal are reached.
pub(crate) const GOAL: u32 = 0;

/// The fact of each state: what an operator needs that needs nothing else.
pub(crate) const ALWAYS: u32 = 1;

/// The number of the first literal's fact.
pub(crate) const FIRST: u32 = 2;

/// The facts of a delete relaxation. A literal and its negation are two facts.
#[derive(Drop)]
pub(crate) struct Facts {
    /// The literal of each fact, from the first one that has one.
    literals: Vec<NumberedLiteral>,
    /// For each literal the number of its fact, if it is needed: two for each atom, the negated one last.
    numbers: Vec<Option<u32>>,
}

impl Facts {
    /// No literals, of atoms below `width`.
    pub(crate) fn none(memory: &DraftMemory, width: u32) -> Facts {
        Facts {
            literals: memory.list(),
            numbers: memory.filled(None, width as usize * 2),
        }
    }

    /// Numbers these literals. One that has a number keeps it.
    pub(crate) fn add_all(&mut self, memory: &DraftMemory, literals: &[NumberedLiteral]) {
        for literal in literals {
            self.add(memory, *literal);
        }
    }

    /// Numbers the literal, if it has no number yet.
    fn add(&mut self, memory: &DraftMemory, literal: NumberedLiteral) {
        let number = self.count();
        let place = place_of(literal);
        if place < self.numbers.len() && self.numbers[place].is_none() {
            memory.push(&mut self.literals, literal);
            self.numbers[place] = Some(number);
        }
    }

    /// The number of facts.
    pub(crate) fn count(&self) -> u32 {
        number_of(self.literals.len()).saturating_add(FIRST)
    }

    /// The fact of the literal, if it is needed.
    pub(crate) fn of(&self, literal: NumberedLiteral) -> Option<u32> {
        match self.numbers.get(place_of(literal)) {
            Some(number) => *number,
            None => None,
        }
    }

    /// The literals of the facts, in the order of their numbers from `FIRST`.
    pub(crate) fn literals(&self) -> &[NumberedLiteral] {
        &self.literals
    }

    /// The literal of the fact, if it has one.
    pub(crate) fn literal(&self, fact: u32) -> Option<NumberedLiteral> {
        let place = fact.checked_sub(FIRST)?;
        match self.literals.get(place as usize) {
            Some(literal) => Some(*literal),
            None => None,
        }
    }
}

/// The place of a literal among all literals.
fn place_of(literal: NumberedLiteral) -> usize {
    let place = literal.atom as usize * 2;
    if literal.value { place } else { place + 1 }
}

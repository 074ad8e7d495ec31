//! The values of variables that the goal allows.
use crate::numbers::place_of;
use crate::variables::{VariableValue, Variables};
use faults::DraftMemory;
use grounding::NumberedLiteral;

/// For each variable, which of its values the goal allows.
#[derive(Drop)]
pub struct GoalValues {
    is_allowed: Vec<Vec<bool>>,
    is_asked: Vec<bool>,
}

impl GoalValues {
    /// The values that these goal literals allow.
    pub fn new(
        memory: &DraftMemory,
        variables: &Variables,
        literals: &[NumberedLiteral],
    ) -> GoalValues {
        let mut goals = GoalValues {
            is_allowed: memory.list(),
            is_asked: memory.filled(false, place_of(variables.count())),
        };
        for variable in 0..variables.count() {
            let count = place_of(variables.value_count(variable));
            memory.push(&mut goals.is_allowed, memory.filled(true, count));
        }
        for literal in literals {
            for said in variables.of_atom(literal.atom) {
                goals.ask(*said, literal);
            }
        }
        goals
    }

    /// Requires this value, or forbids it, as the literal says of its atom.
    fn ask(&mut self, said: VariableValue, literal: &NumberedLiteral) {
        if let Some(is_asked) = self.is_asked.get_mut(place_of(said.variable)) {
            *is_asked = true;
        }
        if let Some(allowed) = self.is_allowed.get_mut(place_of(said.variable)) {
            for (place, is_allowed) in allowed.iter_mut().enumerate() {
                if (place == place_of(said.value)) != literal.value {
                    *is_allowed = false;
                }
            }
        }
    }

    /// Whether the goal allows this value of the variable.
    pub(crate) fn allow(&self, variable: u32, value: u32) -> bool {
        match self.is_allowed.get(place_of(variable)) {
            Some(allowed) => match allowed.get(place_of(value)) {
                Some(is_allowed) => *is_allowed,
                None => false,
            },
            None => false,
        }
    }

    /// Whether the goal constrains the variable.
    pub fn ask_of(&self, variable: u32) -> bool {
        match self.is_asked.get(place_of(variable)) {
            Some(is_asked) => *is_asked,
            None => false,
        }
    }
}

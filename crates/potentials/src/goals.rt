//! Upper bounds of the value in goal states.
ghost use Rattle.std.specs.Prelude.{◌≡◌, ◌<◌, ◌≤◌, ◌++◌, ◌∷◌, [], ◌*◌, ◌^◌, ℕ, List, IfOk, ◌≤ℤ◌, neg_ℤ, pos, All, length, map};
ghost use Rattle.grounding.specs.Views.{numbered_of};
ghost use Rattle.model.specs.NumberedLiterals.{NumberedLiteral as Literal};
ghost use Rattle.lower_bounds.specs.PotentialFunctions.{IsInRange};
ghost use Rattle.lower_bounds.specs.FairPotentials as model;
ghost use Rattle.potentials.specs.Goals.{said_of, AreSaid};

use crate::losses::weight_of;
use crate::said::Said;
use faults::NoMemory;
use grounding::NumberedLiteral;
use std::alloc::Global;

/// What the literals of a goal say of each numbered atom, found in one pass over them.
#[derive(Debug, Drop)]
pub struct GoalAtoms {
    said: Vec<Said>,
}

impl GoalAtoms {
    /// What these literals say of the atoms numbered below `width`.
    ///
    /// # Errors
    /// An allocation failed.
    pub fn new(
        alloc: Global,
        literals: &[NumberedLiteral],
        width: u32,
    ) -> Result<GoalAtoms, NoMemory>
        ensures { IfOk result (AreSaid (map numbered_of literals.now) width) }
    {
        let nothing = Said {
            is_false: false,
            is_true: false,
        };
        let said = vec![in alloc; nothing; width as usize]?;
        let mut goal = GoalAtoms { said };
        for literal in literals {
            goal.add(*literal);
        }
        Ok(goal)
    }

    /// Adds what the literal says, if its atom has a place.
    fn add(&mut self, literal: NumberedLiteral)
        ensures { (literals : List Literal) (count : ℕ) → AreSaid literals count self.old → AreSaid (literals ++ numbered_of literal ∷ []) count self.new }
    {
        let place = literal.atom as usize;
        if place < self.said.len() {
            self.said[place] = self.of(literal.atom).with(literal);
        }
    }

    /// What is said of the atom with this number; nothing past the width.
    pub fn of(&self, atom: u32) -> Said
        ensures { result ≡ said_of self.now atom }
    {
        match self.said.get(atom as usize) {
            Some(said) => *said,
            None => Said {
                is_false: false,
                is_true: false,
            },
        }
    }

    /// Upper bound of the contribution of all atoms in states that satisfy the goal's literals.
    pub fn give_at_most(&self, weights: &[i64]) -> i64
        requires range { All IsInRange weights.now }
        requires few { length weights.now < 2 ^ 32 }
        ensures value { (literals : List Literal) → AreSaid literals (length weights.now) self.now → result ≡ model.goal_gives_at_most (length weights.now) weights.now literals }
        ensures least { neg_ℤ (pos (2147483647 * length weights.now)) ≤ℤ result }
        ensures most { result ≤ℤ pos (2147483647 * length weights.now) }
    {
        let mut total = 0i64;
        for place in 0..weights.len() {
            let atom = place as u32;
            total += self.of(atom).gives(weight_of(weights, atom));
        }
        total
    }
}

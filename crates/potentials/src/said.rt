//! What literals say of atoms.
ghost use Rattle.std.specs.Prelude.{◌≡◌, ◌||◌, true, false, pos, if◌then◌else◌, map};
ghost use Rattle.std.specs.Bool.{beq};
ghost use Rattle.std.specs.Int.{int_max};
ghost use Rattle.grounding.specs.Views.{numbered_of};
ghost use Rattle.lower_bounds.specs.PotentialFunctions.{IsInRange};
ghost use Rattle.lower_bounds.specs.FairPotentials as model;
ghost use Rattle.potentials.specs.Said.{IsSaid};

use grounding::NumberedLiteral;

/// What literals say of an atom.
#[derive(Clone, Copy, Debug)]
pub struct Said {
    /// One of them states that it is false.
    pub is_false: bool,
    /// One of them states that it is true.
    pub is_true: bool,
}

impl Said {
    /// What these literals say of the atom with this number.
    pub(crate) fn of(literals: &[NumberedLiteral], atom: u32) -> Said
        ensures { IsSaid (map numbered_of literals.now) atom result }
    {
        let is_false = NumberedLiteral { atom, value: false };
        let is_true = NumberedLiteral { atom, value: true };
        Said {
            is_false: is_among(literals, is_false),
            is_true: is_among(literals, is_true),
        }
    }

    /// The same with one more literal of the atom.
    pub(crate) fn with(self, literal: NumberedLiteral) -> Said
        ensures is_false { result.is_false ≡ (self.is_false || beq literal.value false) }
        ensures is_true { result.is_true ≡ (self.is_true || beq literal.value true) }
    {
        Said {
            is_false: self.is_false || !literal.value,
            is_true: self.is_true || literal.value,
        }
    }

    /// Upper bound of the contribution of an atom with this weight in states that satisfy the literals.
    pub fn gives(self, weight: i64) -> i64
        requires { IsInRange weight }
        ensures value { result ≡ (if self.is_false then pos 0 else if self.is_true then weight else int_max (pos 0) weight) }
        ensures range { IsInRange result }
    {
        if self.is_false {
            return 0;
        }
        if self.is_true || weight > 0 {
            return weight;
        }
        0
    }
}

/// Whether the literal is one of these.
fn is_among(literals: &[NumberedLiteral], literal: NumberedLiteral) -> bool
    ensures { result ≡ model.says (map numbered_of literals.now) literal.atom literal.value }
{
    literals.iter().any(|other| other.atom == literal.atom && other.value == literal.value)
}

//! What an instance may do to an atom's truth value.
ghost use Rattle.std.specs.Prelude.{◌≡◌, ℕ, List, map};
ghost use Rattle.grounding.specs.Views.{numbered_of};
ghost use Rattle.grounding.specs.Changes.{counting_of};
ghost use Rattle.lower_bounds.specs.PotentialFunctions.{IsInRange};
ghost use Rattle.lower_bounds.specs.FairPotentials as model;
ghost use Rattle.lower_bounds.proofs.Worst.{worst_by};
ghost use Rattle.model.specs.NumberedLiterals.{NumberedChange};
ghost use Rattle.potentials.specs.Swing.{IsSwing, is_always, adds};

use crate::said::Said;
use grounding::{CountingChange, NumberedLiteral};

/// The truth value of an atom before and after a step.
#[derive(Clone, Copy)]
enum Transition {
    /// It is false and stays false.
    StaysFalse,
    /// It is false and becomes true.
    Rises,
    /// It is true and becomes false.
    Falls,
    /// It is true and stays true.
    StaysTrue,
}

impl Transition {
    ghost use Rattle.potentials.specs.Swing.{pair_of};

    /// Whether the atom is true before the step.
    fn before(self) -> bool
        ensures { result ≡ (pair_of self).before }
    {
        match self {
            Transition::StaysFalse | Transition::Rises => false,
            Transition::Falls | Transition::StaysTrue => true,
        }
    }

    /// Whether the atom is true after the step.
    fn after(self) -> bool
        ensures { result ≡ (pair_of self).after }
    {
        match self {
            Transition::StaysFalse | Transition::Falls => false,
            Transition::Rises | Transition::StaysTrue => true,
        }
    }
}

/// A kind of change of an atom: what it makes of it, whenever the instance is applied or under the condition of a `when`.
#[derive(Clone, Copy)]
enum Kind {
    /// It always adds the atom.
    Add,
    /// It always deletes it.
    Delete,
    /// It sometimes adds it.
    MayAdd,
    /// It sometimes deletes it.
    MayDelete,
}

impl Kind {
    /// Whether it takes effect whenever the instance is applied.
    fn is_always(self) -> bool
        ensures { result ≡ is_always self }
    {
        match self {
            Kind::Add | Kind::Delete => true,
            Kind::MayAdd | Kind::MayDelete => false,
        }
    }

    /// Whether it makes the atom true.
    fn adds(self) -> bool
        ensures { result ≡ adds self }
    {
        match self {
            Kind::Add | Kind::MayAdd => true,
            Kind::Delete | Kind::MayDelete => false,
        }
    }
}

/// The kinds of changes that an instance makes to an atom.
#[derive(Clone, Copy)]
struct Makers {
    /// A change that always adds it.
    add: bool,
    /// A change that always deletes it.
    delete: bool,
    /// A change that sometimes adds it.
    may_add: bool,
    /// A change that sometimes deletes it.
    may_delete: bool,
}

impl Makers {
    ghost use Rattle.potentials.specs.Swing.{AreMakers, pair_of};

    /// The kinds of changes, among these, to the atom with this number.
    fn new(changes: &[CountingChange<'_>], atom: u32) -> Makers
        ensures { AreMakers (map counting_of changes.now) atom result }
    {
        Makers {
            add: has(changes, Kind::Add, atom),
            delete: has(changes, Kind::Delete, atom),
            may_add: has(changes, Kind::MayAdd, atom),
            may_delete: has(changes, Kind::MayDelete, atom),
        }
    }

    /// Whether the transition is possible for the atom.
    fn allow(self, transition: Transition) -> bool
        ensures { (changes : List NumberedChange) (atom : ℕ) → AreMakers changes atom self
            → result ≡ model.may_become changes atom (pair_of transition).before (pair_of transition).after }
    {
        let after = transition.after();
        if self.add {
            return after;
        }
        let may_be_made = if after { self.may_add } else { self.may_delete };
        let unchanged = transition.before() && !self.delete;
        after == unchanged || may_be_made
    }
}

/// The effects that an instance may have on an atom.
#[derive(Clone, Copy)]
pub struct Swing {
    /// It may be true and become false.
    pub falls: bool,
    /// It may keep its truth value.
    pub stays: bool,
    /// It may be false and become true.
    pub rises: bool,
}

impl Swing {
    /// The possible effects of an instance with these literals and changes on the atom with this number.
    pub fn new(literals: &[NumberedLiteral], changes: &[CountingChange<'_>], atom: u32) -> Swing
        ensures { IsSwing (map numbered_of literals.now) (map counting_of changes.now) atom result }
    {
        let said = Said::of(literals, atom);
        let was_true = !said.is_false;
        let was_false = !said.is_true;
        let makers = Makers::new(changes, atom);
        Swing {
            falls: was_true && makers.allow(Transition::Falls),
            stays: (was_false && makers.allow(Transition::StaysFalse))
                || (was_true && makers.allow(Transition::StaysTrue)),
            rises: was_false && makers.allow(Transition::Rises),
        }
    }

    /// The greatest loss of an atom with this weight.
    pub fn worst(self, weight: i64) -> i64
        requires { IsInRange weight }
        ensures value { result ≡ worst_by self.falls self.stays self.rises weight }
        ensures range { IsInRange result }
    {
        match (self.falls, self.rises) {
            (true, true) => { if weight < 0 { -weight } else { weight } }
            (true, false) => { if self.stays && weight < 0 { 0 } else { weight } }
            (false, true) => { if self.stays && weight > 0 { 0 } else { -weight } }
            (false, false) => 0,
        }
    }
}

/// Whether one of the changes affects the atom with this number.
pub fn touches(changes: &[CountingChange<'_>], atom: u32) -> bool
    ensures { result ≡ model.touches (map counting_of changes.now) atom }
{
    changes.iter().any(|change| change.atom == atom)
}

/// Whether one of the changes is of this kind, to the atom with this number.
fn has(changes: &[CountingChange<'_>], kind: Kind, atom: u32) -> bool
    ensures { result ≡ model.makes (map counting_of changes.now) (is_always kind) (adds kind) atom }
{
    let is_always = kind.is_always();
    let adds = kind.adds();
    changes.iter().any(|change| {
        change.atom == atom && change.is_unconditional() == is_always && change.value == adds
    })
}

//! Formulas, effects and action schemas.
use crate::atoms::{LiftedAtom, Term, TypeId};

/// Alternative types, as in `(either t u)`: an object must be of one of them.
#[derive(Debug, Drop)]
pub struct TypeUnion(pub Vec<TypeId>);

impl TypeUnion {
    ghost use Rattle.std.specs.Prelude.{◌≡◌, nat_eq};
    ghost use Rattle.std.specs.List.{list_any};
    ghost use Rattle.task.specs.TaskParts.{union_of};

    /// Whether the type is listed here.
    pub(crate) fn has(&self, id: TypeId) -> bool
        ensures { result ≡ list_any (nat_eq id.0) (union_of self.now) }
    {
        self.0.contains(&id)
    }
}

/// A precondition or a goal.
#[derive(Debug)]
pub enum Formula {
    /// An atom.
    Atom(LiftedAtom),
    /// Both terms denote the same object.
    Equal(Term, Term),
    /// Every part holds.
    And(Vec<Formula>),
    /// Some part holds.
    Or(Vec<Formula>),
    /// The part does not hold.
    Not(Box<Formula>),
    /// The second part holds, or the first does not.
    Imply(Box<Formula>, Box<Formula>),
    /// The part holds for some object of these types, bound to the last variable of the part's scope.
    Exists(TypeUnion, Box<Formula>),
    /// The part holds for every object of these types, bound to the last variable of the part's scope.
    Forall(TypeUnion, Box<Formula>),
}

impl Drop for Formula {
    fn drop(self) {
        match self {
            Self::Atom(_) => {}
            Self::Equal(_, _) => {}
            Self::And(_) => {}
            Self::Or(_) => {}
            Self::Not(_) => {}
            Self::Imply(_, _) => {}
            Self::Exists(_, _) => {}
            Self::Forall(_, _) => {}
        }
    }
}

/// A literal of an effect.
#[derive(Debug)]
pub enum EffectLiteral {
    /// An atom that becomes true.
    Add(LiftedAtom),
    /// An atom that becomes false.
    Delete(LiftedAtom),
}

impl Drop for EffectLiteral {
    fn drop(self) {
        match self {
            Self::Add(_) => {}
            Self::Delete(_) => {}
        }
    }
}

/// An effect of an action.
#[derive(Debug)]
pub enum Effect {
    /// A literal.
    Literal(EffectLiteral),
    /// Several effects together.
    And(Vec<Effect>),
    /// The part for every object of these types, bound to the last variable of the part's scope.
    Forall(TypeUnion, Box<Effect>),
    /// Literals that take effect if the formula holds in the state before.
    When(Formula, Vec<EffectLiteral>),
}

impl Drop for Effect {
    fn drop(self) {
        match self {
            Self::Literal(_) => {}
            Self::And(_) => {}
            Self::Forall(_, _) => {}
            Self::When(_, _) => {}
        }
    }
}

/// A declaration of a predicate or of a function.
#[derive(Debug, Drop)]
pub struct Predicate {
    /// The types of each argument.
    pub arguments: Vec<TypeUnion>,
}

/// The amount by which an action increases the total cost.
#[derive(Debug)]
pub enum Increase {
    /// A number from 0 to 2,147,483,647: 0 if there is no increase.
    Number(u32),
    /// The value of a function of terms, written like an atom: the function's number takes the place of the predicate's.
    Function(LiftedAtom),
}

impl Drop for Increase {
    fn drop(self) {
        match self {
            Self::Number(_) => {}
            Self::Function(_) => {}
        }
    }
}

/// An action schema.
#[derive(Debug)]
pub struct Schema {
    /// The types of each parameter.
    pub parameters: Vec<TypeUnion>,
    /// The precondition.
    pub precondition: Formula,
    /// The names of the precondition's quantified variables as in the domain, in textual order. They are no part of the meaning.
    pub precondition_names: Vec<Vec<u8>>,
    /// The effect.
    pub effect: Effect,
    /// The increase of the total cost.
    pub increase: Increase,
}

impl Drop for Schema {
    fn drop(self) {
        let Self {
            parameters: _,
            precondition: _,
            precondition_names: _,
            effect: _,
            increase: _,
        } = self;
    }
}

//! The contents of a domain and of a problem, before names are resolved.
use crate::terms::{Name, Term};

/// One of the two files of a task.
#[derive(Clone, Copy, Debug, PartialEq, Eq)]
pub enum TaskFile {
    /// The domain file.
    Domain,
    /// The problem file.
    Problem,
}

/// A predicate applied to terms.
#[derive(Drop)]
pub struct Atom<'a> {
    /// The predicate's name.
    pub predicate: Name<'a>,
    /// Its arguments, in order.
    pub terms: Vec<Term<'a>>,
}

/// A goal description: a precondition or a goal.
pub enum Formula<'a> {
    /// An atom.
    Atom(Atom<'a>),
    /// `(= t u)`: both terms denote the same object.
    Equal(Term<'a>, Term<'a>),
    /// `(and ..)`: every part holds.
    And(Vec<Formula<'a>>),
    /// `(or ..)`: some part holds.
    Or(Vec<Formula<'a>>),
    /// `(not f)`: the part does not hold.
    Not(Box<Formula<'a>>),
    /// `(imply f g)`: the second part holds, or the first does not.
    Imply(Box<Formula<'a>>, Box<Formula<'a>>),
    /// `(exists (variables) f)`: the part holds for some objects of the variables' types.
    Exists(Vec<Group<'a>>, Box<Formula<'a>>),
    /// `(forall (variables) f)`: the part holds for all objects of the variables' types.
    Forall(Vec<Group<'a>>, Box<Formula<'a>>),
}

impl Drop for Formula<'_> {
    fn drop(self) {
        match self {
            Self::Atom(_) => {}
            Self::Equal(_, _) => {}
            Self::And(_) => {}
            Self::Or(_) => {}
            Self::Not(_) => {}
            Self::Imply(_, _) => {}
            Self::Exists(_, _) => {}
            Self::Forall(_, _) => {}
        }
    }
}

/// A literal of an effect.
pub enum EffectLiteral<'a> {
    /// An atom that becomes true.
    Add(Atom<'a>),
    /// `(not ..)`: an atom that becomes false.
    Delete(Atom<'a>),
}

impl Drop for EffectLiteral<'_> {
    fn drop(self) {
        match self {
            Self::Add(_) => {}
            Self::Delete(_) => {}
        }
    }
}

/// An effect of an action.
pub enum Effect<'a> {
    /// An atom that becomes true, or false.
    Literal(EffectLiteral<'a>),
    /// `(and ..)`: several effects together.
    And(Vec<Effect<'a>>),
    /// `(forall (variables) e)`: the effect for all objects of the variables' types.
    Forall(Vec<Group<'a>>, Box<Effect<'a>>),
    /// `(when f ..)`: literals that take effect if the formula holds before.
    When(Formula<'a>, Vec<EffectLiteral<'a>>),
}

impl Drop for Effect<'_> {
    fn drop(self) {
        match self {
            Self::Literal(_) => {}
            Self::And(_) => {}
            Self::Forall(_, _) => {}
            Self::When(_, _) => {}
        }
    }
}

/// Names or variables of one type, such as `a b - place` or `?x ?y - (either t u)`. A typed list is a list of groups.
pub struct Group<'a> {
    /// The names, in order. There is at least one.
    pub names: Vec<Name<'a>>,
    /// The types after the `-`; empty if no type follows.
    pub types: Vec<Name<'a>>,
}

impl Drop for Group<'_> {
    fn drop(self) {
        let Self { names: _, types: _ } = self;
    }
}

/// A declaration of a predicate or of a function.
pub struct Predicate<'a> {
    /// The name of the predicate or the function.
    pub name: Name<'a>,
    /// Its variables: they give the number and types of its arguments.
    pub parameters: Vec<Group<'a>>,
}

impl Drop for Predicate<'_> {
    fn drop(self) {
        let Self {
            name: _,
            parameters: _,
        } = self;
    }
}

/// The amount of an increase of the total cost.
#[derive(Drop)]
pub enum Amount<'a> {
    /// A number, from 0 to 2,147,483,647.
    Number(u32),
    /// A function applied to terms, stored like an atom: the function's name takes the place of the predicate's.
    Function(Atom<'a>),
}

/// An increase of the total cost.
pub struct Increase<'a> {
    /// Its word `increase`.
    pub word: Name<'a>,
    /// Its amount.
    pub amount: Amount<'a>,
}

impl Drop for Increase<'_> {
    fn drop(self) {
        let Self { word: _, amount: _ } = self;
    }
}

/// An action schema.
pub struct Action<'a> {
    /// The action's name.
    pub name: Name<'a>,
    /// Its parameters, in order.
    pub parameters: Vec<Group<'a>>,
    /// The precondition: `(and)` if the file has no `:precondition`.
    pub precondition: Formula<'a>,
    /// The effect: `(and)` if the file has no `:effect`.
    pub effect: Effect<'a>,
    /// The cost increases in its effect, in order. More than one is a fault.
    pub increases: Vec<Increase<'a>>,
}

impl Drop for Action<'_> {
    fn drop(self) {
        let Self {
            name: _,
            parameters: _,
            precondition: _,
            effect: _,
            increases: _,
        } = self;
    }
}

/// A domain file.
pub struct Domain<'a> {
    /// The domain's name.
    pub name: Name<'a>,
    /// The types, in file order; each group has its parent.
    pub types: Vec<Group<'a>>,
    /// The constants, in file order.
    pub constants: Vec<Group<'a>>,
    /// The predicates, in file order.
    pub predicates: Vec<Predicate<'a>>,
    /// The declarations in `:functions`, in file order: functions of objects, and `total-cost`, which has no arguments.
    pub functions: Vec<Predicate<'a>>,
    /// The actions, in file order.
    pub actions: Vec<Action<'a>>,
}

impl Drop for Domain<'_> {
    fn drop(self) {
        let Self {
            name: _,
            types: _,
            constants: _,
            predicates: _,
            functions: _,
            actions: _,
        } = self;
    }
}

/// A predicate applied to objects.
#[derive(Drop)]
pub struct GroundAtom<'a> {
    /// The predicate's name.
    pub predicate: Name<'a>,
    /// The names of its objects, in order.
    pub objects: Vec<Name<'a>>,
}

/// The fact `(= (total-cost) N)` of `:init`.
#[derive(Clone, Copy)]
pub struct InitialCost<'a> {
    /// Its word `=`.
    pub equals: Name<'a>,
    /// Its word `total-cost`.
    pub function: Name<'a>,
    /// The number.
    pub amount: u32,
    /// The number's word.
    pub number: Name<'a>,
}

/// The fact `(= (f o ..) N)` of `:init`.
#[derive(Drop)]
pub struct InitialValue<'a> {
    /// The function applied to objects, stored like an atom: the function's name takes the place of the predicate's.
    pub function: GroundAtom<'a>,
    /// Its value, from 0 to 2,147,483,647.
    pub value: u32,
}

/// A fact of `:init`.
pub enum Fact<'a> {
    /// An atom that is initially true.
    Atom(GroundAtom<'a>),
    /// A negated atom, with its word `not`.
    Negated(Name<'a>, GroundAtom<'a>),
    /// The initial total cost.
    InitialCost(InitialCost<'a>),
    /// The value of a function applied to objects.
    InitialValue(InitialValue<'a>),
}

impl Drop for Fact<'_> {
    fn drop(self) {
        match self {
            Self::Atom(_) => {}
            Self::Negated(_, _) => {}
            Self::InitialCost(_) => {}
            Self::InitialValue(_) => {}
        }
    }
}

/// A problem file.
pub struct Problem<'a> {
    /// The problem's name.
    pub name: Name<'a>,
    /// The name of the problem's domain.
    pub domain: Name<'a>,
    /// The objects, in file order.
    pub objects: Vec<Group<'a>>,
    /// The initial facts, in file order.
    pub init: Vec<Fact<'a>>,
    /// The goal.
    pub goal: Formula<'a>,
    /// The word `total-cost` of `:metric`, if the file has one.
    pub metric: Option<Name<'a>>,
}

impl Drop for Problem<'_> {
    fn drop(self) {
        let Self {
            name: _,
            domain: _,
            objects: _,
            init: _,
            goal: _,
            metric: _,
        } = self;
    }
}

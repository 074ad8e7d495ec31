//! Numbers in place of names, and atoms made of them.
use arrayvec::ArrayVec;

/// The maximum number of arguments of a predicate.
pub const MAX_ARGUMENTS: usize = 8;

/// The maximum number of variables in scope at once.
pub const MAX_VARIABLES: usize = 16;

/// The maximum number of objects of a task.
pub const MAX_OBJECTS: usize = 65_535;

/// A type: 0 is `object`; the others are numbered from 1 in the order of the domain's types.
#[derive(Clone, Copy, Debug, PartialEq, Eq)]
pub struct TypeId(pub u16);

/// An object, numbered from 0: first the domain's constants, then the problem's objects.
#[derive(Clone, Copy, Debug, Default, PartialEq, Eq, PartialOrd, Ord, Hash)]
pub struct ObjectId(pub u32);

/// A predicate, numbered from 0 in the order of the domain's predicates; in a function of terms or objects, the number of the
/// function among the domain's functions.
#[derive(Clone, Copy, Debug, PartialEq, Eq, PartialOrd, Ord, Hash)]
pub struct PredicateId(pub usize);

/// An action schema, numbered from 0 in the order of the domain's actions.
#[derive(Clone, Copy, Debug, PartialEq, Eq)]
pub struct SchemaId(pub usize);

/// A variable, numbered from 0 within its scope: first the parameters of the action, then the variables of the enclosing
/// quantifiers, outermost first.
#[derive(Clone, Copy, Debug, PartialEq, Eq)]
pub struct VariableId(pub usize);

/// A ground atom: a predicate applied to objects.
#[derive(Clone, Debug, PartialEq, Eq, PartialOrd, Ord, Hash, Drop)]
pub struct Atom {
    /// The predicate.
    pub predicate: PredicateId,
    /// Its objects, in order.
    pub objects: ArrayVec<ObjectId, MAX_ARGUMENTS>,
}

/// An argument of an atom in an action or a goal.
#[derive(Clone, Copy, Debug)]
pub enum Term {
    /// A variable.
    Variable(VariableId),
    /// An object.
    Object(ObjectId),
}

/// A predicate applied to terms: an atom once its variables are bound to objects.
#[derive(Debug, Drop)]
pub struct LiftedAtom {
    /// The predicate.
    pub predicate: PredicateId,
    /// Its arguments, in order.
    pub terms: Vec<Term>,
}

//! A planning task with numbers for names. It is independent of the texts it was read from.
#![tactic(auto)]

mod atoms;
mod names;
mod parts;
mod schemas;
mod task;
mod types;

pub use atoms::{
    Atom, LiftedAtom, MAX_ARGUMENTS, MAX_OBJECTS, MAX_VARIABLES, ObjectId, PredicateId, SchemaId,
    Term, TypeId, VariableId,
};
pub use parts::TaskParts;
pub use schemas::{Effect, EffectLiteral, Formula, Increase, Predicate, Schema, TypeUnion};
pub use task::Task;
pub use types::{all_below, is_below, supertypes};

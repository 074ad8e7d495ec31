//! Parses the words of a domain file and of a problem file into trees: typed lists, formulas, effects and facts.
//!
//! It also classifies words for the grammar, and chooses the fault for an unexpected word.
#![tactic(auto)]

mod action;
mod costs;
mod declared;
mod effects;
mod formulas;
mod lists;
mod look;
mod placing;
mod reader;
mod refusals;
mod sections;
mod terms;
mod token;
mod tree;
mod typed_lists;
mod values;
mod word_fault;

pub use reader::{domain, examples_are_as_reported, one_fault, one_reading, problem};
pub use refusals::{ListElement, allowed, has_part, has_section, required};
pub use terms::{Name, Term};
pub use token::{FreeName, Keyword, PartKeyword, ReservedName, SectionKeyword, Token, token_at};
pub use tree::{
    Action, Amount, Atom, Domain, Effect, EffectLiteral, Fact, Formula, GroundAtom, Group,
    Increase, InitialCost, InitialValue, Predicate, Problem, TaskFile,
};

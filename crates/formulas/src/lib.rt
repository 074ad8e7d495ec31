//! Truth, effects and instances over states, which are sets of atoms.
#![tactic(auto)]

mod change;
mod costs;
mod effects;
mod fluent_predicates;
mod fluents;
mod instance;
mod laws;
mod literals;
mod marks;
mod mentions;
mod objects;
mod plan;
mod state;
mod truth;
mod valuation;

pub use change::apply;
pub use costs::{amount, cost};
pub use effects::{Change, GroundLiteral, changes};
pub use fluent_predicates::FluentPredicates;
pub use fluents::{is_atom, is_fluent, is_fluent_predicate};
pub use instance::{Binding, Instance, copied, is_instance, with_object};
pub use laws::{formula_examples_are_judged, one_state, sure_literals_hold};
pub use literals::{Literal, sure};
pub use marks::{is_marked, mark};
pub use mentions::{Mention, add_action_mentions, add_formula_mentions, named_table};
pub use objects::{Objects, objects_of};
pub use plan::{MAX_STEPS, Plan};
pub use state::State;
pub use task::Atom;
pub use truth::{holds, meets_goal, named_by};
pub use valuation::Valuation;

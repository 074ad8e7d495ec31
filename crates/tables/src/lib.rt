//! Values over several tables: the test whether they are fair, and the value of a state, found by what is known of another.
#![tactic(auto)]

mod asked;
mod fairness;
mod known_rows;
mod known_state;
mod losses;
mod projections;
mod row_index;
mod row_sums;
mod scope_places;
mod several;
mod tables;
mod unfair;
mod values;

pub use fairness::is_instance_shut_out;
pub use known_state::KnownState;
pub use several::{TableFunctions, ValuesFairness};
pub use tables::IndexedTables;

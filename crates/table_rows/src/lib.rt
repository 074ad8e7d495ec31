//! Tables in memory: rows over the atoms of a scope, and what an instance loses by a table.
#![tactic(auto)]

mod afters;
mod by_atoms;
mod candidates;
mod columns;
mod giving;
mod indexed;
mod lists;
mod losses;
mod placed;
mod places;
mod placing;
mod rows;
mod table;

pub use by_atoms::Added;
pub use indexed::IndexedTable;
pub use lists::Lists;
pub use table::Table;

//! Tests whether an exchange of objects is a symmetry of a task, and maps packed states to representatives.
//!
//! The representative of a state stands for all its images by exchanges.
#![tactic(auto)]

mod conjuncts;
mod exchange;
mod images;
mod lowest;
mod named;
mod neighbours;
mod numbers;
mod pairs;
mod places;
mod representatives;
mod run;
mod runs;
mod symmetry_test;

pub use exchange::Exchange;
pub use numbers::exchanged_numbers;
pub use representatives::Representatives;
pub use symmetry_test::SymmetryTest;

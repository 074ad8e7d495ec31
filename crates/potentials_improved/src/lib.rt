//! Improves potentials, by drafts that are tested and by steps of single weights.
//!
//! Fair potentials are an estimate for a search (`costs`), dead-fair ones a test for dead ends (`dead_ends`).
//!
//! A draft has the weights of a linear program's solution, rounded, for the initial state and for states sampled on the way from
//! it. It is taken if it is tested to be fair and no worse. Then single weights of fair potentials are moved.
#![tactic(auto)]

mod allowance;
mod climb;
mod costs;
mod dead_ends;
mod drafted;
mod fair_at;
mod groundwork;
mod improve;

pub use allowance::Allowance;
pub use costs::Costs;
pub use dead_ends::DeadEnds;
pub use drafted::Drafts;
pub use fair_at::{DeadFair, Fair, FairAt};
pub use groundwork::Groundwork;
pub use improve::improved_from_zero;
pub use potentials::{Fairness, Potentials};

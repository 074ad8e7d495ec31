//! Finds exchanges of interchangeable objects and tests each. It may miss some.
#![tactic(auto)]

mod colours;
mod drafts;
mod facts;
mod finder;
mod partners;

pub use drafts::{MAX_EXCHANGES, drafted_exchanges};

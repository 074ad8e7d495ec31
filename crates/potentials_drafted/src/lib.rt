//! Drafts potentials by a linear program, for the value of states and for dead ends.
//!
//! Nothing is claimed about a draft, so users must test it. What is proved is which instances touch an atom: the later moves of
//! single weights rely on that.
#![tactic(auto)]

mod aims;
mod dead_drafts;
mod drafts;
mod incidence;
mod linear_program;
mod program_input;
mod repair;
mod samples;
mod simplex;

pub use dead_drafts::DeadDrafts;
pub use drafts::drafted_weights;
pub use incidence::{Incidence, IncidenceEntry};
pub use program_input::ProgramInput;
pub use samples::RandomGenerator;

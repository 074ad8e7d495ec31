//! Drafts landmark values for single states by LM-cut. Nothing is trusted of a draft: it is tested before it is used.
#![tactic(auto)]

mod cut;
mod draft;
mod drafter;
mod facts;
mod levels;
mod operators;
mod relaxed_task;
mod rows;
mod value;
mod value_maker;

pub use draft::{Claim, Draft};
pub use drafter::{CutDrafter, KnownValue};

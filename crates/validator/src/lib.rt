//! Runs a plan against the semantics of its task, and gives the verdict.
#![tactic(auto)]

mod verdict;

pub use verdict::{
    Run, Verdict, exactly_one_verdict_is_true, run_plan, validate, worked_examples_are_true,
};

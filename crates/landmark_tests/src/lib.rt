//! Tests of landmark values that are drafted for states.
#![tactic(auto)]

#[cfg(test)]
mod asked;
#[cfg(test)]
mod texts;

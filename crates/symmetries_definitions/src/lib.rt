//! Defines which exchanges of objects are symmetries of a task, and what listings closed under them show. No code.
#![tactic(auto)]

mod laws;

pub use laws::{
    AlikeStates, action_examples_are_judged, alike_states_are_of_one_orbit, closed_listings_claim,
    exchange_examples_are_judged, goal_examples_are_judged, goals_are_reached_alike,
    listings_by_exchanges_claim, orbits_keep_steps, packed_states_are_alike,
    representative_examples_are_judged, states_alone_stand_for_themselves,
    symmetries_are_automorphisms, symmetries_keep_meaning, task_examples_are_judged, test_is_exact,
};

//! Defines potential functions, values over tables and landmark values: fair ones are lower bounds, dead-fair ones detect dead ends.
//! No code.
#![tactic(auto)]

mod landmark_laws;
mod potential_laws;
mod table_laws;

pub use landmark_laws::{
    dead_fair_landmarks_report_dead_ends, fair_landmarks_are_lower_bounds, fair_tables_are_closed,
    kept_landmarks_are_over, landmark_examples_are_judged, landmark_lines_are_judged,
    landmark_task_examples_are_judged, landmarks_are_fair_values, zones_are_landmarks,
};
pub use potential_laws::{
    dead_fair_potentials_detect_dead_ends, fair_potentials_are_lower_bounds,
    potential_examples_are_judged,
};
pub use table_laws::{
    certain_changes_have_one_after, dead_fair_tables_report_dead_ends,
    fair_tables_are_lower_bounds, fair_values_are_sound, fairness_is_enough,
    greatest_of_fair_tables_is_lower_bound, ground_atoms_are_all_numbered,
    potentials_are_fair_values, potentials_are_table_functions, table_examples_are_judged,
    table_task_examples_are_judged, tables_are_fair_values,
};

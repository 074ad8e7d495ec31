//! The laws of ground tasks that are proved for all values, each called once; and the number that the solver's contracts mention.
use grounding::{
    atoms_are_numbered, ground_task_is_bisimilar, ground_task_solves_alike,
    grounding_examples_are_judged, numbered_literals_hold, only_counting_changes_are_made,
    packs_states, statically_false_is_not_applicable,
};
use solver::MAX_LIMIT;

#[test]
fn laws_of_ground_tasks_are_called() {
    atoms_are_numbered();
    statically_false_is_not_applicable();
    only_counting_changes_are_made();
    numbered_literals_hold();
    packs_states();
    ground_task_is_bisimilar();
    ground_task_solves_alike();
    grounding_examples_are_judged();
}

const _: () = prove!(MAX_LIMIT == 16_777_216);

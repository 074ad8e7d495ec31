//! The laws of reading, meaning and certificates that are proved for all values, each called once; and the numbers
//! that the contracts mention.
use cert_checker::{
    closed_certificates_are_accepted, closed_claim_holds, examples_are_judged,
    solving_list_stays_listed, written_certificates_read_back,
};
use certificate::{MAX_ATOMS, MAX_STATE_LINES, NUMBER_LIMIT, texts_are_certificates_one_for_one};
use explain_plans::false_parts_report;
use formulas::{MAX_STEPS, formula_examples_are_judged, one_state, sure_literals_hold};
use task::{MAX_ARGUMENTS, MAX_OBJECTS, MAX_VARIABLES};
use tokens::LONGEST_TEXT;
use typing::{cycles_are_of_ancestors, examples_are_typed, supertypes_are_those_above};
use validator::{exactly_one_verdict_is_true, worked_examples_are_true};

#[test]
fn laws_of_reading_are_called() {
    tokens::one_reading();
    tokens::one_fault();
    pddl_tree::one_reading();
    pddl_tree::one_fault();
    pddl_tree::examples_are_as_reported();
    examples_are_typed();
    supertypes_are_those_above();
    cycles_are_of_ancestors();
    plan_file::one_plan();
    plan_file::one_fault();
    plan_file::examples_are_as_reported();
    plan_file::written_text_reads_back();
    plan_file::examples_are_written();
}

#[test]
fn laws_of_meaning_are_called() {
    one_state();
    sure_literals_hold();
    formula_examples_are_judged();
    exactly_one_verdict_is_true();
    worked_examples_are_true();
    false_parts_report();
}

#[test]
fn laws_of_certificates_are_called() {
    texts_are_certificates_one_for_one();
    written_certificates_read_back();
    closed_certificates_are_accepted();
    closed_claim_holds();
    solving_list_stays_listed();
    examples_are_judged();
}

const _: () = prove!(
    LONGEST_TEXT == 16_777_216 && MAX_STEPS == 16_777_216 && MAX_OBJECTS == 65_535
);

const _: () = prove!(MAX_ARGUMENTS == 8 && MAX_VARIABLES == 16);

const _: () = prove!(MAX_ATOMS == 1_048_576 && MAX_STATE_LINES == 16_777_216);

const _: () = prove!(NUMBER_LIMIT == 1_152_921_504_606_846_976);

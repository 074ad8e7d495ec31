//! Checks certificates: it accepts exactly those that are closed for the task, so their claims hold for every plan.
#![tactic(auto)]

mod cert_reader;
mod check_progress;
mod checker;
mod exchanges;
mod header;
mod landmark_lines;
mod laws;
mod listed_states;
mod named_atoms;
mod part_lines;
mod read_progress;
mod refusal;
mod table_lines;

pub use checker::{Accepted, check, check_and_say};
pub use laws::{
    closed_certificates_are_accepted, closed_claim_holds, examples_are_judged,
    solving_list_stays_listed, written_certificates_read_back,
};
pub use refusal::{Refusal, RefusalCode};

//! Reads the text of a certificate, line by line.
#![tactic(auto)]

mod exchanged;
mod fault;
mod first_word;
mod format;
mod landmark_lines;
mod laws;
mod line;
mod lower_names;
mod next;
mod number;
mod parsing;
mod part_line;
mod parts;
mod position;
mod reader;
mod ready;
mod stage;
mod state_line;
mod waiting;

pub use fault::TextFault;
pub use laws::{text_examples_are_judged, texts_are_certificates_one_for_one};
pub use line::{
    Basis, CertLine, Claim, LONGEST_LINE, MAX_ATOMS, MAX_CONSTANTS, MAX_STATE_LINES, MAX_SWAPS,
    MAX_WEIGHT, Mark, NUMBER_LIMIT, NamedAtom, StateLine, Version,
};
pub use number::is_weight;
pub use part_line::{MAX_ROWS, MAX_TABLES, PartLine};
pub use reader::{CertFault, CertReader};

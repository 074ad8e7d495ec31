//! A certificate in memory (the claim, what its lines rest on, and the listing as sets of numbers), and its unique text.
//!
//! It re-exports the reader of lines, the landmark values and the devices for texts.
#![tactic(auto)]

mod cert;
mod evidence;
mod header;
mod limits;
mod line_text;
mod listing;
mod states;
mod widening;
mod writer;

pub use cert::Cert;
pub use certificate_reader::{
    Basis, CertFault, CertLine, CertReader, Claim, LONGEST_LINE, MAX_ATOMS, MAX_CONSTANTS,
    MAX_ROWS, MAX_STATE_LINES, MAX_SWAPS, MAX_TABLES, MAX_WEIGHT, Mark, NUMBER_LIMIT, NamedAtom,
    PartLine, StateLine, TextFault, Version, text_examples_are_judged,
    texts_are_certificates_one_for_one,
};
pub use devices::{Device, DeviceFault, IoFault, Memory, Sink, Source, write_all};
pub use evidence::{Evidence, WrittenPotentials};
pub use header::Header;
pub use landmark_zones::{Landmarks, Share, ZoneRef};
pub use states::{Listed, States};
pub use writer::write_cert;

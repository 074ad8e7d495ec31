//! Explains the checker's answer to a certificate: what its refusal means, at which line, and by how much.
#![tactic(auto)]

mod gap;
mod lines;
mod meanings;
mod named_atom;
mod numbers;
mod words;

pub use words::{CheckedCert, words_of};

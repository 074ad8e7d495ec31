//! Splits a PDDL text into lexemes and words with their spans, and says which bytes are a name.
#![tactic(auto)]

mod form;
mod laws;
mod lexeme;
mod names;
mod run;
mod scanner;
mod word;

pub use form::{Form, part_end};
pub use laws::{one_fault, one_reading};
pub use lexeme::{Lexeme, Lexemes, Shape};
pub use names::is_name;
pub use scanner::{LONGEST_TEXT, scan};
pub use word::{Kind, Word};

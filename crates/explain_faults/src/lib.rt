//! Explains a fault of a text: its place, the line with marks, and a sentence of help.
#![tactic(auto)]

mod allowed;
mod explanation;
mod report;
mod same_mistake;
mod sentences;
mod words;
mod wrong;

pub use explain_hints::{CutTexts, File, FileRefusal, LineColumn, NamedText, NamedTexts};
pub use explanation::{FaultExplanation, explain_fault};
pub use same_mistake::are_of_one_mistake;
pub use wrong::{Nesting, WrongPlace};

//! Faults of texts, by number and place, the error for running out of memory, and memory for drafts that go on without it.
#![tactic(auto)]

mod code;
mod draft_memory;
mod refused;

pub use code::Code;
pub use draft_memory::DraftMemory;
pub use refused::{Fault, NoMemory, RefusalIn, Refused, Span, TextRefusal};

//! Enumerates the instances that are not statically inapplicable, and numbers the atoms.
#![tactic(auto)]

mod atoms;
mod changes;
mod fault;
mod initial;
mod joins;
mod kept;
mod numbering;
mod numbers;
mod parameters;
mod statics;

pub use atoms::MAX_ATOMS;
pub use changes::{Guard, KeptChanges, NumberedChange};
pub use fault::{GroundFault, GroundLimit};
pub use numbering::Numbering;
pub use numbers::NumberedLiteral;

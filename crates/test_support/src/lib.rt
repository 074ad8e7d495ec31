//! What tests share: devices that fail, files in memory, and texts of tasks.
#![tactic(auto)]

mod endless;
mod failing;
mod pieces;
mod table;
mod tasks;
mod texts;

pub use endless::Endless;
pub use failing::FailsAt;
pub use pieces::InPieces;
pub use table::Table;
pub use tasks::{Application, atom, atoms, instance, on_task};
pub use texts::{
    DONE, EACH_BOX, FORK, FOUR_BLOCKS, GO, HOP, PAIRS, PATH, SLIDE, SNAP, SOME_BOX, SPIN, STILL,
    SWAP, TIE, TRIP, Texts, UNTIED,
};

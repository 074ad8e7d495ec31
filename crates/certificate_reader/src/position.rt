//! The position of a reader.
ghost use Rattle.std.specs.Prelude.{◌≡◌, IsTrue};
ghost use Rattle.certificate_reader.specs.Stages.{IsWithin, place_of};

use crate::stage::Stage;

/// The number of lines returned, and the stage of the next line.
#[derive(Clone, Copy)]
pub(crate) struct Position {
    /// The number of lines returned; it saturates at the maximum of 64 bits.
    pub(crate) lines: u64,
    /// The stage of the next line.
    pub(crate) stage: Stage,
    ghost within: { IsWithin (place_of stage) },
}

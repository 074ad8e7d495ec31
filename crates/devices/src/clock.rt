//! What a clock is.

use crate::memory::Memory;
use crate::progress::Unheard;

/// A clock that has run since some start, such as the program's. No contract says what it shows, so nothing that is proved rests on
/// the time.
pub trait Clock {
    /// The whole seconds since its start.
    fn seconds(&self) -> u64;
}

/// The clock beside bytes in memory stands still.
impl Clock for Memory {
    fn seconds(&self) -> u64 {
        0
    }
}

/// The clock of a sink that discards everything stands still.
impl Clock for Unheard {
    fn seconds(&self) -> u64 {
        0
    }
}

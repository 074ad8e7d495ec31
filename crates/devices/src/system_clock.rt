//! The machine's clock.

use crate::clock::Clock;
use std::rt;
use std::time::Instant;

/// The clock of a runtime, read once at its start.
#[derive(Drop)]
pub struct SystemClock<'a, R> {
    runtime: &'a R,
    /// `None` if it could not be read.
    start: Option<Instant>,
}

impl<'a, R: rt::Clock> SystemClock<'a, R> {
    /// The runtime's clock, which starts now.
    pub fn start(runtime: &'a R) -> SystemClock<'a, R> {
        let start = Instant::now(runtime).ok();
        SystemClock { runtime, start }
    }
}

impl<R: rt::Clock> Clock for SystemClock<'_, R> {
    /// A clock that cannot be read shows the greatest number, so that a limit of time is over instead of never being reached.
    fn seconds(&self) -> u64 {
        let Some(start) = self.start else {
            return u64::MAX;
        };
        match start.elapsed(self.runtime) {
            Ok(passed) => passed.as_secs(),
            Err(_) => u64::MAX,
        }
    }
}

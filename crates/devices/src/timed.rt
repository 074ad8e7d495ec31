//! Sinks that have a clock.
ghost use Rattle.std.specs.Prelude.{◌≡◌};

use crate::clock::Clock;
use crate::device::{IoFault, Sink};

/// A sink beside a clock.
#[derive(Drop)]
pub struct Timed<S, C> {
    /// The sink.
    pub sink: S,
    /// The clock.
    pub clock: C,
}

impl<S: Sink, C> Sink for Timed<S, C> {
    ghost failures = { λ timed. S.failures timed.sink };

    ghost taken = { λ timed. S.taken timed.sink };

    ghost write_count = { λ timed. S.write_count timed.sink };

    ghost may_lack_memory = { S.may_lack_memory };

    ghost name = { λ timed. S.name timed.sink };

    fn write(&mut self, piece: &[u8]) -> Result<usize, IoFault> {
        self.sink.write(piece)
    }
}

impl<S, C: Clock> Clock for Timed<S, C> {
    fn seconds(&self) -> u64 {
        self.clock.seconds()
    }
}

/// A sink that discards everything, beside a clock that is only lent.
#[derive(Drop)]
pub struct Quiet<'a, C>(pub &'a C);

impl<C> Sink for Quiet<'_, C> {
    ghost use Rattle.std.specs.Prelude.{None};

    ghost failures = { λ _. 0 };

    ghost taken = { λ _. None };

    fn write(&mut self, piece: &[u8]) -> Result<usize, IoFault> {
        Ok(piece.len())
    }
}

impl<C: Clock> Clock for Quiet<'_, C> {
    fn seconds(&self) -> u64 {
        self.0.seconds()
    }
}

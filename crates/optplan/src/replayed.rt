//! A source whose bytes can be read a second time.
ghost use Rattle.std.specs.Prelude.{◌≡◌, ◌≤◌, vec_len, [], ℕ};

use devices::{DeviceFault, Source, fill};
use std::alloc::Global;

/// How many bytes are kept: as many as are read of a text.
const MOST_KEPT: usize = 16_777_217;

/// The bytes that were read of a source, as far as they are kept.
#[derive(Drop)]
pub struct Kept {
    bytes: Vec<u8>,
    rest: Rest,
}

/// What follows the kept bytes.
#[derive(Clone, Copy, Debug, PartialEq, Eq)]
enum Rest {
    /// What the source has still to give.
    Coming,
    /// Nothing.
    Ended,
    /// Bytes that were read and are not kept: memory for them was refused.
    Lost,
}

impl Kept {
    /// Nothing was read yet.
    pub(crate) fn nothing(alloc: Global) -> Kept {
        Kept {
            bytes: Vec::new(alloc),
            rest: Rest::Coming,
        }
    }

    /// Whether bytes are missing, as memory for them was refused.
    pub(crate) fn is_lost(&self) -> bool {
        self.rest == Rest::Lost
    }

    /// Keeps what was read next; nothing of it is the end.
    fn add(&mut self, bytes: &[u8]) {
        if bytes.is_empty() {
            self.rest = Rest::Ended;
            return;
        }
        let room = MOST_KEPT.saturating_sub(self.bytes.len()).min(bytes.len());
        if self.bytes.extend_from_slice(&bytes[..room]).is_err() {
            self.rest = Rest::Lost;
        }
    }
}

/// A source that gives first what was kept of it, and keeps what it gives then, up to 16,777,217 bytes.
#[derive(Drop)]
pub struct Replayed<S> {
    source: S,
    kept: Kept,
    /// How many of the kept bytes were given.
    next: usize,
    ghost in_range: { next ≤ vec_len kept.bytes },
}

impl<S: Source> Replayed<S> {
    /// The source, from its first byte on. These bytes were read of it before.
    pub(crate) fn new(source: S, kept: Kept) -> Replayed<S>
        ensures { ⟦<Replayed<S> as Source>⟧.failures result ≡ S.failures source }
    {
        Replayed {
            source,
            kept,
            next: 0,
        }
    }

    /// The source, and what is kept of it.
    pub(crate) fn into_parts(self) -> (S, Kept)
        ensures { S.failures result.0 ≡ ⟦<Replayed<S> as Source>⟧.failures self }
    {
        let Replayed { source, kept, .. } = self;
        (source, kept)
    }
}

impl<S: Source> Source for Replayed<S> {
    ghost failures = { λ replayed. S.failures replayed.source };

    fn read(&mut self, into: &mut [u8]) -> Result<usize, DeviceFault> {
        if self.next < self.kept.bytes.len() {
            let count = fill(into, &self.kept.bytes.as_slice()[self.next..]);
            self.next += count;
            return Ok(count);
        }
        if self.kept.rest == Rest::Ended {
            return Ok(0);
        }
        let count = self.source.read(into)?;
        if !into.is_empty() {
            self.kept.add(&into[..count]);
            self.next = self.kept.bytes.len();
        }
        Ok(count)
    }
}

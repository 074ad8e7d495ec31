//! A device in memory.
ghost use Rattle.std.specs.Prelude.{◌≡◌, ◌≤◌, ◌++◌, drop, length, min, take, vec_len, Some, []};

use crate::device::{DeviceFault, IoFault, Sink, Source};
use std::alloc::Global;

/// A device over bytes in memory: reads give the rest of them, and writes append. It never fails.
#[derive(Drop)]
pub struct Memory {
    bytes: Vec<u8>,
    next: usize,
    ghost in_range: { next ≤ vec_len bytes },
}

impl Memory {
    /// A source of these bytes, and a sink that holds them.
    pub fn new(bytes: Vec<u8>) -> Memory
        ensures source { ⟦<Memory as Source>⟧.remaining result ≡ Some bytes.items }
        ensures sink { ⟦<Memory as Sink>⟧.taken result ≡ Some bytes.items }
    {
        Memory { bytes, next: 0 }
    }

    /// An empty sink.
    pub fn empty(alloc: Global) -> Memory
        ensures { ⟦<Memory as Sink>⟧.taken result ≡ Some [] }
    {
        Memory::new(Vec::new(alloc))
    }

    /// All its bytes, including those already read.
    pub fn as_slice(&self) -> &[u8]
        ensures { Some result.now ≡ ⟦<Memory as Sink>⟧.taken self.now }
    {
        self.bytes.as_slice()
    }

    /// All its bytes, including those already read.
    pub fn into_vec(self) -> Vec<u8>
        ensures { Some result.items ≡ ⟦<Memory as Sink>⟧.taken self }
    {
        self.bytes
    }
}

impl Source for Memory {
    ghost failures = { λ device. 0 };

    ghost remaining = { λ device. Some (drop device.next device.bytes.items) };

    ghost read_count = { λ device room. Some (min room (length (drop device.next device.bytes.items))) };

    fn read(&mut self, into: &mut [u8]) -> Result<usize, DeviceFault> {
        let count = fill(into, &self.bytes.as_slice()[self.next..]);
        self.next += count;
        Ok(count)
    }
}

impl Sink for Memory {
    ghost failures = { λ device. 0 };

    ghost taken = { λ device. Some device.bytes.items };

    ghost write_count = { λ _ piece. Some piece };

    fn write(&mut self, piece: &[u8]) -> Result<usize, IoFault> {
        match self.bytes.extend_from_slice(piece) {
            Ok(()) => Ok(piece.len()),
            Err(_) => Err(IoFault::NoMemory),
        }
    }
}

/// Copies as many of the bytes as fit to the beginning of the buffer, and returns how many. The rest of the buffer is unchanged.
pub fn fill(into: &mut [u8], bytes: &[u8]) -> usize
    ensures count { result ≡ min (length into.old) (length bytes.now) }
    ensures room { into.new ≡ take (length into.old) bytes.now ++ drop (length bytes.now) into.old }
{
    let count = bytes.len().min(into.len());
    into[..count].copy_from_slice(&bytes[..count]);
    count
}

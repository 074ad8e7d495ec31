//! The buffer between a source and its reader.
ghost use Rattle.std.specs.Prelude.{◌≡◌, ◌≤◌, ◌++◌, drop, take, Err, IfOk, length, OnOk, position, []};
ghost use Rattle.std.specs.List.{position_or_len};
ghost use Rattle.certificate_reader.specs.Ends.{is_end};
ghost use Rattle.devices.specs.Devices.{CountsDevice, ReadsSome};
ghost use Rattle.devices.specs.declared.device.IoFault.TheVariants.{Device as device_failed};

use devices::{IoFault, Source};
use std::alloc::{AllocError, Global};

/// The number of bytes requested at a time.
const PIECE: usize = 65_536;

/// The bytes that were read and not yet consumed.
#[derive(Drop)]
pub(crate) struct Waiting {
    alloc: Global,
    held: Vec<u8>,
    start: usize,
    // How many of the buffered bytes are known to contain no LF.
    passed_over: usize,
    room: Vec<u8>,
    ghost starts_within: { start ≤ length held.items },
    ghost no_end_before: { passed_over ≤ position_or_len is_end (drop start held.items) },
}

impl Waiting {
    ghost use Rattle.certificate_reader.specs.Waiting.{IsKept, waiting_of};

    /// An empty buffer.
    pub(crate) fn new(alloc: Global) -> Waiting
        ensures { waiting_of result ≡ [] }
    {
        Waiting {
            alloc,
            held: Vec::new(alloc),
            start: 0,
            passed_over: 0,
            room: Vec::new(alloc),
        }
    }

    /// The buffered bytes.
    pub(crate) fn bytes(&self) -> &[u8]
        ensures { result.now ≡ waiting_of self.now }
    {
        &self.held[self.start..]
    }

    /// The index of the first LF. Each byte is examined once.
    pub(crate) fn line_end(&mut self) -> Option<usize>
        ensures end { result ≡ position is_end (waiting_of self.old) }
        ensures kept { waiting_of self.new ≡ waiting_of self.old }
    {
        let end = end_after(self.bytes(), self.passed_over);
        if end.is_none() {
            self.passed_over = self.bytes().len();
        }
        end
    }

    /// Consumes this many bytes.
    pub(crate) fn pass(&mut self, count: usize)
        requires { count ≤ length (waiting_of self.old) }
        ensures { waiting_of self.new ≡ drop count (waiting_of self.old) }
    {
        self.start += count;
        self.passed_over = 0;
    }

    /// Reads once, appending to the buffer, and returns how many bytes came.
    pub(crate) fn fill<S: Source>(&mut self, source: &mut S) -> Result<usize, IoFault>
        ensures ok { IfOk result (λ count. ReadsSome 65536 count (S.remaining source.old) (S.remaining source.new) (waiting_of self.old) (waiting_of self.new)) }
        ensures device { result ≡ Err device_failed → IsKept (S.remaining source.old) (S.remaining source.new) (waiting_of self.old) (waiting_of self.new) }
        ensures failures { CountsDevice (S.failures source.old) (S.failures source.new) result }
    {
        self.forget();
        self.make_room()?;
        let count = source.read(self.room.as_mut_slice())?;
        self.hold(count)?;
        Ok(count)
    }

    /// Appends this many bytes of the read buffer.
    fn hold(&mut self, count: usize) -> Result<(), AllocError>
        requires { count ≤ length self.old.room.items }
        ensures { OnOk result (waiting_of self.new ≡ waiting_of self.old ++ take count self.old.room.items) }
    {
        self.held.extend_from_slice(&self.room[..count])
    }

    /// Allocates the read buffer, once.
    fn make_room(&mut self) -> Result<(), AllocError>
        ensures room { OnOk result (length self.new.room.items ≡ 65536) }
        ensures kept { waiting_of self.new ≡ waiting_of self.old }
    {
        if self.room.len() == PIECE {
            return Ok(());
        }
        self.room = vec![in self.alloc; 0u8; PIECE]?;
        Ok(())
    }

    /// Discards the consumed bytes.
    fn forget(&mut self)
        ensures { waiting_of self.new ≡ waiting_of self.old }
    {
        self.held.drain(..self.start);
        self.start = 0;
    }
}

/// The index of the first LF, given that the first `passed_over` bytes contain none.
#[tactic(auto, using(crate::proofs::FirstPlaces::first_within))]
fn end_after(bytes: &[u8], passed_over: usize) -> Option<usize>
    requires { passed_over ≤ position_or_len is_end bytes.now }
    ensures { result ≡ position is_end bytes.now }
{
    match first_end(rest_from(bytes, passed_over)) {
        Some(following) => Some(passed_over + following),
        None => None,
    }
}

/// The index of the first LF.
fn first_end(bytes: &[u8]) -> Option<usize>
    ensures { result ≡ position is_end bytes.now }
{
    bytes.iter().position(|byte| *byte == b'\n')
}

/// The bytes from this index on.
fn rest_from(bytes: &[u8], place: usize) -> &[u8]
    requires { place ≤ length bytes.now }
    ensures { result.now ≡ drop place bytes.now }
{
    &bytes[place..]
}

//! The open list of a search: the waiting states, in the order in which they are expanded.
//!
//! Most sums are small. An entry whose sum is below 2^20 is one word of sum, estimate and place, from the highest bits down: it takes
//! 8 bytes, and words compare as their entries do. These entries have a heap of their own, and come before all others.
ghost use Rattle.std.specs.Prelude.{◌≡◌, ◌+◌, ◌*◌, ◌≤◌, ◌<◌, [], ◌∷◌, length, All, IsPermutation, IfNone, IfSome, OnOk, false};
ghost use Rattle.std.specs.Ordering.{is_lt};
ghost use Rattle.search.specs.Nodes.{sum_of, estimate_of, place_of, entry_at, IsEntry};
ghost use Rattle.search.specs.OpenList.{by_sum, entry_of, waiting_in, AreNoted, IsLeastSum, IsNoted, IsOpenList, Joins};

use crate::best::MAX_STATES;
use crate::nodes::{Node, StateId};
use faults::NoMemory;
use std::alloc::Global;
use std::cmp::Reverse;
use std::collections::BinaryHeap;

/// A waiting state: the sum of its cost and estimate, its estimate, and its place. The greatest entry comes next: that of the least
/// sum, then of the least estimate, then of the least place.
pub(crate) type OpenListEntry = Reverse<(u64, u64, StateId)>;

/// Sums of near entries are below this, and so are their estimates.
const FAR: u64 = 1_048_576;

/// Places are below this.
const PLACES: u64 = 16_777_216;

/// The waiting states. Entries may be stale.
pub(crate) struct OpenList {
    /// The entries of small sums, each in one word.
    near: BinaryHeap<Reverse<u64>>,
    /// The others.
    far: BinaryHeap<OpenListEntry>,
}

impl Drop for OpenList {
    fn drop(self) {
        let Self { near: _, far: _ } = self;
    }
}

impl OpenList {
    /// An empty open list.
    pub(crate) fn new(alloc: Global) -> OpenList
        ensures none { waiting_in result ≡ [] }
        ensures open_list { IsOpenList result }
    {
        OpenList {
            near: BinaryHeap::new(alloc),
            far: BinaryHeap::new(alloc),
        }
    }

    /// Adds an entry.
    ///
    /// # Errors
    /// Memory is refused.
    pub(crate) fn push(&mut self, entry: OpenListEntry) -> Result<(), NoMemory>
        requires part { estimate_of entry ≤ sum_of entry }
        requires place { place_of entry < MAX_STATES }
        ensures { OnOk result (Joins self.old self.new entry) }
    {
        let Reverse((sum, estimate, id)) = entry;
        if sum < FAR {
            self.near.push(Reverse(word_of(sum, estimate, id)))?;
        } else {
            self.far.push(entry)?;
        }
        Ok(())
    }

    /// Removes the entry that comes next.
    pub(crate) fn pop(&mut self) -> Option<OpenListEntry>
        ensures none { IfNone result (waiting_in self.old ≡ []) }
        ensures permutation { IfSome result (λ w. IsPermutation (waiting_in self.old) (w ∷ waiting_in self.new)) }
        ensures order { IfSome result (λ w.
            IsOpenList self.old → IsOpenList self.new × All (λ x. is_lt (by_sum w x) ≡ false) (waiting_in self.old)) }
    {
        match self.near.pop() {
            Some(Reverse(word)) => Some(entry_in(word)),
            None => self.far.pop(),
        }
    }

    /// The sum of the entry that comes next.
    pub(crate) fn least_sum(&self) -> Option<u64>
        ensures { IsLeastSum self.now result }
    {
        match self.near.peek() {
            Some(Reverse(word)) => Some(entry_in(*word).0.0),
            None => match self.far.peek() {
                Some(Reverse((sum, _, _))) => Some(*sum),
                None => None,
            },
        }
    }

    /// Writes the estimate of each waiting state to the state's place. Stale entries change nothing.
    pub(crate) fn note_estimates(&self, nodes: &[Node], estimates: &mut [u64])
        requires entries { All (IsEntry (length nodes.now)) (waiting_in self.now) }
        requires one_each { length estimates.old ≡ length nodes.now }
        ensures { AreNoted nodes.now (waiting_in self.now) estimates.old estimates.new }
    {
        for &Reverse(word) in self.near.as_slice() {
            note_estimate(entry_in(word), nodes, estimates);
        }
        for &entry in self.far.as_slice() {
            note_estimate(entry, nodes, estimates);
        }
    }
}

/// Writes the entry's estimate to its state's place, unless the entry is stale.
fn note_estimate(entry: OpenListEntry, nodes: &[Node], estimates: &mut [u64])
    requires entry { IsEntry (length nodes.now) entry }
    requires one_each { length estimates.old ≡ length nodes.now }
    ensures { IsNoted nodes.now entry estimates.old estimates.new }
{
    let Reverse((sum, estimate, id)) = entry;
    let node = nodes[id.0 as usize];
    if !node.is_expanded() && node.cost == sum - estimate {
        estimates[id.0 as usize] = estimate;
    }
}

/// The word of a near entry.
fn word_of(sum: u64, estimate: u64, id: StateId) -> u64
    requires near { sum < 1048576 }
    requires part { estimate ≤ sum }
    requires place { id.0 < MAX_STATES }
    ensures { result ≡ (sum * 1048576 + estimate) * 16777216 + id.0 }
{
    (sum * FAR + estimate) * PLACES + u64::from(id.0)
}

/// The entry of a word.
fn entry_in(word: u64) -> OpenListEntry
    ensures { result ≡ entry_of (record { 0 = word }) }
{
    let upper = word / PLACES;
    Reverse((upper / FAR, upper % FAR, StateId((word % PLACES) as u32)))
}

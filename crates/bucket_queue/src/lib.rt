//! A queue of numbers by their keys, for drafts: small keys have a bucket each, and the others are in a heap.
#![tactic(auto)]

use faults::DraftMemory;
use std::cmp::Reverse;
use std::collections::BinaryHeap;

/// Keys below this have a bucket each.
const NEAR: u32 = 4096;

/// A number that waits, with its key.
#[derive(Clone, Copy)]
pub struct Queued {
    /// The number with the least key comes first.
    pub key: u64,
    /// The number.
    pub number: u32,
}

/// The numbers that wait: those of small keys in buckets (Dial 1969, "Algorithm 360: Shortest-Path Forest with Topological
/// Ordering"), and the others in a heap.
#[derive(Drop)]
pub struct BucketQueue {
    buckets: Vec<Vec<u32>>,
    /// No bucket before this one has a number.
    first: usize,
    /// The count of numbers in buckets.
    near: usize,
    /// The others, each after its key.
    far: BinaryHeap<Reverse<(u64, u32)>>,
}

impl BucketQueue {
    /// A queue in which nothing waits.
    pub fn new(memory: &DraftMemory) -> BucketQueue {
        let mut buckets = memory.list();
        for _ in 0..NEAR {
            memory.push(&mut buckets, memory.list());
        }
        BucketQueue {
            buckets,
            first: 0,
            near: 0,
            far: BinaryHeap::new(memory.alloc()),
        }
    }

    /// Adds a number.
    pub fn push(&mut self, memory: &DraftMemory, queued: Queued) {
        let place = usize::try_from(queued.key).unwrap_or(usize::MAX);
        if place < self.buckets.len() {
            memory.push(&mut self.buckets[place], queued.number);
            if self.near == 0 || place < self.first {
                self.first = place;
            }
            self.near = self.near.saturating_add(1);
        } else {
            memory.kept(self.far.push(Reverse((queued.key, queued.number))));
        }
    }

    /// Removes a number of the least key.
    pub fn pop(&mut self) -> Option<Queued> {
        if self.near > 0 {
            for place in self.first..self.buckets.len() {
                if let Some(number) = self.buckets[place].pop() {
                    self.first = place;
                    self.near = self.near.saturating_sub(1);
                    let key = place as u64;
                    return Some(Queued { key, number });
                }
            }
        }
        match self.far.pop() {
            Some(Reverse((key, number))) => Some(Queued { key, number }),
            None => None,
        }
    }

    /// Removes all numbers.
    pub fn clear(&mut self) {
        if self.near > 0 {
            for bucket in self.buckets.iter_mut() {
                bucket.clear();
            }
        }
        self.near = 0;
        self.far.clear();
    }
}

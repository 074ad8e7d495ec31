//! What instances are charged by a value, zone by zone.
ghost use Rattle.std.specs.Prelude.{◌≡◌, ℕ, ◌+◌, ◌<◌, ◌≤◌, ◌==◌, IfOk, if◌then◌else◌, length, nat_le, slice_set};
ghost use Rattle.landmarks.specs.Counters.{AreCounters, charged_at, counter_at};

use faults::NoMemory;
use std::alloc::Global;

/// The latest time at which a value begins: there is time for 67,108,864 zones after it.
const LATEST: u32 = 2_147_483_648;

/// What an instance is charged, and when.
#[derive(Clone, Copy)]
pub(crate) struct Counter {
    /// The time of the zone at which it was last looked at.
    pub(crate) seen: u32,
    /// What it is charged by the value of this time, up to this zone.
    pub(crate) charged: u32,
}

/// A counter for each instance. Time passes with each zone: what was counted before a value began counts for nothing, so that no
/// counter is cleared, and a value costs what its zones touch.
#[derive(Drop)]
pub(crate) struct Counters {
    pub(crate) counters: Vec<Counter>,
    /// When the value began.
    pub(crate) start: u32,
    /// The time of the zone.
    pub(crate) clock: u32,
}

impl Counters {
    /// Counters for this many instances.
    pub(crate) fn new(alloc: Global, count: usize) -> Result<Counters, NoMemory>
        ensures { IfOk result (AreCounters count) }
    {
        let counter = Counter {
            seen: 0,
            charged: 0,
        };
        let counters = vec![in alloc; counter; count]?;
        Ok(Counters {
            counters,
            start: 0,
            clock: 0,
        })
    }

    /// Begins a value: no instance is charged anything.
    pub(crate) fn begin(&mut self)
        ensures counted { (count : ℕ) → AreCounters count self.old → AreCounters count self.new }
        ensures begun { self.new.start ≡ self.new.clock }
        ensures early { self.new.clock ≤ 2147483648 }
    {
        if self.clock > LATEST {
            self.clear();
            return;
        }
        self.start = self.clock;
    }

    /// Begins a value at time 0.
    fn clear(&mut self)
        ensures long { length self.new.counters.items ≡ length self.old.counters.items }
        ensures unseen { (number : ℕ) → (counter_at self.new number).seen ≡ 0 }
        ensures start { self.new.start ≡ 0 }
        ensures clock { self.new.clock ≡ 0 }
    {
        for place in 0..self.counters.len() {
            self.counters[place] = Counter {
                seen: 0,
                charged: 0,
            };
        }
        self.start = 0;
        self.clock = 0;
    }

    /// Continues with the next zone.
    pub(crate) fn tick(&mut self)
        requires { self.old.clock < 4294967295 }
        ensures clock { self.new.clock ≡ self.old.clock + 1 }
        ensures start { self.new.start ≡ self.old.start }
        ensures counters { self.new.counters.items ≡ self.old.counters.items }
    {
        self.clock += 1;
    }

    /// Whether the instance has been looked at for this zone.
    pub(crate) fn is_seen(&self, number: u32) -> bool
        requires { number < length self.now.counters.items }
        ensures { result ≡ ((counter_at self.now number).seen == self.now.clock) }
    {
        self.counters[number as usize].seen == self.clock
    }

    /// Charges the instance this much more for the zone, unless it is then charged more than `most`. Whether it is not.
    pub(crate) fn charge(&mut self, number: u32, weight: u32, most: u32) -> bool
        requires { number < length self.old.counters.items }
        ensures within { result ≡ nat_le (charged_at self.old number + weight) most }
        ensures counters { self.new.counters.items ≡ (if result then slice_set self.old.counters.items number (record { seen = self.old.clock; charged = charged_at self.old number + weight }) else self.old.counters.items) }
        ensures start { self.new.start ≡ self.old.start }
        ensures clock { self.new.clock ≡ self.old.clock }
    {
        let charged = u64::from(self.charged(number)) + u64::from(weight);
        if charged > u64::from(most) {
            return false;
        }
        self.counters[number as usize] = Counter {
            seen: self.clock,
            charged: charged as u32,
        };
        true
    }

    /// What the instance is charged so far.
    fn charged(&self, number: u32) -> u32
        requires { number < length self.now.counters.items }
        ensures { result ≡ charged_at self.now number }
    {
        let counter = self.counters[number as usize];
        if counter.seen > self.start {
            counter.charged
        } else {
            0
        }
    }
}

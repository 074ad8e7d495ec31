//! The clock of a case.
use devices::Clock;
use std::cell::Cell;

/// A clock that answers its first questions with 0 seconds, and each later one with more than any limit.
#[derive(Drop)]
pub struct CaseClock {
    asked: Cell<u32>,
    /// The number of questions that are answered by 0.
    early: u32,
}

impl CaseClock {
    /// A clock that answers this number of questions with 0 seconds.
    pub fn new(early: u32) -> CaseClock {
        CaseClock {
            asked: Cell::new(0),
            early,
        }
    }
}

impl Clock for CaseClock {
    fn seconds(&self) -> u64 {
        let asked = self.asked.get();
        if asked < self.early {
            self.asked.set(asked + 1);
            return 0;
        }
        u64::MAX
    }
}

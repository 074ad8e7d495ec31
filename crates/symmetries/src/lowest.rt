//! The lowest numbers of a growing set.
ghost use Rattle.std.specs.Prelude.{◌≡◌, ◌≤◌, ℕ, true};
ghost use Rattle.symmetries.specs.Lowest.{may_move};

use arrayvec::ArrayVec;

/// Numbers kept, at most.
pub(crate) const MOST: usize = 4;

/// The lowest numbers of a set of exchanges.
#[derive(Drop)]
pub(crate) struct Lowest {
    /// In ascending order.
    pub(crate) numbers: ArrayVec<usize, MOST>,
    /// Members of the set below this number are all kept.
    pub(crate) from: usize,
}

impl Lowest {
    /// The empty set.
    pub(crate) fn new() -> Lowest {
        Lowest {
            numbers: ArrayVec::new(),
            from: usize::MAX,
        }
    }

    /// Adds a number, which is above all others.
    pub(crate) fn note(&mut self, number: usize)
        ensures kept { (n : ℕ) → may_move self.old n ≡ true → may_move self.new n ≡ true }
        ensures noted { may_move self.new number ≡ true }
    {
        if self.numbers.is_full() {
            self.from = self.from.min(number);
        } else {
            self.numbers.push(number);
        }
    }

    /// A lower bound of the members that are at least `start`; the least of them if it is kept.
    pub(crate) fn first_from(&self, start: usize) -> usize
        ensures { (n : ℕ) → may_move self.now n ≡ true → start ≤ n → result ≤ n }
    {
        let mut first = self.from.max(start);
        for &number in self.numbers.as_slice() {
            if number >= start {
                first = first.min(number);
            }
        }
        first
    }
}

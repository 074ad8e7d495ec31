//! Values that are found for a single state, when its turn comes.
//!
//! Some values are too dear to be found for each state that is reached. A search asks for them only where it would expand the state; if
//! the value is higher than the one by which the state waited, the state waits again instead (lazy A*: Zhang & Bacchus, MAXSAT
//! Heuristics for Cost Optimal Planning, 2012; Tolpin, Beja, Shimony, Felner & Karpas, Towards Rational Deployment of Multiple
//! Heuristics in A*, 2013).
ghost use Rattle.std.specs.Prelude.{◌≡◌, ◌<◌, ◌^◌, ℕ, Bool, false, List, IfOk, length};
ghost use Rattle.model.specs.Runs.{System};
ghost use Rattle.packed_state.specs.Packed.{bits_of};
ghost use Rattle.search.specs.Estimates.{IsLowerBound};
ghost use Rattle.search.specs.OnDemand.{IsAnswer};

use crate::guide::Guide;
use faults::NoMemory;
use packed_state::Packed;

/// Where a value comes from: a number that the side that is asked gave to it, and gets back with the next question. To a search it is a
/// hint, of which nothing is promised. A certificate's line can name it, once it is tested there.
#[derive(Clone, Copy, Debug, PartialEq, Eq)]
pub struct Basis(pub u32);

/// The answer to a question for the value of a state.
#[derive(Clone, Copy, Debug, PartialEq, Eq)]
pub enum Answer {
    /// Nothing better is known.
    Nothing,
    /// The remaining cost is at least this value, which is higher. It comes from this basis.
    Raised(Basis, u64),
    /// No list of actions leads from it to the goal, which comes from this basis.
    Dead(Basis),
}

/// Values of single states, found on demand.
///
/// Each is a lower bound of the state's remaining cost, which is a fact of the system and stays one. A value comes from a basis, by which
/// other states have values too: so a state that is found later has one by the basis of its parent. A basis may be forgotten at any time,
/// and then gives 0.
pub trait ValuesOnDemand {
    ghost width_of: { Self → ℕ };

    ghost system_of: { Self → System (List Bool) ℕ };

    // whether anything is ever answered
    ghost answers: { Bool };

    /// The state's value by a basis. It should take little time: it is asked of each state that is reached from one with a basis.
    fn value(&self, basis: Basis, state: &Packed) -> u64
        requires width { length (bits_of state.now) ≡ width_of self.now }
        ensures bound { IsLowerBound (system_of self.now) (bits_of state.now) result }
        ensures fits { result < 2 ^ 63 }
        ensures silent { answers ≡ false → result ≡ 0 };

    /// Whether bases should be forgotten before the next question, since they take too much memory.
    fn is_full(&self) -> bool;

    /// Forgets bases, best those whose number is not marked as used: no state that waits or is dead has its value from them.
    fn forget(&mut self, used: &[bool])
        ensures width { width_of self.new ≡ width_of self.old }
        ensures system { system_of self.new ≡ system_of self.old };

    /// Asked of the state at this place, which has this value, from this basis or from none. It was never expanded.
    ///
    /// If it is raised, it is asked again when its turn comes again. By its place and its basis it can be known that nothing is to be
    /// added.
    ///
    /// # Errors
    /// Memory is refused.
    fn ask(
        &mut self,
        state: &Packed,
        place: u32,
        value: u64,
        basis: Option<Basis>,
    ) -> Result<Answer, NoMemory>
        requires width { length (bits_of state.now) ≡ width_of self.old }
        ensures width { width_of self.new ≡ width_of self.old }
        ensures system { system_of self.new ≡ system_of self.old }
        ensures answer { IfOk result (IsAnswer answers (system_of self.old) (bits_of state.now) value) };
}

/// No values on demand: a search by its guide alone.
#[derive(Clone, Copy)]
pub struct GuideAlone<'a, G>(pub &'a G);

impl<G: Guide> ValuesOnDemand for GuideAlone<'_, G> {
    ghost width_of = { λ values. G.width_of values.0.now };

    ghost system_of = { λ values. G.system_of values.0.now };

    ghost answers = { false };

    fn value(&self, _basis: Basis, _state: &Packed) -> u64 {
        0
    }

    fn is_full(&self) -> bool {
        false
    }

    fn forget(&mut self, _used: &[bool]) {}

    fn ask(
        &mut self,
        _state: &Packed,
        _place: u32,
        _value: u64,
        _basis: Option<Basis>,
    ) -> Result<Answer, NoMemory> {
        Ok(Answer::Nothing)
    }
}

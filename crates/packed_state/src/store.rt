//! Stores of states: lists of distinct sets of one width, in which a set's place is looked up.
ghost use Rattle.std.specs.Prelude.{◌≡◌, ℕ, ◌<◌, Bool, List, length, slice_get, Contains, MatchOption, IfOk, OnErr};
ghost use Rattle.packed_state.specs.Packed.{bits_of};
ghost use Rattle.packed_state.specs.Store.{AreDistinct, IsPlaced};

use crate::packed::Packed;
use faults::NoMemory;

/// A list of distinct sets of one width that grows at its end. Places are counted from 0.
pub trait StateStore: Drop {
    ghost width_of: { Self → ℕ };

    ghost states: { Self → List (List Bool) };

    /// The width of each set.
    fn width(&self) -> u32
        ensures { result ≡ width_of self.now };

    /// The number of sets.
    fn len(&self) -> usize
        ensures { result ≡ length (states self.now) };

    /// Copies the set at this place into `into`.
    fn get(&self, place: u32, into: &mut Packed)
        requires there { place < length (states self.now) }
        requires width { length (bits_of into.old) ≡ width_of self.now }
        ensures set { slice_get (states self.now) place ≡ Some (bits_of into.new) }
        ensures width { length (bits_of into.new) ≡ width_of self.now };

    /// The place of the set, if it is in the list.
    fn find(&self, state: &Packed) -> Option<u32>
        requires { length (bits_of state.now) ≡ width_of self.now }
        ensures { MatchOption result
            (¬ Contains (states self.now) (bits_of state.now))
            (λ place. slice_get (states self.now) place ≡ Some (bits_of state.now)) };

    /// The place of the set, and whether it was new: a copy of a new set is appended.
    ///
    /// # Errors
    /// Memory was refused: the list is as it was.
    fn insert_copy_if_new(&mut self, state: &Packed) -> Result<(u32, bool), NoMemory>
        requires width { length (bits_of state.now) ≡ width_of self.old }
        requires room { length (states self.old) < 16777216 }
        ensures width { width_of self.new ≡ width_of self.old }
        ensures ok { IfOk result (λ r. IsPlaced (states self.old) (states self.new) (bits_of state.now) r.0 r.1) }
        ensures err { OnErr result (states self.new ≡ states self.old) };

    /// The place of the set, and whether it was new: a new set is appended.
    ///
    /// # Errors
    /// Memory was refused: the list is as it was.
    fn insert_if_new(&mut self, state: Packed) -> Result<(u32, bool), NoMemory>
        requires width { length (bits_of state) ≡ width_of self.old }
        requires room { length (states self.old) < 16777216 }
        ensures width { width_of self.new ≡ width_of self.old }
        ensures ok { IfOk result (λ r. IsPlaced (states self.old) (states self.new) (bits_of state) r.0 r.1) }
        ensures err { OnErr result (states self.new ≡ states self.old) }
    {
        self.insert_copy_if_new(&state)
    }

    /// Whether look-ups mostly wait for memory, so that it pays to [`touch`](StateStore::touch) the keys of several first.
    fn is_large(&self) -> bool {
        false
    }

    /// The key by which a set is looked up.
    fn key(&self, _state: &Packed) -> u32 {
        0
    }

    /// Reads where the look-ups of these keys begin. These reads depend on nothing, so the processor waits for many of them at a
    /// time. The answer means nothing: it is there so that no read is left out as useless.
    fn touch(&self, _keys: &[u32]) -> u32 {
        0
    }

    ghost distinct: { (store : Self) → AreDistinct (states store) };
}

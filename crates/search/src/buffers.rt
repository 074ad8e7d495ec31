//! Buffers that all expansions of a search share.
ghost use Rattle.std.specs.Prelude.{◌≡◌, IfOk, OnOk, length};
ghost use Rattle.packed_state.specs.Packed.{bits_of};
ghost use Rattle.search.specs.Progress.{AreWide};
ghost use Rattle.search.specs.Transitions.{AreApplicable};

use crate::listing::StateListing;
use crate::transitions::TransitionSystem;
use faults::NoMemory;
use packed_state::Packed;
use std::alloc::Global;

/// Buffers that all expansions share.
pub(crate) struct Buffers<R> {
    /// The state that is being expanded.
    pub(crate) state: Packed,
    /// One of its successors.
    pub(crate) next: Packed,
    /// The actions that are applicable in the expanded state.
    pub(crate) applicable: Vec<u32>,
    /// How often the value of a state may still change where it is asked for. So the search ends, whatever the answers are.
    pub(crate) asks: u32,
    /// The guide's scratch.
    pub(crate) scratch: R,
    /// The keys of the successors.
    pub(crate) keys: Vec<u32>,
    /// What was read of their slots. Nothing depends on it.
    pub(crate) touched: u32,
}

impl<R: Drop> Drop for Buffers<R> {
    fn drop(self) {
        let Self {
            state: _,
            next: _,
            applicable: _,
            asks: _,
            scratch: _,
            keys: _,
            touched: _,
        } = self;
    }
}

impl<R: Drop> Buffers<R> {
    /// Buffers for states of this width, with the guide's scratch.
    pub(crate) fn new(alloc: Global, width: u32, scratch: R) -> Result<Buffers<R>, NoMemory>
        ensures wide { IfOk result (AreWide width) }
        ensures scratch { IfOk result (λ buffers. buffers.scratch ≡ scratch) }
    {
        Ok(Buffers {
            state: Packed::empty(alloc, width)?,
            next: Packed::empty(alloc, width)?,
            applicable: Vec::new(alloc),
            asks: u32::MAX,
            scratch,
            keys: Vec::new(alloc),
            touched: 0,
        })
    }

    /// Touches the keys of all successors in a large listing, before they are looked up one after another. To make a successor twice
    /// takes less time than to wait for its slot.
    pub(crate) fn touch_successors<T: TransitionSystem, L: StateListing>(
        &mut self,
        system: &T,
        store: &L,
    ) -> Result<(), NoMemory>
        requires buffers { AreWide (T.width_of system.now) self.old }
        requires applicable { AreApplicable (T.means system.now) (bits_of self.old.state) self.old.applicable.items }
        ensures state { OnOk result (self.new.state ≡ self.old.state) }
        ensures next { OnOk result (length (bits_of self.new.next) ≡ T.width_of system.now) }
        ensures applicable { OnOk result (self.new.applicable ≡ self.old.applicable) }
        ensures scratch { OnOk result (self.new.scratch ≡ self.old.scratch) }
        ensures asks { OnOk result (self.new.asks ≡ self.old.asks) }
    {
        if !store.is_large() {
            return Ok(());
        }
        self.keys.clear();
        for &action in &self.applicable {
            system.successor(action, &self.state, &mut self.next);
            self.keys.push(store.key(&self.next))?;
        }
        self.touched = store.touch(&self.keys);
        Ok(())
    }
}

//! Landmark values of single states by LM-cut.
ghost use Rattle.std.specs.Prelude.{◌≡◌, IfOk, IfSome, length};
ghost use Rattle.grounding.specs.Ground.{atoms_in};
ghost use Rattle.landmarks_drafted.specs.Drafts.{IsOneValue, atom_count_of};

use crate::draft::Draft;
use crate::value_maker::ValueMaker;
use faults::{DraftMemory, NoMemory};
use grounding::Ground;
use landmark_zones::{Landmarks, Share};
use packed_state::Packed;
use std::alloc::Global;

/// A landmark value that is known.
#[derive(Clone, Copy)]
pub struct KnownValue<'a> {
    /// What has its zones.
    pub landmarks: &'a Landmarks,
    /// Its shares.
    pub shares: &'a [Share],
}

/// Drafts landmark values by LM-cut (Helmert & Domshlak 2009, "Landmarks, Critical Paths and Abstractions: What's the Difference
/// Anyway?"). What a draft needs of memory, but for the draft itself, serves the next one again.
pub struct CutDrafter {
    maker: ValueMaker,
    /// The number of atoms of the ground task.
    pub(crate) atom_count: u32,
}

impl Drop for CutDrafter {
    fn drop(self) {
        let Self {
            maker: _,
            atom_count: _,
        } = self;
    }
}

impl CutDrafter {
    /// The drafter for the ground task.
    ///
    /// # Errors
    /// An allocation failed.
    pub fn new(alloc: Global, ground: &Ground<'_>) -> Result<CutDrafter, NoMemory>
        ensures { IfOk result (λ drafter. atom_count_of drafter ≡ length (atoms_in ground.now)) }
    {
        let memory = DraftMemory::new(alloc);
        memory.finish(CutDrafter {
            maker: ValueMaker::new(&memory, ground),
            atom_count: ground.width(),
        })
    }

    /// A value for the state, which is of the ground task's width; `None` if the goal is reached at no cost without deletes. Nothing
    /// is promised of a value but its form: it is tested before it is used.
    ///
    /// # Errors
    /// An allocation failed.
    pub fn draft(&mut self, alloc: Global, state: &Packed) -> Result<Option<Draft>, NoMemory>
        ensures same { atom_count_of self.new ≡ atom_count_of self.old }
        ensures form { IfOk result (λ found. IfSome found (IsOneValue (atom_count_of self.old))) }
    {
        let memory = DraftMemory::new(alloc);
        self.maker.start(&memory, state);
        memory.finish(self.maker.draft(&memory, self.atom_count))
    }

    /// As `draft`, but the zones of a known value that are whole in the state are kept, with as much of their weights as the costs
    /// allow, and only the rest is computed (Pommerening & Helmert 2013, "Incremental LM-Cut"). It pays if the value was drafted for
    /// a state from which this one is reached in a step.
    ///
    /// # Errors
    /// An allocation failed.
    pub fn draft_from(
        &mut self,
        alloc: Global,
        state: &Packed,
        known: KnownValue<'_>,
    ) -> Result<Option<Draft>, NoMemory>
        ensures same { atom_count_of self.new ≡ atom_count_of self.old }
        ensures form { IfOk result (λ found. IfSome found (IsOneValue (atom_count_of self.old))) }
    {
        let memory = DraftMemory::new(alloc);
        self.maker.start(&memory, state);
        self.maker.keep_all(&memory, known.landmarks, known.shares);
        memory.finish(self.maker.draft(&memory, self.atom_count))
    }

    /// The steps of all drafts so far: each looks at an operator.
    pub fn steps(&self) -> u64 {
        self.maker.steps()
    }
}

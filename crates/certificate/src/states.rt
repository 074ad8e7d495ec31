//! The states that a certificate lists, as sets of atom numbers.
ghost use Rattle.std.specs.Prelude.{◌≡◌, ◌<◌, [], All, IfOk, length};
ghost use Rattle.packed_state.specs.PooledView.{pooled_width, pooled_states};
ghost use Rattle.certificate_reader.specs.Lines.{line_of};
ghost use Rattle.certificate.specs.Listing.{IsPushed};

use certificate_reader::{Mark, StateLine};
use faults::NoMemory;
use packed_state::{Packed, PooledStore, StateStore};
use std::alloc::Global;

/// The cost at which a state is listed, and its role.
#[derive(Clone, Copy, Debug, PartialEq, Eq)]
pub struct Listed {
    /// The cost.
    pub cost: u64,
    /// Its role.
    pub mark: Mark,
}

/// The states, in line order.
#[derive(Drop)]
pub struct States {
    /// Their costs and roles.
    pub marks: Vec<Listed>,
    /// Their atoms, by number.
    pub sets: PooledStore,
}

impl States {
    /// No states yet, over this many atoms.
    ///
    /// # Errors
    /// An allocation failed.
    pub fn new(alloc: Global, width: u32) -> Result<States, NoMemory>
        ensures width { IfOk result (λ states. pooled_width states.sets ≡ width) }
        ensures none { IfOk result (λ states. (states.marks.items ≡ []) × (pooled_states states.sets ≡ [])) }
    {
        Ok(States {
            marks: Vec::new(alloc),
            sets: PooledStore::new(alloc, width)?,
        })
    }

    /// Appends the state of the line and returns `true`, unless it is there already; then returns `false`.
    ///
    /// # Errors
    /// An allocation failed.
    pub fn push(&mut self, alloc: Global, line: &StateLine) -> Result<bool, NoMemory>
        requires below { All (λ number. number < pooled_width self.old.sets) line.now.atoms.items }
        requires room { length (pooled_states self.old.sets) < 16777216 }
        ensures width { pooled_width self.new.sets ≡ pooled_width self.old.sets }
        ensures pushed { IfOk result (IsPushed self.old self.new (line_of line.now)) }
    {
        let set = Packed::new(alloc, self.sets.width(), &line.atoms)?;
        let (_, is_new) = self.sets.insert_if_new(set)?;
        if !is_new {
            return Ok(false);
        }
        self.marks.push(Listed {
            cost: line.cost,
            mark: line.mark,
        })?;
        Ok(true)
    }
}

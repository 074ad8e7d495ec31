//! The rows of a table.
ghost use Rattle.std.specs.Prelude.{◌≡◌, ◌<◌, [], length, IfOk, OnErr};
ghost use Rattle.packed_state.specs.Packed.{bits_of};
ghost use Rattle.packed_state.specs.PooledView.{pooled_width, pooled_states};

use faults::NoMemory;
use packed_state::{Packed, PooledStore, StateStore};
use std::alloc::Global;

/// Rows: each is the set of its true atoms, by their indices in the scope, with a weight for each value.
#[derive(Drop)]
pub(crate) struct Rows {
    pub(crate) sets: PooledStore,
    /// The weights of all rows, row by row.
    pub(crate) weights: Vec<i64>,
}

impl Rows {
    ghost use Rattle.table_rows.specs.Pushing.{ArePushed, AreSameRows};

    /// No rows, over a scope of this width.
    pub(crate) fn new(alloc: Global, width: u32) -> Result<Rows, NoMemory>
        ensures width { IfOk result (λ rows. pooled_width rows.sets ≡ width) }
        ensures none { IfOk result (λ rows. (pooled_states rows.sets ≡ []) × (rows.weights.items ≡ [])) }
    {
        Ok(Rows {
            sets: PooledStore::new(alloc, width)?,
            weights: Vec::new(alloc),
        })
    }

    /// Appends the row with this set and these weights, or returns `false` if a row has the set. Unchanged where memory is refused.
    pub(crate) fn push(&mut self, set: &Packed, weights: &[i64]) -> Result<bool, NoMemory>
        requires width { length (bits_of set.now) ≡ pooled_width self.old.sets }
        requires room { length (pooled_states self.old.sets) < 16777216 }
        ensures width { pooled_width self.new.sets ≡ pooled_width self.old.sets }
        ensures ok { IfOk result (ArePushed self.old self.new (bits_of set.now) weights.now) }
        ensures err { OnErr result (AreSameRows self.old self.new) }
    {
        let before = self.weights.len();
        self.weights.extend_from_slice(weights)?;
        match self.sets.insert_copy_if_new(set) {
            Ok((_, true)) => Ok(true),
            Ok((_, false)) => {
                self.weights.truncate(before);
                Ok(false)
            }
            Err(_) => {
                self.weights.truncate(before);
                Err(NoMemory)
            }
        }
    }
}

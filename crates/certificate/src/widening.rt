//! Sets rebuilt with a greater width.
ghost use Rattle.std.specs.Prelude.{◌≡◌, ℕ, ◌<◌, All, IfOk, IsTrue, map};
ghost use Rattle.packed_state.specs.PooledView.{pooled_width, pooled_states};
ghost use Rattle.packed_state.specs.Sets.{at_width, has};

use faults::NoMemory;
use packed_state::{Packed, PooledStore, StateStore};
use std::alloc::Global;

/// The same sets, in order, with this width.
pub(crate) fn widened(
    alloc: Global,
    sets: &PooledStore,
    width: u32,
) -> Result<PooledStore, NoMemory>
    requires within { All (λ set. (number : ℕ) → IsTrue (has set number) → number < width) (pooled_states sets.now) }
    ensures width { IfOk result (λ wide. pooled_width wide ≡ width) }
    ensures sets { IfOk result (λ wide. pooled_states wide ≡ map (at_width width) (pooled_states sets.now)) }
{
    let mut wide = PooledStore::new(alloc, width)?;
    let mut set = Packed::empty(alloc, sets.width())?;
    for place in 0..sets.len() {
        sets.get(place as u32, &mut set);
        wide.insert_if_new(set.with_width(alloc, width)?)?;
    }
    Ok(wide)
}

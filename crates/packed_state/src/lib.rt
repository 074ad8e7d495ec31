//! Sets of numbers packed into words of 64 bits, and stores of distinct sets.
#![tactic(auto)]

mod lanes;
mod packed;
mod plain;
mod pool;
mod pooled;
mod store;
mod table;
mod words;

pub use packed::{Mask, Packed};
pub use plain::PlainStore;
pub use pooled::PooledStore;
pub use store::StateStore;

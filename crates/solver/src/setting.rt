//! What the parts of a solution share.

use crate::limits::Limits;
use search_spaces::SearchSpace;
use std::alloc::Global;

/// A ground task that is to be solved within limits: its search space, and where memory comes from.
#[derive(Clone, Copy)]
pub(crate) struct Setting<'l, 't> {
    pub(crate) alloc: Global,
    pub(crate) space: SearchSpace<'l, 't>,
    pub(crate) limits: Limits,
}

/// A search of the ground task by a guide.
#[derive(Drop)]
pub(crate) struct Session<'s, 'l, 't, G> {
    pub(crate) setting: Setting<'l, 't>,
    pub(crate) guide: &'s G,
}

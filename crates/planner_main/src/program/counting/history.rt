//! The bytes written, as a ghost value: it takes no memory, and its methods do nothing at run time.
ghost use Rattle.std.specs.Prelude.{◌≡◌, ◌++◌, ℕ, List, []};
ghost use Rattle.std.specs.Borrow.{ftrue};

use std::marker::Model;

/// The bytes that were written.
#[derive(Drop)]
pub(super) struct History {
    pub(super) ghost bytes: { List ℕ },
}

impl Model for History {
    ghost also_owns = { λ _. ftrue };
}

/// Some bytes.
#[derive(Clone, Copy)]
pub(super) struct Piece<'a> {
    pub(super) bytes: &'a [u8],
}

impl History {
    /// Nothing written yet.
    pub(super) fn new() -> History
        ensures { result.bytes ≡ [] }
    {
        History {}
    }

    /// What was written before, followed by this piece.
    pub(super) fn with(&self, _piece: &Piece<'_>) -> History
        ensures { result.bytes ≡ self.now.bytes ++ _piece.now.bytes.now }
    {
        History {}
    }
}

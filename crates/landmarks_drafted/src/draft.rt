//! What is drafted.
ghost use Rattle.std.specs.Prelude.{IfSome};
ghost use Rattle.landmarks_drafted.specs.Drafts.{IsOneValue};

use landmark_zones::Landmarks;

/// What a draft claims, which is to be tested before it is used.
#[derive(Clone, Copy, Debug, PartialEq, Eq)]
pub enum Claim {
    /// The value is fair: a lower bound of the remaining cost in each state.
    LowerBound,
    /// The value is dead-fair: each state in which it is not 0 is a dead end.
    DeadEnd,
}

/// A landmark value that was drafted for a state.
#[derive(Drop)]
pub struct Draft {
    /// The value, the only one, over zones of its own.
    pub landmarks: Landmarks,
    pub claim: Claim,
}

impl Draft {
    /// The draft of this value, if it is one, and a certificate's text with this many atoms may have it.
    pub(crate) fn new(landmarks: Landmarks, atom_count: u32, claim: Claim) -> Option<Draft>
        ensures { IfSome result (IsOneValue atom_count) }
    {
        if landmarks.value_count() != 1 || !landmarks.keep_limits(atom_count as usize) {
            return None;
        }
        Some(Draft { landmarks, claim })
    }
}

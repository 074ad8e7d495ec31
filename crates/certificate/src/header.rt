//! The header of a certificate: everything before its states.
use crate::evidence::Evidence;
use certificate_reader::{Claim, Version};
use indexmap::IndexSet;
use task::{Atom, ObjectId};

/// The header of a certificate: the version, the claim, the exchanges, the atoms, and the evidence.
#[derive(Drop)]
pub struct Header {
    /// The version of its text.
    pub version: Version,
    /// The claim.
    pub claim: Claim,
    /// The exchanges by which a state represents others, in order: for each, the pairs of objects that it swaps. Versions 1 and 2
    /// have none.
    pub exchanges: Vec<Vec<(ObjectId, ObjectId)>>,
    /// The atoms, in order.
    pub atoms: IndexSet<Atom>,
    /// What the state lines rest on.
    pub evidence: Evidence,
}

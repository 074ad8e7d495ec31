//! Why a task could not be grounded.
use faults::Refused;

/// The limit that the ground task would exceed.
#[derive(Clone, Copy, Debug, PartialEq, Eq, Drop)]
pub enum GroundLimit {
    /// More instances would be kept than the limit allows.
    Instances,
    /// The kept instances are within the limit, but more than 1,048,576 atoms would be numbered.
    Atoms,
}

/// Why a task could not be grounded: it would exceed a limit, or an allocation failed.
pub type GroundFault = Refused<GroundLimit>;

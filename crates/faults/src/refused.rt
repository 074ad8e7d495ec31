//! Why a call refuses a text, or cannot answer for want of memory.
use crate::code::Code;
use std::alloc::{AllocError, AllocFailed};
use thiserror::Error;

/// A stretch of a text, `start..end` in bytes: offsets from 0, the end not included.
#[derive(Clone, Copy, Debug, PartialEq, Eq)]
pub struct Span {
    /// The offset of the first byte.
    pub start: usize,
    /// The offset after the last byte.
    pub end: usize,
}

/// The refusal of a text: its code and its place.
#[derive(Clone, Copy, Debug, PartialEq, Eq)]
pub struct TextRefusal {
    /// What is wrong.
    pub code: Code,
    /// Where it is.
    pub span: Span,
}

/// The refusal of one of several texts: which one, the code and the place.
#[derive(Clone, Copy, Debug, PartialEq, Eq)]
pub struct RefusalIn<F> {
    /// The file that the place is in.
    pub file: F,
    /// What is wrong.
    pub code: Code,
    /// Where it is.
    pub span: Span,
}

/// An allocation failed. This says nothing about the text.
#[derive(Clone, Copy, Debug, PartialEq, Eq, Error)]
#[error("out of memory")]
pub struct NoMemory;

impl From<AllocError> for NoMemory {
    fn from(_error: AllocError) -> NoMemory {
        NoMemory
    }
}

impl<T: Drop> From<AllocFailed<T>> for NoMemory {
    fn from(_error: AllocFailed<T>) -> NoMemory {
        NoMemory
    }
}

/// Why a call that allocates fails: it refuses its input, or memory ran out.
#[derive(Clone, Copy, Debug, PartialEq, Eq, Drop)]
pub enum Refused<R> {
    /// The input is refused, for this reason.
    At(R),
    /// An allocation failed. This says nothing about the input.
    NoMemory,
}

/// Why a text could not be read.
pub type Fault = Refused<TextRefusal>;

impl<R> From<NoMemory> for Refused<R> {
    ghost use Rattle.std.specs.Prelude.{◌≡◌};
    ghost use Rattle.faults.specs.declared.refused.Refused.TheVariants.{NoMemory};

    ghost from_gives = { λ _ e. e ≡ NoMemory };

    fn from(_error: NoMemory) -> Refused<R> {
        Refused::NoMemory
    }
}

impl<R> From<AllocError> for Refused<R> {
    ghost use Rattle.std.specs.Prelude.{◌≡◌};
    ghost use Rattle.faults.specs.declared.refused.Refused.TheVariants.{NoMemory};

    ghost from_gives = { λ _ e. e ≡ NoMemory };

    fn from(_error: AllocError) -> Refused<R> {
        Refused::NoMemory
    }
}

impl<R, T: Drop> From<AllocFailed<T>> for Refused<R> {
    ghost use Rattle.std.specs.Prelude.{◌≡◌};
    ghost use Rattle.faults.specs.declared.refused.Refused.TheVariants.{NoMemory};

    ghost from_gives = { λ _ e. e ≡ NoMemory };

    fn from(_error: AllocFailed<T>) -> Refused<R> {
        Refused::NoMemory
    }
}

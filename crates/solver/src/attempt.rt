//! The outcome of an attempt.

/// The outcome of an attempt to do better than potentials alone.
#[derive(Drop)]
pub(crate) enum Attempt<T> {
    /// It succeeded.
    Done(T),
    /// It failed, but may succeed with more effort.
    Promising,
    /// It failed, and more effort is not expected to help.
    InVain,
}

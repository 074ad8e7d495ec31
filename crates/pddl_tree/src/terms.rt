//! Names and terms, with their places.
use faults::Span;

/// A name or a variable: its bytes as written, not folded to lower case, and their span.
#[derive(Clone, Copy, Debug)]
pub struct Name<'a> {
    /// The bytes of the name. A variable's bytes begin with `?`.
    pub text: &'a [u8],
    /// The span of the bytes in the file.
    pub span: Span,
}

/// An argument of an atom.
#[derive(Clone, Copy, Debug)]
pub enum Term<'a> {
    /// A variable, such as `?x`.
    Variable(Name<'a>),
    /// An object, by its name.
    Object(Name<'a>),
}

//! Why words are refused, by index, before the fault is reported in bytes of the file.
use faults::{Code, Refused};

/// The refused word. `at` equals `words.len()` at end of input.
#[derive(Clone, Copy, Debug, PartialEq, Eq)]
pub struct WordRefusal {
    /// What is wrong.
    pub code: Code,
    /// The index of the refused word.
    pub at: usize,
}

/// Why words could not be read.
pub type WordFault = Refused<WordRefusal>;

impl From<WordRefusal> for Refused<WordRefusal> {
    ghost use Rattle.std.specs.Prelude.{◌≡◌};
    ghost use Rattle.faults.specs.declared.refused.Refused.TheVariants.{At};

    ghost from_gives = { λ refusal e. e ≡ At refusal };

    fn from(refusal: WordRefusal) -> Refused<WordRefusal> {
        Refused::At(refusal)
    }
}

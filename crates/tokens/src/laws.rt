//! Laws of reading words: proved for all texts. The functions do nothing.
ghost use Rattle.std.specs.Prelude.{◌≡◌, ℕ, List};
ghost use Rattle.model.specs.Fault.{Fault};
ghost use Rattle.model.specs.Words as model;
ghost use Rattle.model.specs.Words.{ReadsAs, IsReported, AreInOrder};

/// A text reads as at most one list of words. They are slices of the text, in order and without overlap.
pub fn one_reading()
    ensures one { (text : List ℕ) (words others : List model.Word)
        → ReadsAs text words → ReadsAs text others → words ≡ others }
    ensures in_order { (text : List ℕ) (words : List model.Word)
        → ReadsAs text words → AreInOrder 0 text words }
{}

/// At most one fault is reported for a text, and none for a text that reads as words.
pub fn one_fault()
    ensures one { (text : List ℕ) (fault other : Fault)
        → IsReported text fault → IsReported text other → fault ≡ other }
    ensures none { (text : List ℕ) (words : List model.Word) (fault : Fault)
        → ReadsAs text words → IsReported text fault → ⊥ }
{}

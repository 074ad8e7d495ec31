//! Laws of states and formulas, each proved in general. The functions do nothing.
ghost use Rattle.std.specs.Prelude.{◌≡◌, ◌↔◌, IsTrue};
ghost use Rattle.formulas.specs.declared.state.State.{State};
ghost use Rattle.formulas.specs.State.{state_of};
ghost use Rattle.formulas.specs.Equality.{are_equal};
ghost use Rattle.model.specs.SureLiterals.{SureLiteralsHold};
ghost use Rattle.model.specs.FormulaExamples.{AreJudged};

/// Two states are equal, by `==`, exactly if the same atoms are true in both.
pub fn one_state()
    ensures { (s t : State) → IsTrue (are_equal s t) ↔ (state_of s ≡ state_of t) }
{}

/// If a formula holds, its sure literals hold.
pub fn sure_literals_hold()
    ensures { SureLiteralsHold }
{}

/// The worked examples of formulas: their truth values and sure literals are as written beside them.
pub fn formula_examples_are_judged()
    ensures { AreJudged }
{}

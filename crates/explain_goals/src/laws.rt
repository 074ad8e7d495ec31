//! Laws of the delete relaxation, over all tasks. They are proved; the calls do nothing.
ghost use Rattle.explain_goals.specs.Contradictions.{ContradictoryGoalsAreUnsolvable};
ghost use Rattle.explain_goals.specs.Exclusive.{ExclusiveGoalsAreUnsolvable};
ghost use Rattle.explain_goals.specs.Laws.{ClosedSetsAreInvariants, NeverTrueGoalsAreUnsolvable};

/// No list of actions leads to a state with an atom outside a closed set.
pub fn closed_sets_are_invariants()
    ensures { ClosedSetsAreInvariants }
{}

/// A task is unsolvable if its goal requires an atom that is never true.
pub fn never_true_goals_are_unsolvable()
    ensures { NeverTrueGoalsAreUnsolvable }
{}

/// A task is unsolvable if its goal requires an atom to be true and to be false.
pub fn contradictory_goals_are_unsolvable()
    ensures { ContradictoryGoalsAreUnsolvable }
{}

/// A task is unsolvable if its goal requires two atoms of a group of which at most one is ever true.
pub fn exclusive_goals_are_unsolvable()
    ensures { ExclusiveGoalsAreUnsolvable }
{}

//! Laws of potential functions, proved for all tasks. The functions do nothing.
ghost use Rattle.lower_bounds.specs.PotentialLaws.{FairOnesAreLowerBounds, DeadFairOnesDetectDeadEnds};
ghost use Rattle.lower_bounds.specs.PotentialExamples.{AreJudged};

/// The value of a fair potential function in a state with the static atoms of the initial state is a lower bound: every run from
/// it to a goal state, of whatever length, costs at least that much. The value falls by no more than an instance's cost, and is 0
/// in goal states.
pub fn fair_potentials_are_lower_bounds()
    ensures { FairOnesAreLowerBounds }
{}

/// A state with the static atoms of the initial state in which a dead-fair potential function has a value of at least 1 is a dead
/// end: no run, of whatever length, leads from it to a goal state. The value never falls, and is 0 in goal states, so such a
/// state only leads to states like it.
pub fn dead_fair_potentials_detect_dead_ends()
    ensures { DeadFairOnesDetectDeadEnds }
{}

/// The worked examples of potential functions: the loss of an instance by an atom, the remainder at a goal, values, reported dead
/// ends, and small tasks.
pub fn potential_examples_are_judged()
    ensures { AreJudged }
{}

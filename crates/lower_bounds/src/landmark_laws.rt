//! Laws of landmark functions, proved for all tasks. The functions do nothing.
ghost use Rattle.lower_bounds.specs.LandmarkLaws.{ZonesAreLandmarks, LandmarksAreFairValues, FairOnesAreLowerBounds, DeadFairOnesReportDeadEnds, FairTablesAreClosed, KeptOnesAreOver};
ghost use Rattle.lower_bounds.specs.LandmarkExamples.{AreZonesJudged, AreTasksJudged};
ghost use Rattle.lower_bounds.specs.LandmarkLines.{AreLinesJudged};

/// A zone with a literal of the goal is a disjunctive action landmark: every run from a state in which it is whole to a goal state
/// has an instance that may break it.
pub fn zones_are_landmarks()
    ensures { ZonesAreLandmarks }
{}

/// Fair landmark functions are fair values, at any allowance.
pub fn landmarks_are_fair_values()
    ensures { LandmarksAreFairValues }
{}

/// The value of a fair landmark function in a state with the static atoms of the initial state is a lower bound: every run from it
/// to a goal state, of whatever length, costs at least that much. The value falls by no more than an instance's cost, and is 0 in
/// goal states. The same holds in the ground task, for all bits of a packed state.
pub fn fair_landmarks_are_lower_bounds()
    ensures { FairOnesAreLowerBounds }
{}

/// A state with the static atoms of the initial state in which the value of a dead-fair landmark function is not 0 is a dead end:
/// no run, of whatever length, leads from it to a goal state, and its successors are dead ends too.
pub fn dead_fair_landmarks_report_dead_ends()
    ensures { DeadFairOnesReportDeadEnds }
{}

/// What landmark functions require of the tables beside them is part of the fairness of a value over these.
pub fn fair_tables_are_closed()
    ensures { FairTablesAreClosed }
{}

/// The zones of values that a text may have are over its atoms, as the laws require.
pub fn kept_landmarks_are_over()
    ensures { KeptOnesAreOver }
{}

/// The worked examples of zones: which instances may break which, where zones are whole, and values.
pub fn landmark_examples_are_judged()
    ensures { AreZonesJudged }
{}

/// The worked examples of landmark functions of small tasks: which are fair, which are not, and why.
pub fn landmark_task_examples_are_judged()
    ensures { AreTasksJudged }
{}

/// The worked examples of lines, and of those that a text may not have.
pub fn landmark_lines_are_judged()
    ensures { AreLinesJudged }
{}

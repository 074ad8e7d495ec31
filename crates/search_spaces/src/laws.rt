//! A law of search spaces. It is proved; the call does nothing.
ghost use Rattle.search_spaces.specs.SearchSpace.{ClassesReachGoalsAlike};

/// From two states of one class the goal is reached by lists of the same length and cost: exchanges map one list to the other, since
/// they are symmetries of the task.
pub fn classes_reach_goals_alike()
    ensures { ClassesReachGoalsAlike }
{}

//! What is said of the steps of a plan.
/// What is said of the steps of a plan.
#[derive(Clone, Copy, Debug, PartialEq, Eq)]
pub enum StepLines {
    /// What each costs, if the plan solves the task.
    Costs,
    /// What each costs, adds and deletes, up to the first that is not applicable.
    Trace,
}

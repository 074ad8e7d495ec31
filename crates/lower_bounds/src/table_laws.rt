//! Laws of table functions, proved for all tasks. The functions do nothing.
ghost use Rattle.lower_bounds.specs.TableLaws.{FairnessIsEnough, TablesAreFairValues, PotentialsAreFairValues, FairOnesAreLowerBounds, GreatestOfFairOnesIsLowerBound, DeadFairOnesReportDeadEnds, FairValuesAreSound, PotentialsAreTableFunctions, GroundAtomsAreAllNumbered, CertainChangesHaveOneAfter};
ghost use Rattle.lower_bounds.specs.TableExamples.{AreTablesJudged, AreTasksJudged};

/// What follows from fairness at an allowance, of whatever kind the value is: every run from a state to a goal state is allowed at
/// least its value. So at the costs the value is a lower bound, and at the allowance 0 it detects dead ends. The maximum of fair
/// values is fair.
pub fn fairness_is_enough()
    ensures { FairnessIsEnough }
{}

/// Fair table functions are fair values, at any allowance.
pub fn tables_are_fair_values()
    ensures { TablesAreFairValues }
{}

/// So are fair potential functions.
pub fn potentials_are_fair_values()
    ensures { PotentialsAreFairValues }
{}

/// The value of a fair table function in a state with the static atoms of the initial state is a lower bound: every run from it
/// to a goal state, of whatever length, costs at least that much. The value falls by no more than an instance's cost, and is 0 in
/// goal states. The same holds in the ground task, for all bits of a packed state.
pub fn fair_tables_are_lower_bounds()
    ensures { FairOnesAreLowerBounds }
{}

/// The maximum of the values of several fair table functions is a lower bound too.
pub fn greatest_of_fair_tables_is_lower_bound()
    ensures { GreatestOfFairOnesIsLowerBound }
{}

/// A state with the static atoms of the initial state in which a dead-fair table function has a value of at least 1 is a dead
/// end: no run, of whatever length, leads from it to a goal state, and its successors are dead ends too.
pub fn dead_fair_tables_report_dead_ends()
    ensures { DeadFairOnesReportDeadEnds }
{}

/// Several fair values over the same tables, with a dead-fair one for dead ends, are sound: the maximum is a lower bound, and a
/// state whose dead-end value is at least 1 is a dead end.
pub fn fair_values_are_sound()
    ensures { FairValuesAreSound }
{}

/// A potential function is a table function without tables: the values are the same, and so is fairness when every kept instance
/// is tested, as well as the first instance that is not fair.
pub fn potentials_are_table_functions()
    ensures { PotentialsAreTableFunctions }
{}

/// A ground task numbers all atoms that the laws require to be numbered.
pub fn ground_atoms_are_all_numbered()
    ensures { GroundAtomsAreAllNumbered }
{}

/// If no change under a `when` affects an atom of the scope, each row has exactly one successor row.
pub fn certain_changes_have_one_after()
    ensures { CertainChangesHaveOneAfter }
{}

/// The worked examples of tables: which rows match and succeed which, losses, excluded rows, and values.
pub fn table_examples_are_judged()
    ensures { AreTablesJudged }
{}

/// The worked examples of table functions of small tasks: which are fair, which are not, and why.
pub fn table_task_examples_are_judged()
    ensures { AreTasksJudged }
{}

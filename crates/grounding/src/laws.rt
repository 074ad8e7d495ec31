//! Laws of grounding, over all tasks. They are proved; the calls do nothing.
ghost use Rattle.std.specs.Prelude.{List, All, IsTrue};
ghost use Rattle.model.specs.Task.{Atom, Task};
ghost use Rattle.model.specs.Fluents.{is_fluent};
ghost use Rattle.model.specs.StaticallyFalse.{StaticallyFalseIsNotApplicable, OnlyCountingChangesAreMade};
ghost use Rattle.model.specs.NumberedAtoms.{numbered_atoms, AreNumbered};
ghost use Rattle.model.specs.Grounding.{GroundTaskIsBisimilar, GroundTaskSolvesAlike, PacksStates, NumberedLiteralsHold};
ghost use Rattle.model.specs.GroundingExamples.{AreGrounded};

/// The ground task does what its task does, step by step, and nothing else.
pub fn ground_task_is_bisimilar()
    ensures { GroundTaskIsBisimilar }
{}

/// What solves the ground task solves its task, at the same cost and by the instances that the numbers name, and vice versa.
pub fn ground_task_solves_alike()
    ensures { GroundTaskSolvesAlike }
{}

/// Packed states correspond one to one to the states with the static atoms of the initial state and no fluent atom without a
/// number.
pub fn packs_states()
    ensures { (task : Task) (more : List Atom) → All (λ (a : Atom). IsTrue (is_fluent task a.predicate)) more → PacksStates task (numbered_atoms task more) }
{}

/// Each atom has one number at most; the atoms of `more` come first; and which atoms are numbered.
pub fn atoms_are_numbered()
    ensures { (task : Task) (more : List Atom) → AreNumbered task more (numbered_atoms task more) }
{}

/// An instance whose precondition is statically false is applicable in no state with the static atoms of the initial state.
pub fn statically_false_is_not_applicable()
    ensures { StaticallyFalseIsNotApplicable }
{}

/// In no such state is a change made that does not count.
pub fn only_counting_changes_are_made()
    ensures { OnlyCountingChangesAreMade }
{}

/// A packed state that satisfies a formula agrees with its sure literals of numbered atoms.
pub fn numbered_literals_hold()
    ensures { NumberedLiteralsHold }
{}

/// The worked examples of grounding: what is statically false, kept and numbered, and where instances lead.
pub fn grounding_examples_are_judged()
    ensures { AreGrounded }
{}

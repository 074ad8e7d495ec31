//! What improving potentials of a ground task needs, at any allowance.
ghost use Rattle.std.specs.Prelude.{◌≡◌, length};
ghost use Rattle.std.proofs.Props.{props};
ghost use Rattle.packed_state.specs.Packed.{bits_of};
ghost use Rattle.grounding.specs.Ground.{task_in, atoms_in};
ghost use Rattle.model.specs.NumberedLiterals.{literals_of_goal};
ghost use Rattle.model.specs.Grounding.{ground_system};
ghost use Rattle.potentials.specs.Goals.{AreSaid};
ghost use Rattle.potentials_improved.specs.Tested.{IsTestedInput};

use faults::NoMemory;
use grounding::Ground;
use packed_state::Packed;
use potentials::GoalAtoms;
use potentials_drafted::ProgramInput;
use std::alloc::Global;

/// What improving potentials of a ground task needs, at any allowance: the input of drafts, its initial state, and what
/// its goal says of each atom. Made once.
pub struct Groundwork<'g, 't> {
    pub(crate) ground: &'g Ground<'t>,
    pub(crate) input: ProgramInput,
    pub(crate) initial: Packed,
    pub(crate) goal: GoalAtoms,
    ghost incidence: { IsTestedInput ground.now input } by { Prim.hlevel props },
    ghost initial_is: { bits_of initial ≡ (ground_system (task_in ground.now) (atoms_in ground.now)).initial } by { Prim.hlevel props },
    ghost goal_is: { AreSaid (literals_of_goal (task_in ground.now) (atoms_in ground.now)) (length (atoms_in ground.now)) goal } by { Prim.hlevel props },
}

impl Drop for Groundwork<'_, '_> {
    fn drop(self) {
        let Self {
            ground: _,
            input: _,
            initial: _,
            goal: _,
        } = self;
    }
}

impl<'g, 't> Groundwork<'g, 't> {
    ghost use Rattle.std.specs.Prelude.{IfOk};
    ghost use Rattle.potentials_improved.specs.Groundwork.{ground_under};

    /// The groundwork of the ground task.
    ///
    /// # Errors
    /// An allocation failed.
    pub fn new(alloc: Global, ground: &'g Ground<'t>) -> Result<Groundwork<'g, 't>, NoMemory>
        ensures { IfOk result (λ g. ground_under g ≡ ground.now) }
    {
        let initial = ground.initial(alloc)?;
        let input = ProgramInput::new(alloc, ground, &initial)?;
        let goal = GoalAtoms::new(alloc, ground.goal_literals(), ground.width())?;
        Ok(Groundwork {
            ground,
            input,
            initial,
            goal,
        })
    }
}

//! Improves potentials.
ghost use Rattle.std.specs.Prelude.{◌≡◌, IfOk, length};
ghost use Rattle.grounding.specs.Ground.{task_in, atoms_in};
ghost use Rattle.lower_bounds.specs.FairPotentials.{AreFairAt};
ghost use Rattle.lower_bounds.specs.Settled.{IsImprovedAt};
ghost use Rattle.potentials.specs.Potentials.{potentials_of};
ghost use Rattle.potentials_improved.specs.FairPotentials.{potentials_in, ground_in};
ghost use Rattle.potentials_improved.specs.Groundwork.{ground_under};
ghost use Rattle.potentials_improved.specs.SettledOrHigh.{AreSettledOrHighAt};

use crate::climb::Climb;
use crate::drafted::Drafts;
use crate::fair_at::FairAt;
use crate::groundwork::Groundwork;
use faults::NoMemory;
use grounding::Ground;
use potentials::Potentials;
use std::alloc::Global;

/// The limit of rounds. Each raises the initial state's value, or is the last.
const IMPROVING_ROUNDS: u32 = 8;

/// Fair potentials of the ground task at an allowance, improved from those that are 0.
///
/// # Errors
/// Memory is refused.
pub fn improved_from_zero<'g, 't, A: Drafts>(
    alloc: Global,
    ground: &'g Ground<'t>,
    groundwork: &Groundwork<'_, '_>,
) -> Result<FairAt<'g, 't, A>, NoMemory>
    requires { ground_under groundwork.now ≡ ground.now }
    ensures ground { IfOk result (λ f. ground_in f ≡ ground.now) }
    ensures improved { IfOk result (λ f. AreSettledOrHighAt (A.allowance (task_in ground.now)) (task_in ground.now) (atoms_in ground.now) (potentials_in f)) }
{
    let zero = Potentials::zero(alloc, ground)?;
    let fair: FairAt<'g, 't, A> = FairAt::known(zero, ground);
    let better = fair.improve(alloc, groundwork, IMPROVING_ROUNDS)?;
    Ok(better)
}

impl<A: Drafts> FairAt<'_, '_, A> {
    ghost use Rattle.potentials_improved.specs.FairPotentials.{AreBetter};

    /// Potentials of the same kind whose value of the initial state is no lower: by drafts first, then by steps of single weights, one
    /// pass over all atoms a round. The result is settled, or its value of the initial state is higher by at least `rounds`.
    ///
    /// # Errors
    /// Memory is refused. The potentials are gone then.
    pub fn improve(
        self,
        alloc: Global,
        groundwork: &Groundwork<'_, '_>,
        rounds: u32,
    ) -> Result<Self, NoMemory>
        requires { ground_under groundwork.now ≡ ground_in self }
        ensures { IfOk result (AreBetter (λ task atoms. IsImprovedAt (A.allowance task) task atoms rounds) self.entry) }
    {
        let FairAt {
            potentials,
            ground,
            ..
        } = self;
        let better = improved::<A>(alloc, potentials, groundwork, rounds)?;
        Ok(FairAt::known(better, ground))
    }
}

/// Better potentials: by drafts that are no worse, then by steps of single weights.
fn improved<A: Drafts>(
    alloc: Global,
    potentials: Potentials,
    groundwork: &Groundwork<'_, '_>,
    rounds: u32,
) -> Result<Potentials, NoMemory>
    requires width { length (potentials_of potentials).weights ≡ length (atoms_in (ground_under groundwork.now)) }
    requires fair { AreFairAt (A.allowance (task_in (ground_under groundwork.now))) (task_in (ground_under groundwork.now)) (atoms_in (ground_under groundwork.now)) (potentials_of potentials) }
    ensures { IfOk result (λ p. IsImprovedAt (A.allowance (task_in (ground_under groundwork.now))) (task_in (ground_under groundwork.now)) (atoms_in (ground_under groundwork.now)) rounds (potentials_of potentials) (potentials_of p)) }
{
    let drafted = A::drafted(alloc, potentials, groundwork, rounds)?;
    let mut climb = Climb::new::<A>(drafted, groundwork);
    for _ in 0..rounds {
        if !climb.pass::<A>(groundwork) {
            return Ok(climb.potentials);
        }
    }
    Ok(climb.potentials)
}

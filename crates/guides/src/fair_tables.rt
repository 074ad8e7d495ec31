//! Fair values over tables for a ground task.
ghost use Rattle.std.specs.Prelude.{◌≡◌, length};
ghost use Rattle.std.proofs.Props.{props};
ghost use Rattle.grounding.specs.Ground.{task_in, atoms_in};
ghost use Rattle.lower_bounds.specs.FairTables.{AreFair};
ghost use Rattle.lower_bounds.specs.TableLaws.{AreAllNumbered};
ghost use Rattle.tables.specs.Several.{several_of, width_of};
ghost use Rattle.guides.specs.Guides.{Guides};

use faults::NoMemory;
use grounding::Ground;
use packed_state::Packed;
use search::Guide;
use std::alloc::Global;
use tables::{KnownState, TableFunctions};

/// Fair values over tables for a ground task, and a dead-fair one for dead ends. The greatest value of a state is a lower bound of its
/// remaining cost, and a state is a dead end where the value for dead ends is at least 1.
#[derive(Drop)]
pub struct FairTables<'g, 't, 'a> {
    functions: TableFunctions<'a>,
    ground: &'g Ground<'t>,
    ghost width: { width_of functions ≡ length (atoms_in ground.now) } by { Prim.hlevel props },
    ghost fair: { AreFair (task_in ground.now) (atoms_in ground.now) (several_of functions) } by { Prim.hlevel props },
    ghost guides: { Guides (task_in ground.now) (atoms_in ground.now) (several_of functions) } by { Prim.hlevel props },
}

impl<'g, 't, 'a> FairTables<'g, 't, 'a> {
    ghost use Rattle.guides.specs.FairTables.{functions_in, ground_in};

    /// Takes values that `TableFunctions::fairness` found to be fair for the ground task. Nothing is tested.
    pub fn new(functions: TableFunctions<'a>, ground: &'g Ground<'t>) -> FairTables<'g, 't, 'a>
        requires width { width_of functions ≡ length (atoms_in ground.now) }
        requires numbered { AreAllNumbered (task_in ground.now) (atoms_in ground.now) }
        requires fair { AreFair (task_in ground.now) (atoms_in ground.now) (several_of functions) }
        ensures functions { functions_in result ≡ several_of functions.entry }
        ensures ground { ground_in result ≡ ground.now }
    {
        FairTables { functions, ground }
    }

    /// The values.
    pub fn functions(&self) -> &TableFunctions<'a>
        ensures { several_of result.now ≡ functions_in self.now }
    {
        &self.functions
    }

    /// The ground task.
    pub fn ground(&self) -> &'g Ground<'t>
        ensures { result.now ≡ ground_in self.now }
    {
        self.ground
    }
}

/// The scratch moves to each state whose value is asked. Only tables with an atom that differs are looked up.
impl Guide for FairTables<'_, '_, '_> {
    ghost use Rattle.std.specs.Prelude.{length};
    ghost use Rattle.grounding.specs.Ground.{task_in, atoms_in};
    ghost use Rattle.model.specs.Grounding.{ground_system};
    ghost use Rattle.search.proofs.Consistent.{admissible};
    ghost use Rattle.search.proofs.DeadEnds.{reports_dead_ends};
    ghost use Rattle.lower_bounds.specs.TableFunctions.{functions_of, dead_ends_of, greatest_value, is_dead_by};
    ghost use Rattle.tables.specs.Several.{Knows};
    ghost use Rattle.guides.specs.FairTables.{functions_in, ground_in};

    type Scratch = KnownState;

    ghost width_of = { λ guide. length (atoms_in (ground_in guide)) };

    ghost system_of = { λ guide. ground_system (task_in (ground_in guide)) (atoms_in (ground_in guide)) };

    ghost estimate_of = { λ guide. greatest_value (functions_of (functions_in guide)) };

    ghost is_dead = { λ guide. is_dead_by (dead_ends_of (functions_in guide)) };

    ghost fits = { λ guide. Knows guide.functions };

    ghost is_admissible = { λ guide. admissible (ground_system (task_in (ground_in guide)) (atoms_in (ground_in guide))) (greatest_value (functions_of (functions_in guide))) guide.guides.estimate };

    ghost reports_dead_ends = { λ guide. reports_dead_ends (ground_system (task_in (ground_in guide)) (atoms_in (ground_in guide))) (is_dead_by (dead_ends_of (functions_in guide))) guide.guides.dead_ends };

    fn scratch(&self, alloc: Global) -> Result<KnownState, NoMemory> {
        self.functions.known_state(alloc)
    }

    fn move_to(&self, state: &Packed, known: &mut KnownState) {
        self.functions.move_to(state, known);
    }

    fn value(&self, state: &Packed, known: &mut KnownState) -> Option<u64> {
        self.functions.value_unless_dead(state, known)
    }
}

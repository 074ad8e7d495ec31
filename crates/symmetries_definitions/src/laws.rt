//! Laws of symmetries (exchanges, that is, products of transpositions of objects), proved for all tasks. The functions do
//! nothing.
ghost use Rattle.model.specs.Runs.{System};
ghost use Rattle.model.specs.Claims.{ClosedListingsClaim};
ghost use Rattle.model.specs.Bisimulation.{ReachGoalsAlike};
ghost use Rattle.symmetries_definitions.specs.Laws.{TestIsExact, SymmetriesKeepMeaning, SymmetriesAreAutomorphisms, OrbitsKeepSteps, AlikeStatesAreOfOneOrbit, StatesAloneStandForThemselves, ListingsByExchangesClaim, PackedStatesAreAlike, GoalsAreReachedAlike};
ghost use Rattle.symmetries_definitions.specs.SymmetryExamples.{AreExchangesJudged, AreTasksJudged, AreActionsJudged, AreGoalsJudged, AreRepresentativesJudged};

/// An exchange passes the test exactly if its objects are all different and it is a symmetry of the task.
pub fn test_is_exact()
    ensures { TestIsExact }
{}

/// Formulas and effects keep their meaning if a symmetry is applied to them, to the state and to the variable bindings.
pub fn symmetries_keep_meaning()
    ensures { SymmetriesKeepMeaning }
{}

/// A symmetry of a task takes each step to a step of the same cost, and goals to goals.
pub fn symmetries_are_automorphisms()
    ensures { SymmetriesAreAutomorphisms }
{}

/// States that automorphisms of a transition system map to each other have the same transitions, with the same costs, and agree
/// on goals.
pub fn orbits_keep_steps<S, A>()
    ensures { (t : System S A) → OrbitsKeepSteps t }
{}

/// States with the same representative under the symmetries of a task are in the same orbit.
pub fn alike_states_are_of_one_orbit()
    ensures { AlikeStatesAreOfOneOrbit }
{}

/// Without exchanges, each state is its own representative.
pub fn states_alone_stand_for_themselves()
    ensures { StatesAloneStandForThemselves }
{}

/// A transition system, with a relation of states from which the goal is reached at the same costs.
pub trait AlikeStates<S, A> {
    ghost system: { System S A };

    ghost alike: { S → S → Type 0 };

    ghost within: { (s r : S) → alike s r → ReachGoalsAlike system s r };
}

/// What a listing closed up to that relation claims is true.
pub fn closed_listings_claim<S, A, C: AlikeStates<S, A>>()
    ensures { ClosedListingsClaim C.system C.alike }
{}

/// What a listing closed up to symmetries of the task claims is true of every list of instances, of whatever length.
pub fn listings_by_exchanges_claim()
    ensures { ListingsByExchangesClaim }
{}

/// Packed states are related exactly if the states that they stand for are.
pub fn packed_states_are_alike()
    ensures { PackedStatesAreAlike }
{}

/// From related packed states the goal of the ground task is reached at the same costs.
pub fn goals_are_reached_alike()
    ensures { GoalsAreReachedAlike }
{}

/// The worked examples of exchanges: balls, grippers and rooms, and objects that occur in two pairs.
pub fn exchange_examples_are_judged()
    ensures { AreExchangesJudged }
{}

/// The worked examples of parcels: where they must go, and how they may differ.
pub fn task_examples_are_judged()
    ensures { AreTasksJudged }
{}

/// The worked examples of actions that name a parcel, at each place that may do so.
pub fn action_examples_are_judged()
    ensures { AreActionsJudged }
{}

/// The worked examples of goals: their conjuncts, and parts of other formulas.
pub fn goal_examples_are_judged()
    ensures { AreGoalsJudged }
{}

/// The worked examples of representatives of states.
pub fn representative_examples_are_judged()
    ensures { AreRepresentativesJudged }
{}

//! Whether it pays to ask for landmark values, and for how long to try it, by samples of a paused search.
ghost use Rattle.std.specs.Prelude.{◌≡◌, ◌≤◌, length};
ghost use Rattle.grounding.specs.Ground.{atoms_in};
ghost use Rattle.packed_state.specs.Packed.{bits_of};
ghost use Rattle.landmarks_drafted.specs.Drafts.{IsOneValue, atom_count_of};

use faults::NoMemory;
use grounding::Ground;
use landmarks::value_in;
use landmarks_drafted::{Claim, CutDrafter, Draft};
use packed_state::Packed;
use search::{Node, StateListing};
use std::alloc::Global;

/// The number of expanded states by which it is estimated, at most. With 512, card games took up to twice as long as without asking.
const MAX_SAMPLES: usize = 64;

/// The steps of all drafts for them, at most.
const MAX_STEPS: u64 = 50_000_000;

/// Cost model: this many steps of a draft take the time of one successor.
const STEPS_FOR_SUCCESSOR: u64 = 15;

/// Cost model: a draft of a search counts one part in this many of a sample's. Samples are drafted from nothing. In a search most drafts go
/// on from the value of the state's parent, and a value serves several states. With a lower price elevators of six took 4.8 s for 3.3, and
/// floortile of 5 by 3 had no answer in 12 s, for 4.8 s.
const PARTS_OF_SAMPLE: u64 = 3;

/// A trial may list one part in this many of the states that the paused search has listed, and its drafts may take as much of its time.
const PARTS_FOR_TRIAL: u32 = 12;

/// What a search that asks for landmark values may take before it is given up.
#[derive(Clone, Copy)]
pub struct Budget {
    /// The number of listed states.
    pub states: u32,
    /// The steps of drafts, after which no further value is drafted.
    pub steps: u64,
}

impl Budget {
    /// Nothing.
    pub fn none() -> Budget {
        Budget {
            states: 0,
            steps: 0,
        }
    }

    /// As much as there is.
    pub fn unlimited() -> Budget {
        Budget {
            states: u32::MAX,
            steps: u64::MAX,
        }
    }
}

/// A paused search: what it listed, how it reached each state, in order, and its bound so far.
#[derive(Drop)]
pub struct Paused<'a, L> {
    /// The listed states.
    pub listing: &'a L,
    /// How each was reached.
    pub nodes: &'a [Node],
    /// A lower bound of every plan's cost.
    pub bound: u64,
}

/// Whether landmark values would have saved the expansion of a state.
#[derive(Clone, Copy)]
enum Expansion {
    /// They would have.
    Saved,
    /// They would not have.
    Needed,
}

/// Counts of sampled states that were expanded.
#[derive(Clone, Copy)]
struct Sampled {
    /// Their number.
    expanded: u64,
    /// Those of them that landmark values would have saved.
    saved: u64,
    /// Their successors.
    successors: u64,
}

/// Whether it is estimated that a search which asks for landmark values, from the beginning, takes less time than this one to its end.
/// Nothing is promised of the estimate.
///
/// # Errors
/// Memory is refused.
pub fn pays<L: StateListing>(
    alloc: Global,
    ground: &Ground<'_>,
    paused: &Paused<'_, L>,
) -> Result<bool, NoMemory>
    requires width { L.width_of paused.now.listing.now ≡ length (atoms_in ground.now) }
    requires one_for_each { length paused.now.nodes.now ≡ length (L.states paused.now.listing.now) }
    requires few { length paused.now.nodes.now ≤ 16777216 }
{
    let mut sampled = Sampled::none();
    let mut drafter = CutDrafter::new(alloc, ground)?;
    let mut state = Packed::empty(alloc, ground.width())?;
    let mut applicable = Vec::new(alloc);
    let step = paused.nodes.len() / MAX_SAMPLES + 1;
    for place in 0..paused.nodes.len() {
        let node = paused.nodes[place];
        if place % step == 0 && node.is_expanded() && drafter.steps() < MAX_STEPS {
            paused.listing.get(place as u32, &mut state);
            ground.list_applicable(&state, &mut applicable)?;
            let most = paused.bound.saturating_sub(node.cost);
            let fate = fate(&mut drafter, alloc, &state, most)?;
            sampled = sampled.with(applicable.len(), fate);
        }
    }
    Ok(sampled.take_less_time(drafter.steps()))
}

/// The budget of a trial: of a search that asks for landmark values, from the beginning, up to a part of what this one has taken. Nothing
/// is promised of the estimate.
///
/// # Errors
/// Memory is refused.
pub fn budget_for_trial<L: StateListing>(
    alloc: Global,
    ground: &Ground<'_>,
    paused: &Paused<'_, L>,
) -> Result<Budget, NoMemory>
    requires width { L.width_of paused.now.listing.now ≡ length (atoms_in ground.now) }
    requires one_for_each { length paused.now.nodes.now ≡ length (L.states paused.now.listing.now) }
    requires few { length paused.now.nodes.now ≤ 16777216 }
{
    let mut state = Packed::empty(alloc, ground.width())?;
    let mut applicable = Vec::new(alloc);
    let mut expanded = 0u64;
    let mut sampled = Sampled::none();
    let step = paused.nodes.len() / MAX_SAMPLES + 1;
    for place in 0..paused.nodes.len() {
        if paused.nodes[place].is_expanded() {
            expanded = expanded.saturating_add(1);
            if place % step == 0 {
                paused.listing.get(place as u32, &mut state);
                ground.list_applicable(&state, &mut applicable)?;
                sampled = sampled.with(applicable.len(), Expansion::Needed);
            }
        }
    }
    Ok(Budget {
        states: paused.nodes.len() as u32 / PARTS_FOR_TRIAL,
        steps: sampled.time_of(expanded) / u64::from(PARTS_FOR_TRIAL),
    })
}

/// Whether landmark values would have saved the expansion of the state, from which a plan is to cost no more than this.
fn fate(
    drafter: &mut CutDrafter,
    alloc: Global,
    state: &Packed,
    most: u64,
) -> Result<Expansion, NoMemory>
    requires width { length (bits_of state.now) ≡ atom_count_of drafter.old }
    ensures same { atom_count_of drafter.new ≡ atom_count_of drafter.old }
{
    match drafter.draft(alloc, state)? {
        Some(draft) if is_beyond(&draft, state, most) => Ok(Expansion::Saved),
        _ => Ok(Expansion::Needed),
    }
}

/// Whether the draft shows that the state is a dead end, or that its remaining cost is greater than this.
fn is_beyond(draft: &Draft, state: &Packed, most: u64) -> bool
    requires { IsOneValue (length (bits_of state.now)) draft.now }
{
    let value = value_in(state, &draft.landmarks, draft.landmarks.value(0));
    match draft.claim {
        Claim::DeadEnd => value > 0,
        Claim::LowerBound => value > most,
    }
}

impl Sampled {
    /// No states.
    fn none() -> Sampled {
        Sampled {
            expanded: 0,
            saved: 0,
            successors: 0,
        }
    }

    /// One expanded state more, with this many successors.
    fn with(self, successors: usize, expansion: Expansion) -> Sampled {
        let saved = match expansion {
            Expansion::Saved => 1,
            Expansion::Needed => 0,
        };
        Sampled {
            expanded: self.expanded.saturating_add(1),
            saved: self.saved.saturating_add(saved),
            successors: self.successors.saturating_add(successors as u64),
        }
    }

    /// The time of their expansions, in steps.
    fn time(self) -> u64 {
        self.successors
            .saturating_add(self.expanded)
            .saturating_mul(STEPS_FOR_SUCCESSOR)
    }

    /// Whether the states that are left take less time, with drafts of this many steps for all of these, than all without.
    fn take_less_time(self, steps: u64) -> bool {
        let left = self.expanded.saturating_sub(self.saved);
        let without = self.time();
        let with = without.saturating_add(steps / PARTS_OF_SAMPLE);
        self.expanded > 0 && left.saturating_mul(with) <= self.expanded.saturating_mul(without)
    }

    /// The time of this number of expansions, in steps; 0 if there are no samples.
    fn time_of(self, expanded: u64) -> u64 {
        if self.expanded == 0 {
            return 0;
        }
        expanded.saturating_mul(self.time()) / self.expanded
    }
}

//! A paused search, and how many of its expansions other values would have saved.
ghost use Rattle.std.specs.Prelude.{◌≡◌};
ghost use Rattle.search_spaces.specs.GroundListing.{listed_width};
ghost use Rattle.solver.specs.Stopped.{IsStopped};
ghost use Rattle.tables.specs.Several.{width_of};

use faults::NoMemory;
use line_evidence::Paused;
use packed_state::Packed;
use potentials::Potentials;
use search::{Node, StateListing};
use search_spaces::GroundListing;
use std::alloc::Global;
use tables::TableFunctions;
use tables_drafted::Effort;

/// The number of sample states, at most.
const MAX_SAMPLES: usize = 32;

/// The number of states by which the saving is estimated, at most.
const MAX_ASKED: usize = 1_000;

/// A paused search: the found states, how they were reached, and the bound so far.
#[derive(Clone, Copy)]
pub(crate) struct Stopped<'a, 'l, 't> {
    pub(crate) bound: u64,
    pub(crate) listing: &'a GroundListing<'l, 't>,
    /// How each state was reached, in order.
    pub(crate) nodes: &'a [Node],
    /// The potentials that guide it, alone or as the first value over tables, and those for dead ends.
    pub(crate) potentials: &'a Potentials,
    pub(crate) dead_ends: &'a Potentials,
    /// The effort of the next draft of tables, if there is to be one.
    pub(crate) effort: Option<Effort>,
    /// The number of tables that guide it.
    pub(crate) table_count: usize,
}

/// Counts of sampled states: those that were expanded, and those of them that other values would have saved.
#[derive(Clone, Copy)]
pub(crate) struct Saving {
    expanded: usize,
    saved: usize,
}

/// Whether other values would have saved the expansion of a state.
#[derive(Clone, Copy)]
enum Expansion {
    /// They would have.
    Saved,
    /// They would not have.
    Needed,
}

/// Cost model: evaluating this many tables doubles the time for a state. With 24 and 48 none of 14 tasks changed.
const TABLES_AT_A_TIME: usize = 12;

impl<'a, 'l, 't> Stopped<'a, 'l, 't> {
    /// The paused search alone.
    pub(crate) fn paused(&self) -> Paused<'a, GroundListing<'l, 't>>
        ensures listing { result.listing.now ≡ self.now.listing.now }
        ensures nodes { result.nodes.now ≡ self.now.nodes.now }
    {
        Paused {
            listing: self.listing,
            nodes: self.nodes,
            bound: self.bound,
        }
    }

    /// The true atoms of some states, spread evenly over the listing.
    pub(crate) fn samples(&self, alloc: Global) -> Result<Vec<Vec<u32>>, NoMemory>
        requires { IsStopped self.now.listing.now self.now.nodes.now }
    {
        let mut set = Packed::empty(alloc, self.listing.width())?;
        let mut samples = Vec::new(alloc);
        let step = self.nodes.len() / MAX_SAMPLES + 1;
        for place in 0..self.nodes.len() {
            if place % step == step / 2 {
                self.listing.get(place as u32, &mut set);
                samples.push(set.numbers(alloc)?)?;
            }
        }
        Ok(samples)
    }

    /// The expansions that a search by these values would have saved up to the same bound: states that are dead by them, or whose cost and
    /// greatest value exceed the bound. It is estimated from some states, spread evenly. The values need not be fair.
    pub(crate) fn saving_by(
        &self,
        alloc: Global,
        functions: &TableFunctions<'_>,
    ) -> Result<Saving, NoMemory>
        requires stopped { IsStopped self.now.listing.now self.now.nodes.now }
        requires width { width_of functions.now ≡ listed_width self.now.listing.now }
    {
        let mut saving = Saving {
            expanded: 0,
            saved: 0,
        };
        let mut known = functions.known_state(alloc)?;
        let mut set = Packed::empty(alloc, self.listing.width())?;
        let step = self.nodes.len() / MAX_ASKED + 1;
        for place in 0..self.nodes.len() {
            let node = self.nodes[place];
            if place % step == 0 && node.is_expanded() {
                self.listing.get(place as u32, &mut set);
                let estimate = functions.value_unless_dead(&set, &mut known);
                saving.count(self.expansion(node.cost, estimate));
            }
        }
        Ok(saving)
    }

    /// Whether the expansion of a state of this cost and estimate is saved. `None`: the state is dead.
    fn expansion(&self, cost: u64, estimate: Option<u64>) -> Expansion {
        match estimate {
            Some(estimate) if cost.saturating_add(estimate) <= self.bound => Expansion::Needed,
            _ => Expansion::Saved,
        }
    }
}

/// The estimated time for a state, evaluated by this many tables.
fn time(tables: usize) -> usize {
    tables.saturating_add(TABLES_AT_A_TIME)
}

impl Saving {
    /// Counts one more expanded state.
    fn count(&mut self, expansion: Expansion) {
        self.expanded = self.expanded.saturating_add(1);
        match expansion {
            Expansion::Saved => self.saved = self.saved.saturating_add(1),
            Expansion::Needed => {}
        }
    }

    /// Whether a search by this many tables is expected to take no more time than going on by `before` tables: it expands fewer states,
    /// and each takes longer. A search by tables is assumed to be half done, so what is left of its states counts twice: up to here, and
    /// from here on. A search by potentials mostly has more to do than it has done.
    pub(crate) fn is_worth(self, before: usize, tables: usize) -> bool {
        let left = self.expanded.saturating_sub(self.saved);
        let times = if before == 0 { 1usize } else { 2 };
        self.expanded > 0
            && left.saturating_mul(times).saturating_mul(time(tables))
                <= self.expanded.saturating_mul(time(before))
    }

    /// Whether other tables may save enough: these would have saved a quarter.
    pub(crate) fn is_promising(self) -> bool {
        self.expanded > 0 && self.saved >= self.expanded / 4
    }
}

//! Which tables are built: those over single variables, and over pairs and triples of related variables, chosen like the
//! interesting patterns of Pommerening, Röger & Helmert 2013, "Getting the Most Out of Pattern Databases for Classical Planning".
use crate::costs::Costs;
use crate::draft::Effort;
use crate::goal_distances::{GoalDistances, distance_of};
use crate::links::Links;
use abstractions::{Reaching, RowGraph, Shutters, VariableTask, place_of};
use faults::DraftMemory;
use grounding::{Ground, instance_count};

/// The maximum number of variables of a table.
const MAX_VARIABLES: usize = 3;

/// The memory limit for all tables: rows plus an eighth of the arcs. With 4,194,304 rows none of the 41 tasks of `bench/table_tasks.py`
/// has other tables.
const MAX_ROOM: usize = 1_500_000;

/// Work limit for building tables: instances, and classes in rows.
const MAX_LOOKS: u64 = 16_000_000;

/// The maximum number of row tests needed to test what instances lose by one table.
const MAX_TESTS: u64 = 4_000_000;

/// The maximum number of tables.
const MAX_TABLES: usize = 2_000;

/// The state of the collection.
#[derive(Drop)]
pub(crate) struct Collecting<'a, 't> {
    pub(crate) memory: &'a DraftMemory,
    pub(crate) ground: &'a Ground<'t>,
    pub(crate) task: VariableTask<'a>,
    pub(crate) reaching: Reaching<'a>,
    pub(crate) shutters: Shutters,
    /// The cost of each instance; `None` if it is shut out.
    pub(crate) costs: Costs,
    /// The values of variables in the states whose values are to be raised, the initial state first.
    pub(crate) states: &'a [Vec<u32>],
    pub(crate) effort: Effort,
    pub(crate) collected: Collected,
    pub(crate) finder: GoalDistances<'a>,
    /// The memory used: rows plus an eighth of the arcs.
    pub(crate) room: usize,
}

/// Tables, each with what it is for.
#[derive(Drop)]
pub(crate) struct Collected {
    pub(crate) graphs: Vec<RowGraph>,
    uses: Vec<Use>,
}

/// What a table is for.
#[derive(Clone, Copy)]
enum Use {
    /// It shuts out instances.
    ShutsOut,
    /// It only gives values.
    Values,
}

/// A candidate table: its variables, and the number of combinations of their values.
#[derive(Debug, PartialEq, Eq, PartialOrd, Ord, Drop)]
struct CandidateTable {
    combinations: u32,
    variables: Vec<u32>,
}

impl Collected {
    /// No tables.
    pub(crate) fn new(memory: &DraftMemory) -> Collected {
        Collected {
            graphs: memory.list(),
            uses: memory.list(),
        }
    }

    /// Whether the table at this index shuts out instances.
    pub(crate) fn is_shutting(&self, place: usize) -> bool {
        match self.uses.get(place) {
            Some(Use::ShutsOut) => true,
            _ => false,
        }
    }
}

impl Collecting<'_, '_> {
    /// Collects tables over single variables, and then over related variables, smaller ones first.
    pub(crate) fn collect(&mut self) {
        for variable in 0..self.task.variables.count() {
            if !self.task.goals.ask_of(variable) && self.task.variables.value_count(variable) > 2 {
                self.add(&[variable]);
            }
        }
        let links = Links::new(self.memory, self.ground, self.task.variables);
        let mut level = self.first_level();
        for _ in 1..MAX_VARIABLES {
            let candidates = self.add_level(level);
            level = self.grown(&links, &candidates);
        }
        self.add_level(level);
    }

    /// The single variables that the goal asks of.
    fn first_level(&self) -> Vec<Vec<u32>> {
        let mut level = self.memory.list();
        for variable in 0..self.task.variables.count() {
            if self.task.goals.ask_of(variable) {
                let alone = self.memory.filled(variable, 1);
                self.memory.push(&mut level, alone);
            }
        }
        level
    }

    /// Adds the tables over these sets of variables, smaller ones first. Returns the sets that are not too large.
    fn add_level(&mut self, level: Vec<Vec<u32>>) -> Vec<CandidateTable> {
        let candidates = self.candidates(level);
        for candidate in &candidates {
            self.add(&candidate.variables);
        }
        candidates
    }

    /// The sets of variables that are not too large, those with the fewest combinations first.
    fn candidates(&self, level: Vec<Vec<u32>>) -> Vec<CandidateTable> {
        let mut candidates = self.memory.list();
        for variables in level {
            if let Some(combinations) = self.reaching.combinations(&variables) {
                let candidate = CandidateTable {
                    combinations,
                    variables,
                };
                self.memory.push(&mut candidates, candidate);
            }
        }
        candidates.sort_unstable();
        candidates.dedup();
        candidates
    }

    /// The sets, extended by one variable related to one of theirs.
    fn grown(&self, links: &Links, candidates: &[CandidateTable]) -> Vec<Vec<u32>> {
        let mut level = self.memory.list();
        for candidate in candidates {
            if self.memory.is_refused() {
                break;
            }
            for variable in &candidate.variables {
                for more in links.required(*variable) {
                    self.grow(&candidate.variables, *more, &mut level);
                }
                for more in links.changed(*variable) {
                    if self.task.goals.ask_of(*more) {
                        self.grow(&candidate.variables, *more, &mut level);
                    }
                }
            }
        }
        level.sort_unstable();
        level.dedup();
        level
    }

    /// Adds the set extended by the variable, unless it shares an atom with one of the others.
    fn grow(&self, variables: &[u32], more: u32, level: &mut Vec<Vec<u32>>) {
        if level.len() > MAX_TABLES.saturating_mul(8)
            || variables
                .iter()
                .any(|variable| self.task.variables.overlap(*variable, more))
        {
            return;
        }
        let mut grown = self.memory.copied(variables);
        self.memory.push(&mut grown, more);
        grown.sort_unstable();
        self.memory.push(level, grown);
    }

    /// Adds the table over these variables, if the limits allow it and it is useful: it shuts out instances, or has a value in some
    /// of the states.
    fn add(&mut self, variables: &[u32]) {
        if self.is_done() {
            return;
        }
        if let Some(graph) = self.reaching.reached(variables, &self.shutters) {
            self.add_graph(graph);
        }
    }

    /// Adds the table if it is useful.
    fn add_graph(&mut self, graph: RowGraph) {
        let shut_out = graph.shut_out(self.memory);
        self.shutters.shut_out(&shut_out);
        self.costs.shut_out(&shut_out);
        if !shut_out.is_empty() {
            self.push(graph, Use::ShutsOut);
        } else if graph.test_count() <= self.part_of(MAX_TESTS) && self.gives(&graph) {
            self.push(graph, Use::Values);
        }
    }

    /// Adds the table.
    fn push(&mut self, graph: RowGraph, is_for: Use) {
        self.room = self
            .room
            .saturating_add(graph.state_count())
            .saturating_add(graph.arc_count() / 8);
        self.memory.push(&mut self.collected.graphs, graph);
        self.memory.push(&mut self.collected.uses, is_for);
    }

    /// The limit at this effort.
    fn part_of(&self, count: u64) -> u64 {
        self.effort.part_of(count, self.costs.left().len())
    }

    /// Whether a limit is reached, or memory was refused.
    fn is_done(&self) -> bool {
        self.memory.is_refused()
            || self.reaching.looks() > self.part_of(MAX_LOOKS)
            || self.room > MAX_ROOM
            || self.collected.graphs.len() >= MAX_TABLES
    }

    /// Whether some of the states has a value in the table under the full costs, or is a dead end.
    fn gives(&mut self, graph: &RowGraph) -> bool {
        let distances = self.finder.of(graph, &self.costs);
        self.states.iter().any(|values| match graph.state_of(values) {
            Some(state) => distance_of(&distances, state) > 0,
            None => false,
        })
    }
}

/// The cost of each instance; `None` if it is shut out.
pub(crate) fn costs_of(memory: &DraftMemory, ground: &Ground<'_>, shutters: &Shutters) -> Costs {
    let mut left = memory.list();
    for number in 0..instance_count(ground) {
        let cost = if shutters.is_shut_out(number) {
            None
        } else {
            Some(i64::from(ground.cost(number)))
        };
        memory.push(&mut left, cost);
    }
    Costs::new(left)
}

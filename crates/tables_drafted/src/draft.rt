//! Drafts of values over tables, from the ground task to tables in memory.
ghost use Rattle.std.specs.Prelude.{◌≡◌, IfOk, IfSome, Some, map, slice_get};
ghost use Rattle.potentials.specs.Potentials.{potentials_of};

use crate::chosen::{Choosing, PartitionedValue};
use crate::collected::{Collected, Collecting, costs_of};
use crate::costs::Costs;
use crate::dead_ends::DeadEnds;
use crate::goal_distances::GoalDistances;
use crate::states::{Sampled, abstract_states_of_all, first_of, samples, values_of_all};
use crate::written::{Writing, part_of, weight_of_dead};
use abstractions::{
    GoalValues, Reaching, RowLimits, Shutters, Steps, VariableTask, Variables, found_groups,
};
use faults::{DraftMemory, NoMemory};
use grounding::Ground;
use potentials::Potentials;
use potentials_drafted::ProgramInput;
use std::alloc::Global;
use table_rows::Table;

/// The size limits of a table.
const LIMITS: RowLimits = RowLimits {
    combinations: 262_144,
    arcs: 3_000_000,
};

/// The maximum number of atoms and of instances of a task that tables are drafted for.
const MAX_ATOMS: u32 = 20_000;

const MAX_INSTANCES: usize = 200_000;

/// Several values over tables, whose maximum counts, and one for dead ends. The weights of a row are in this order, the one for
/// dead ends last.
#[derive(Drop)]
pub struct DraftedTables {
    /// The tables.
    pub tables: Vec<Table>,
    /// The constant and the atom weights of each value. The first value is the given potentials.
    pub values: Vec<Potentials>,
    /// The potentials for dead ends.
    pub dead_ends: Potentials,
}

/// The tables of a draft, and the potentials of its values after the first.
#[derive(Drop)]
struct DraftedValues {
    tables: Vec<Table>,
    others: Vec<Potentials>,
}

/// Tables, and the costs of the instances that they do not shut out.
#[derive(Drop)]
struct Known {
    collected: Collected,
    costs: Costs,
}

/// How much effort is put into a draft.
#[derive(Clone, Copy, Debug, PartialEq, Eq)]
pub enum Effort {
    /// A tenth to a quarter of the limits, by the number of instances: with few of them, states take little time.
    Quick,
    /// The full limits.
    Thorough,
}

impl Effort {
    /// The limit at this effort, for a task with this many instances.
    pub(crate) fn part_of(self, count: u64, instances: usize) -> u64 {
        let thousandths = match self {
            Effort::Quick => (instances as u64).max(100).min(250),
            Effort::Thorough => 1000,
        };
        count.saturating_mul(thousandths) / 1000
    }
}

/// Inputs of a draft: potentials to beat, sample states, effort.
#[derive(Clone, Copy)]
pub struct DraftInput<'a> {
    /// The potentials that the values should exceed.
    pub potentials: &'a Potentials,
    /// The potentials for dead ends.
    pub dead_ends: &'a Potentials,
    /// The states, by their true atoms, in which the values should exceed them. The initial state and some random-walk states are
    /// always added.
    pub states: &'a [Vec<u32>],
    /// Further start states, by their true atoms: they and their successors count as reachable, as the initial state does.
    pub starts: &'a [Vec<u32>],
    /// The effort.
    pub effort: Effort,
}

/// A ground task over variables, for which tables are drafted.
#[derive(Clone, Copy)]
struct Subject<'a, 't> {
    memory: &'a DraftMemory,
    ground: &'a Ground<'t>,
    variables: &'a Variables,
    inputs: &'a DraftInput<'a>,
}

/// Values over tables that may exceed those of potentials. `None` if no table is useful, or the task is too large.
///
/// # Errors
/// An allocation failed.
pub fn drafted_tables(
    alloc: Global,
    ground: &Ground<'_>,
    inputs: &DraftInput<'_>,
) -> Result<Option<DraftedTables>, NoMemory>
    ensures first { IfOk result (λ o. IfSome o (λ draft. slice_get (map potentials_of draft.values.items) 0 ≡ Some (potentials_of inputs.now.potentials.now))) }
    ensures dead_ends { IfOk result (λ o. IfSome o (λ draft. potentials_of draft.dead_ends ≡ potentials_of inputs.now.dead_ends.now)) }
{
    if ground.width() > MAX_ATOMS || ground.instances().len() > MAX_INSTANCES {
        return Ok(None);
    }
    let memory = DraftMemory::new(alloc);
    let drafted = drafted_values(&memory, ground, inputs);
    match memory.finish(drafted)? {
        Some(drafted) => with_given(alloc, drafted, inputs),
        None => Ok(None),
    }
}

/// The draft, whose first value and whose potentials for dead ends are the given ones.
fn with_given(
    alloc: Global,
    drafted: DraftedValues,
    inputs: &DraftInput<'_>,
) -> Result<Option<DraftedTables>, NoMemory>
    ensures first { IfOk result (λ o. IfSome o (λ draft. slice_get (map potentials_of draft.values.items) 0 ≡ Some (potentials_of inputs.now.potentials.now))) }
    ensures dead_ends { IfOk result (λ o. IfSome o (λ draft. potentials_of draft.dead_ends ≡ potentials_of inputs.now.dead_ends.now)) }
{
    let DraftedValues { tables, others } = drafted;
    Ok(Some(DraftedTables {
        tables,
        values: values_after(alloc, inputs.potentials, others)?,
        dead_ends: inputs.dead_ends.copied(alloc)?,
    }))
}

/// The values with this first one.
fn values_after(
    alloc: Global,
    first: &Potentials,
    mut others: Vec<Potentials>,
) -> Result<Vec<Potentials>, NoMemory>
    ensures { IfOk result (λ values. slice_get (map potentials_of values.items) 0 ≡ Some (potentials_of first.now)) }
{
    let first = first.copied(alloc)?;
    others.insert(0, first)?;
    Ok(others)
}

/// The useful tables and the values over them, if there are any.
fn drafted_values(
    memory: &DraftMemory,
    ground: &Ground<'_>,
    inputs: &DraftInput<'_>,
) -> Option<DraftedValues> {
    let initial = memory.kept(ground.initial(memory.alloc()))?;
    let groups = found_groups(memory, ground, &initial);
    let variables = Variables::new(memory, ground.width(), &groups);
    let mut input = memory.kept(ProgramInput::new(memory.alloc(), ground, &initial))?;
    let subject = Subject {
        memory,
        ground,
        variables: &variables,
        inputs,
    };
    subject.draft(&mut input)
}

impl Subject<'_, '_> {
    /// The draft, whose potentials are drafted from this input.
    fn draft(&self, input: &mut ProgramInput) -> Option<DraftedValues> {
        let atoms = samples(self.memory, input.states(), self.inputs.states);
        let values = values_of_all(self.memory, self.variables, &atoms);
        let known = self.known(input, &values)?;
        let numbers = abstract_states_of_all(self.memory, &known.collected.graphs, &values);
        let sampled = Sampled {
            atoms: &atoms,
            abstract_states: &numbers,
        };
        self.draft_by(&known, sampled, input)
    }

    /// Tables over the variables, and the costs of the instances that they do not shut out, for the values of variables in the
    /// sampled states. `None` if the task is too large.
    fn known(&self, input: &ProgramInput, states: &[Vec<u32>]) -> Option<Known> {
        let steps = Steps::new(self.memory, self.ground, self.variables)?;
        let starts = samples(self.memory, first_of(input.states()), self.inputs.starts);
        let starts = values_of_all(self.memory, self.variables, &starts);
        let goals = GoalValues::new(self.memory, self.variables, self.ground.goal_literals());
        let task = VariableTask {
            variables: self.variables,
            steps: &steps,
            goals: &goals,
            starts: &starts,
        };
        Some(self.collected(task, states))
    }

    /// The same for the task over the variables.
    fn collected(&self, task: VariableTask<'_>, states: &[Vec<u32>]) -> Known {
        let memory = self.memory;
        let shutters = Shutters::new(memory, self.ground);
        let mut collecting = Collecting {
            memory,
            ground: self.ground,
            task,
            reaching: Reaching::new(memory, task, LIMITS),
            costs: costs_of(memory, self.ground, &shutters),
            shutters,
            states,
            effort: self.inputs.effort,
            collected: Collected::new(memory),
            finder: GoalDistances::new(memory),
            room: 0,
        };
        collecting.collect();
        let Collecting {
            collected,
            costs,
            ..
        } = collecting;
        Known { collected, costs }
    }

    /// The draft over known tables.
    fn draft_by<'k>(
        &self,
        known: &'k Known,
        sampled: Sampled<'k>,
        input: &mut ProgramInput,
    ) -> Option<DraftedValues> {
        let choosing = Choosing {
            memory: self.memory,
            abstractions: &known.collected.graphs,
            costs: &known.costs,
            sampled,
            potentials: self.inputs.potentials,
            effort: self.inputs.effort,
        };
        let values = choosing.values(input);
        let tables = self.tables_of_use(known, &values, sampled)?;
        Some(DraftedValues {
            tables,
            others: potentials_in(self.memory, values),
        })
    }

    /// The useful tables, with the weights of these values; `None` if there are none. Of use is a table that shuts out instances,
    /// has a part in a value, or shows that some sampled state is a dead end where none before does.
    fn tables_of_use(
        &self,
        known: &Known,
        values: &[PartitionedValue],
        sampled: Sampled<'_>,
    ) -> Option<Vec<Table>> {
        let writing = Writing {
            memory: self.memory,
            variables: self.variables,
            values,
            weight_of_dead: weight_of_dead(self.inputs.dead_ends),
        };
        let mut dead_ends = DeadEnds::new(self.memory, sampled.abstract_states);
        let mut finder = GoalDistances::new(self.memory);
        let mut tables = self.memory.list();
        for (place, graph) in known.collected.graphs.iter().enumerate() {
            if self.memory.is_refused() {
                break;
            }
            let reach = finder.of(graph, &known.costs);
            let shows_more = dead_ends.show(place, &reach);
            if shows_more || known.is_used(place, values) {
                self.memory
                    .push(&mut tables, writing.table(place, graph, &reach)?);
            }
        }
        if tables.is_empty() {
            None
        } else {
            Some(tables)
        }
    }
}

impl Known {
    /// Whether the table at this index shuts out instances, or has a part in one of these values.
    fn is_used(&self, place: usize, values: &[PartitionedValue]) -> bool {
        self.collected.is_shutting(place)
            || values.iter().any(|value| part_of(value, place).is_some())
    }
}

/// The potentials of the values.
fn potentials_in(memory: &DraftMemory, values: Vec<PartitionedValue>) -> Vec<Potentials> {
    let mut all = memory.list();
    for value in values {
        let PartitionedValue { potentials, .. } = value;
        memory.push(&mut all, potentials);
    }
    all
}

//! The guide by drafted values over tables, if they pass the tests.
ghost use Rattle.std.specs.Prelude.{◌≡◌, ◌==◌, ◌≤◌, IfOk, IfSome, IsTrue, length, map};
ghost use Rattle.std.specs.List.{list_all};
ghost use Rattle.certificate.specs.Evidence.{is_evidence, evidence_of};
ghost use Rattle.certificate_definitions.specs.Certificates.{no_landmarks, three};
ghost use Rattle.grounding.specs.Ground.{task_in, atoms_in};
ghost use Rattle.model.specs.Grounding.{ground_system};
ghost use Rattle.lower_bounds.specs.Settled.{initial_value};
ghost use Rattle.lower_bounds.specs.TableFunctions.{functions_of, greatest_value};
ghost use Rattle.potentials.specs.Potentials.{potentials_of};
ghost use Rattle.solver.specs.Attempts.{IfDone};
ghost use Rattle.solver.specs.Guidance.{by_tables, estimate_by};
ghost use Rattle.search_spaces.specs.SearchSpace.{ground_in, IsSearchSpace};
ghost use Rattle.solver.specs.SeveralOver.{several_over};
ghost use Rattle.guides.specs.FairTables as guides;
ghost use Rattle.guides.specs.FairTables.{functions_in};
ghost use Rattle.table_rows.specs.Tables.{weight_count_of};
ghost use Rattle.table_rows.specs.declared.table.Table as in_memory;
ghost use Rattle.tables.specs.Several.{several_of, width_of};

use crate::attempt::Attempt;
use crate::by_tables::ValuesOver;
use crate::setting::Setting;
use devices::Clock;
use faults::NoMemory;
use grounding::Ground;
use guides::FairTables;
use potentials::Potentials;
use std::alloc::Global;
use table_rows::Table;
use tables::{IndexedTables, TableFunctions, ValuesFairness};

/// These values, if each table has a weight for each, and the initial state's value is at least that by the potentials.
pub(crate) fn functions_no_lower<'a>(
    setting: Setting<'_, '_>,
    over: ValuesOver<'a>,
    potentials: &Potentials,
) -> Result<Option<TableFunctions<'a>>, NoMemory>
    requires within_limits { IsTrue (is_evidence three (length (atoms_in (ground_in setting.space))) (evidence_of over.evidence.now) no_landmarks) }
    requires values { map potentials_of over.values.items ≡ (evidence_of over.evidence.now).values }
    requires dead_ends { potentials_of over.dead_ends ≡ (evidence_of over.evidence.now).dead_ends }
    requires width { length (potentials_of potentials.now).weights ≡ length (atoms_in (ground_in setting.space)) }
    ensures functions { IfOk result (λ o. IfSome o (λ functions. several_of functions ≡ evidence_of over.entry.evidence.now)) }
    ensures no_lower { IfOk result (λ o. IfSome o (λ _. initial_value (task_in (ground_in setting.entry.space)) (atoms_in (ground_in setting.entry.space)) (potentials_of potentials.now) ≤ estimate_by (by_tables (evidence_of over.entry.evidence.now)) (ground_system (task_in (ground_in setting.entry.space)) (atoms_in (ground_in setting.entry.space))).initial)) }
{
    let alloc = setting.alloc;
    let ground = setting.space.ground();
    let ValuesOver {
        evidence,
        values,
        dead_ends,
    } = over;
    let Some(functions) = functions_over(alloc, ground, &evidence.tables, values, dead_ends)? else {
        return Ok(None);
    };
    if !starts_no_lower(alloc, ground, &functions, potentials)? {
        return Ok(None);
    }
    Ok(Some(functions))
}

/// Whether the initial state's value is at least that by the potentials.
fn starts_no_lower(
    alloc: Global,
    ground: &Ground<'_>,
    functions: &TableFunctions<'_>,
    potentials: &Potentials,
) -> Result<bool, NoMemory>
    requires functions { width_of functions.now ≡ length (atoms_in ground.now) }
    requires width { length (potentials_of potentials.now).weights ≡ length (atoms_in ground.now) }
    ensures { IfOk result (λ is. IsTrue is → initial_value (task_in ground.now) (atoms_in ground.now) (potentials_of potentials.now) ≤ greatest_value (functions_of (several_of functions.now)) (ground_system (task_in ground.now) (atoms_in ground.now)).initial) }
{
    let initial = ground.initial(alloc)?;
    let mut known = functions.known_state(alloc)?;
    let value = functions.value(&initial, &mut known);
    Ok(potentials.value(&initial) <= value)
}

/// The guide by these values, if they are fair.
pub(crate) fn guide_if_fair<'l, 't, 'a, C: Clock>(
    setting: Setting<'l, 't>,
    functions: TableFunctions<'a>,
    clock: &C,
) -> Result<Attempt<FairTables<'l, 't, 'a>>, NoMemory>
    requires space { IsSearchSpace setting.space }
    requires width { width_of functions ≡ length (atoms_in (ground_in setting.space)) }
    ensures functions { IfOk result (IfDone (λ guide. functions_in guide ≡ several_of functions.entry)) }
    ensures ground { IfOk result (IfDone (λ guide. guides.ground_in guide ≡ ground_in setting.entry.space)) }
{
    if setting.limits.are_over(clock) {
        return Ok(Attempt::InVain);
    }
    let ground = setting.space.ground();
    match functions.fairness(setting.alloc, ground)? {
        ValuesFairness::Fair => {
            let guide = FairTables::new(functions, ground);
            Ok(Attempt::Done(guide))
        }
        _ => Ok(Attempt::InVain),
    }
}

/// These values over these tables, if each row has a weight for each value.
fn functions_over<'a>(
    alloc: Global,
    ground: &Ground<'_>,
    tables: &'a [Table],
    values: Vec<Potentials>,
    dead_ends: Potentials,
) -> Result<Option<TableFunctions<'a>>, NoMemory>
    requires within_limits { IsTrue (is_evidence three (length (atoms_in ground.now)) (several_over values.items dead_ends tables.now) no_landmarks) }
    ensures { IfOk result (λ o. IfSome o (λ f. several_of f ≡ several_over values.items dead_ends tables.now)) }
{
    let count = values.len() as u32 + 1;
    if !have_weights(tables, count) {
        return Ok(None);
    }
    let indexed = IndexedTables::index(alloc, ground.width(), count, tables)?;
    Ok(Some(TableFunctions::new(values, dead_ends, indexed)))
}

/// Whether each table has this number of weights a row. A table without rows has one too.
fn have_weights(tables: &[Table], count: u32) -> bool
    ensures { result ≡ list_all (λ (t : in_memory.Table). weight_count_of t == count) tables.now }
{
    for table in tables {
        if !has_weights(table, count) {
            return false;
        }
    }
    true
}

/// Whether the table does.
fn has_weights(table: &Table, count: u32) -> bool
    ensures { result ≡ (weight_count_of table.now == count) }
{
    table.weight_count() == count
}

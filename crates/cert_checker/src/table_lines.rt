//! The tables of a certificate and their rows, read line by line.
ghost use Rattle.std.specs.Prelude.{◌≡◌, ℕ, ◌<◌, All, IfErr, IfOk, IsTrue, OnOk, length, map};
ghost use Rattle.table_rows.specs.Rows.{are_rising};
ghost use Rattle.table_rows.specs.Tables.{table_of};
ghost use Rattle.certificate.specs.Evidence.{evidence_of};
ghost use Rattle.cert_checker.specs.Tabled.{AreWeighed, HaveWeights, IsAddedToLast, IsFitRow, IsFitScope, IsRowRefused, IsRowTaken, with_scope};

use crate::refusal::{Refusal, RefusalCode};
use certificate::Evidence;
use faults::NoMemory;
use std::alloc::Global;
use table_rows::{Added, Table};

/// Takes a table with this scope, which has no rows yet.
pub(crate) fn take_scope(
    alloc: Global,
    evidence: &mut Evidence,
    scope: Vec<u32>,
) -> Result<(), NoMemory>
    requires fit { IsFitScope evidence.old scope.items }
    ensures taken { OnOk result (evidence_of evidence.new ≡ with_scope (evidence_of evidence.old) scope.items) }
    ensures landmarks { evidence.new.landmarks ≡ evidence.old.landmarks }
    ensures weighed { OnOk result (AreWeighed evidence.old → AreWeighed evidence.new) }
{
    let count = evidence.values.len() as u32 + 1;
    let table = Table::new(alloc, scope, count)?;
    evidence.tables.push(table)?;
    Ok(())
}

/// Takes a row with these atoms and weights, from the line with this number. It belongs to the last table.
pub(crate) fn take_row(
    alloc: Global,
    evidence: &mut Evidence,
    atoms: &[u32],
    weights: &[i64],
    number: u64,
) -> Result<(), Refusal>
    requires fit { IsFitRow evidence.old.tables.items (record { atoms = atoms.now; weights = weights.now }) }
    ensures taken { OnOk result (IsRowTaken (evidence_of evidence.old) (evidence_of evidence.new) (record { atoms = atoms.now; weights = weights.now })) }
    ensures landmarks { evidence.new.landmarks ≡ evidence.old.landmarks }
    ensures wrong { IfErr result (IsRowRefused (map table_of evidence.old.tables.items) (record { atoms = atoms.now; weights = weights.now }) number) }
    ensures weighed { OnOk result (AreWeighed evidence.old → AreWeighed evidence.new) }
{
    match add_row(alloc, &mut evidence.tables, atoms, weights)? {
        Added::New => Ok(()),
        Added::OutsideScope => Err(Refusal::Line {
            code: RefusalCode::CertForm,
            line: number,
        }),
        Added::Repeated => Err(Refusal::Line {
            code: RefusalCode::Repeated,
            line: number,
        }),
    }
}

/// Adds the row to the last table.
fn add_row(
    alloc: Global,
    tables: &mut Vec<Table>,
    atoms: &[u32],
    weights: &[i64],
) -> Result<Added, NoMemory>
    requires fit { IsFitRow tables.old.items (record { atoms = atoms.now; weights = weights.now }) }
    ensures added { IfOk result (IsAddedToLast (map table_of tables.old.items) (map table_of tables.new.items) (record { atoms = atoms.now; weights = weights.now })) }
    ensures weighed { (count : ℕ) → HaveWeights count tables.old.items → HaveWeights count tables.new.items }
{
    let last = tables.len() - 1;
    tables[last].add(alloc, atoms, weights)
}

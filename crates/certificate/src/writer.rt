//! Writes the text of a certificate to any device.
ghost use Rattle.std.specs.Prelude.{◌≡◌, ◌++◌, [], map, OnOk};
ghost use Rattle.std.specs.Io.KnownBytes.{Appends};
ghost use Rattle.std.specs.List.{flat_map};
ghost use Rattle.devices.specs.Devices.{AppendsBeginning, CountsDevice};
ghost use Rattle.task.specs.Task.{task_of};
ghost use Rattle.certificate.specs.Certificate.{certificate_of};
ghost use Rattle.certificate_definitions.specs.CertificateNames.{certificate_text};
ghost use Rattle.table_rows.specs.Tables.{table_of};
ghost use Rattle.landmark_zones.specs.Landmarks.{landmarks_of};
ghost use Rattle.certificate.specs.CertificateParts.{exchange_in};
ghost use Rattle.certificate.specs.Gathering.{IsPassedOn, atom_line, atoms_weighed, landmarks_text, row_line, state_line, swap_line, table_text, value_line, zone_line};

use crate::cert::Cert;
use crate::line_text::{add_atom, add_exchange, add_head, add_last, add_row, add_scope, add_state};
use certificate_reader::{Mark, StateLine};
use devices::{IoFault, Sink, write_all};
use landmark_zones::{Landmarks, add_value, add_zone};
use packed_state::{Packed, StateStore};
use std::alloc::Global;
use table_rows::Table;
use task::{ObjectId, Task};

/// The buffer is written out once it has this size.
const PIECE: usize = 65_536;

/// Writes the text of a certificate of the task, line by line: the version, the claim and the constants; a line for each exchange
/// and for each atom, by names; the lines of each table; a line for each zone and for each landmark value; a line for each listed
/// state; and last the number of listed states.
///
/// # Errors
/// The device failed, or an allocation failed. A prefix of the text has then been written.
///
/// # Examples
/// ```
/// let mut out = Memory::empty(alloc);
/// write_cert(alloc, &task, &cert, &mut out)?;
/// assert_eq!(rt; out.as_slice(), b"pddl-cert 1\nclaim none\nconstant 0\natom 0 (p)\nopen 0\nend 1\n");
/// ```
pub fn write_cert<W: Sink>(
    alloc: Global,
    task: &Task,
    cert: &Cert,
    out: &mut W,
) -> Result<(), IoFault>
    ensures text { OnOk result (Appends (W.taken out.old) (W.taken out.new) (certificate_text (task_of task.now) (certificate_of cert.now))) }
    ensures beginning { AppendsBeginning (W.taken out.old) (W.taken out.new) (certificate_text (task_of task.now) (certificate_of cert.now)) }
    ensures failures { CountsDevice (W.failures out.old) (W.failures out.new) result }
    ensures name { W.name out.new ≡ W.name out.old }
{
    let mut held = Vec::new(alloc);
    add_head(cert.version(), cert.claim(), cert.evidence(), &mut held)?;
    write_exchanges(task, cert.exchanges(), &mut held, out)?;
    write_atoms(task, cert, &mut held, out)?;
    cert.evidence().write_parts(alloc, &mut held, out)?;
    write_states(alloc, cert, &mut held, out)?;
    add_last(cert.line_count(), &mut held)?;
    write_all(out, held.as_slice())
}

/// Writes the lines of the exchanges after the buffered bytes.
fn write_exchanges<W: Sink>(
    task: &Task,
    exchanges: &[Vec<(ObjectId, ObjectId)>],
    held: &mut Vec<u8>,
    out: &mut W,
) -> Result<(), IoFault>
    ensures text { OnOk result (IsPassedOn (W.taken out.old) (W.taken out.new) held.old.items held.new.items (flat_map (swap_line (task_of task.now)) (map exchange_in exchanges.now))) }
    ensures beginning { AppendsBeginning (W.taken out.old) (W.taken out.new) (held.old.items ++ flat_map (swap_line (task_of task.now)) (map exchange_in exchanges.now)) }
    ensures failures { CountsDevice (W.failures out.old) (W.failures out.new) result }
    ensures name { W.name out.new ≡ W.name out.old }
{
    for exchange in exchanges {
        add_exchange(task, exchange, held)?;
        pass_on(held, out)?;
    }
    Ok(())
}

/// Writes the lines of the atoms, each with its weights, after the buffered bytes.
fn write_atoms<W: Sink>(
    task: &Task,
    cert: &Cert,
    held: &mut Vec<u8>,
    out: &mut W,
) -> Result<(), IoFault>
    ensures text { OnOk result (IsPassedOn (W.taken out.old) (W.taken out.new) held.old.items held.new.items (flat_map atom_line (atoms_weighed (task_of task.now) (certificate_of cert.now)))) }
    ensures beginning { AppendsBeginning (W.taken out.old) (W.taken out.new) (held.old.items ++ flat_map atom_line (atoms_weighed (task_of task.now) (certificate_of cert.now))) }
    ensures failures { CountsDevice (W.failures out.old) (W.failures out.new) result }
    ensures name { W.name out.new ≡ W.name out.old }
{
    let (version, evidence, atoms) = (cert.version(), cert.evidence(), cert.atoms());
    for place in 0..atoms.len() {
        add_atom(task, &atoms[place], place, version, evidence, held)?;
        pass_on(held, out)?;
    }
    Ok(())
}

/// Writes the lines of the tables after the buffered bytes.
pub(crate) fn write_tables<W: Sink>(
    alloc: Global,
    tables: &[Table],
    held: &mut Vec<u8>,
    out: &mut W,
) -> Result<(), IoFault>
    ensures text { OnOk result (IsPassedOn (W.taken out.old) (W.taken out.new) held.old.items held.new.items (flat_map table_text (map table_of tables.now))) }
    ensures beginning { AppendsBeginning (W.taken out.old) (W.taken out.new) (held.old.items ++ flat_map table_text (map table_of tables.now)) }
    ensures failures { CountsDevice (W.failures out.old) (W.failures out.new) result }
    ensures name { W.name out.new ≡ W.name out.old }
{
    for table in tables {
        write_table(alloc, table, held, out)?;
    }
    Ok(())
}

/// Writes the lines of the table after the buffered bytes.
fn write_table<W: Sink>(
    alloc: Global,
    table: &Table,
    held: &mut Vec<u8>,
    out: &mut W,
) -> Result<(), IoFault>
    ensures text { OnOk result (IsPassedOn (W.taken out.old) (W.taken out.new) held.old.items held.new.items (table_text (table_of table.now))) }
    ensures beginning { AppendsBeginning (W.taken out.old) (W.taken out.new) (held.old.items ++ table_text (table_of table.now)) }
    ensures failures { CountsDevice (W.failures out.old) (W.failures out.new) result }
    ensures name { W.name out.new ≡ W.name out.old }
{
    add_scope(table.scope(), held)?;
    pass_on(held, out)?;
    write_rows(alloc, table, held, out)
}

/// Writes the lines of the table's rows after the buffered bytes.
fn write_rows<W: Sink>(
    alloc: Global,
    table: &Table,
    held: &mut Vec<u8>,
    out: &mut W,
) -> Result<(), IoFault>
    ensures text { OnOk result (IsPassedOn (W.taken out.old) (W.taken out.new) held.old.items held.new.items (flat_map row_line (table_of table.now).rows)) }
    ensures beginning { AppendsBeginning (W.taken out.old) (W.taken out.new) (held.old.items ++ flat_map row_line (table_of table.now).rows) }
    ensures failures { CountsDevice (W.failures out.old) (W.failures out.new) result }
    ensures name { W.name out.new ≡ W.name out.old }
{
    let Ok(mut set) = Packed::empty(alloc, table.width()) else {
        return Err(IoFault::NoMemory);
    };
    let mut atoms = Vec::new(alloc);
    for row in 0..table.row_count() {
        let Ok(()) = table.list_atoms(row as u32, &mut set, &mut atoms) else {
            return Err(IoFault::NoMemory);
        };
        add_row(table.weights(row as u32), &atoms, held)?;
        pass_on(held, out)?;
    }
    Ok(())
}

/// Writes the lines of the zones, and then those of the landmark values, after the buffered bytes.
pub(crate) fn write_landmarks<W: Sink>(
    landmarks: &Landmarks,
    held: &mut Vec<u8>,
    out: &mut W,
) -> Result<(), IoFault>
    ensures text { OnOk result (IsPassedOn (W.taken out.old) (W.taken out.new) held.old.items held.new.items (landmarks_text (landmarks_of landmarks.now))) }
    ensures beginning { AppendsBeginning (W.taken out.old) (W.taken out.new) (held.old.items ++ landmarks_text (landmarks_of landmarks.now)) }
    ensures failures { CountsDevice (W.failures out.old) (W.failures out.new) result }
    ensures name { W.name out.new ≡ W.name out.old }
{
    write_zones(landmarks, held, out)?;
    write_values(landmarks, held, out)
}

/// Writes the lines of the zones after the buffered bytes.
fn write_zones<W: Sink>(
    landmarks: &Landmarks,
    held: &mut Vec<u8>,
    out: &mut W,
) -> Result<(), IoFault>
    ensures text { OnOk result (IsPassedOn (W.taken out.old) (W.taken out.new) held.old.items held.new.items (flat_map zone_line (landmarks_of landmarks.now).zones)) }
    ensures beginning { AppendsBeginning (W.taken out.old) (W.taken out.new) (held.old.items ++ flat_map zone_line (landmarks_of landmarks.now).zones) }
    ensures failures { CountsDevice (W.failures out.old) (W.failures out.new) result }
    ensures name { W.name out.new ≡ W.name out.old }
{
    for number in 0..landmarks.zone_count() {
        add_zone(landmarks.zone(number), held)?;
        pass_on(held, out)?;
    }
    Ok(())
}

/// Writes the lines of the landmark values after the buffered bytes.
fn write_values<W: Sink>(
    landmarks: &Landmarks,
    held: &mut Vec<u8>,
    out: &mut W,
) -> Result<(), IoFault>
    ensures text { OnOk result (IsPassedOn (W.taken out.old) (W.taken out.new) held.old.items held.new.items (flat_map value_line (landmarks_of landmarks.now).values)) }
    ensures beginning { AppendsBeginning (W.taken out.old) (W.taken out.new) (held.old.items ++ flat_map value_line (landmarks_of landmarks.now).values) }
    ensures failures { CountsDevice (W.failures out.old) (W.failures out.new) result }
    ensures name { W.name out.new ≡ W.name out.old }
{
    for number in 0..landmarks.value_count() {
        add_value(landmarks.value(number), held)?;
        pass_on(held, out)?;
    }
    Ok(())
}

/// Writes the lines of the listed states after the buffered bytes.
fn write_states<W: Sink>(
    alloc: Global,
    cert: &Cert,
    held: &mut Vec<u8>,
    out: &mut W,
) -> Result<(), IoFault>
    ensures text { OnOk result (IsPassedOn (W.taken out.old) (W.taken out.new) held.old.items held.new.items (flat_map state_line (certificate_of cert.now).lines)) }
    ensures beginning { AppendsBeginning (W.taken out.old) (W.taken out.new) (held.old.items ++ flat_map state_line (certificate_of cert.now).lines) }
    ensures failures { CountsDevice (W.failures out.old) (W.failures out.new) result }
    ensures name { W.name out.new ≡ W.name out.old }
{
    let Ok(mut set) = Packed::empty(alloc, cert.sets().width()) else {
        return Err(IoFault::NoMemory);
    };
    let mut line = StateLine {
        cost: 0,
        mark: Mark::Expanded,
        atoms: Vec::new(alloc),
    };
    for place in 0..cert.line_count() {
        let Ok(()) = cert.read_line(place, &mut set, &mut line) else {
            return Err(IoFault::NoMemory);
        };
        add_state(&line, held)?;
        pass_on(held, out)?;
    }
    Ok(())
}

/// Writes out the buffer if it is large enough.
fn pass_on<W: Sink>(held: &mut Vec<u8>, out: &mut W) -> Result<(), IoFault>
    ensures text { OnOk result (IsPassedOn (W.taken out.old) (W.taken out.new) held.old.items held.new.items []) }
    ensures beginning { AppendsBeginning (W.taken out.old) (W.taken out.new) held.old.items }
    ensures failures { CountsDevice (W.failures out.old) (W.failures out.new) result }
    ensures name { W.name out.new ≡ W.name out.old }
{
    if held.len() >= PIECE {
        write_all(out, held.as_slice())?;
        held.clear();
    }
    Ok(())
}

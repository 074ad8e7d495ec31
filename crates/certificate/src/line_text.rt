//! The lines of a certificate's text, each appended to those before it.
ghost use Rattle.std.specs.Prelude.{◌≡◌, ◌<◌, ◌++◌, [], All, codes, length, map, OnOk};
ghost use Rattle.std.specs.List.{flat_map};
ghost use Rattle.std.specs.Fmt.{decimal};
ghost use Rattle.task.specs.Task.{task_of};
ghost use Rattle.task.specs.TaskParts.{atom_of};
ghost use Rattle.model.specs.PlanWriting.{object_text};
ghost use Rattle.certificate_reader.specs.Lines.{claim_of, line_of, mark_of, version_of};
ghost use Rattle.certificate_definitions.specs.CertificateText as line;
ghost use Rattle.certificate_definitions.specs.CertificateText.{claims, last, line_text, mark_text, weights_text, whole_line};
ghost use Rattle.certificate_definitions.specs.CertificateNames.{named_atom, weights_in};
ghost use Rattle.certificate.specs.declared.evidence.WrittenPotentials as code;
ghost use Rattle.certificate.specs.Evidence.{evidence_of, constants_in, weights_at};
ghost use Rattle.symmetries_definitions.specs.Exchanges.{objects_in};
ghost use Rattle.symmetries.specs.ObjectPairs.{pairs_in};
ghost use Rattle.certificate.specs.Gathering.{atom_line, number_text, row_line, scope_line, state_line, swap_line, weight_text};

use crate::evidence::Evidence;
use certificate_reader::{Basis, Claim, Mark, StateLine, Version};
use itoa::Buffer;
use landmark_zones::{add_cut_by, add_dead_by};
use std::alloc::AllocError;
use task::{Atom, ObjectId, Task};

/// Adds the lines of the version, the claim and the constants.
pub(crate) fn add_head(
    version: Version,
    claim: Claim,
    evidence: &Evidence,
    text: &mut Vec<u8>,
) -> Result<(), AllocError>
    ensures { OnOk result (text.new.items ≡ text.old.items ++ (whole_line (line.version (version_of version)) ++ whole_line (claims (claim_of claim)) ++ whole_line (line.constant (constants_in (version_of version) (evidence_of evidence.now))))) }
{
    text.extend_from_slice(version_line(version))?;
    add_claim(claim, text)?;
    text.extend_from_slice(b"\nconstant")?;
    add_constants(version, evidence, text)?;
    text.extend_from_slice(b"\n")
}

/// The line of the version.
fn version_line(version: Version) -> &'static [u8]
    ensures { result.now ≡ whole_line (line.version (version_of version)) }
{
    match version {
        Version::One => b"pddl-cert 1\n",
        Version::Two => b"pddl-cert 2\n",
        Version::Three => b"pddl-cert 3\n",
        Version::Four => b"pddl-cert 4\n",
    }
}

/// Adds the claim, without its LF.
fn add_claim(claim: Claim, text: &mut Vec<u8>) -> Result<(), AllocError>
    ensures { OnOk result (text.new.items ≡ text.old.items ++ line_text (claims (claim_of claim))) }
{
    match claim {
        Claim::Bound(least) => add_number(b"claim bound ", least, text),
        Claim::Unsolvable => text.extend_from_slice(b"claim none"),
    }
}

/// Adds the constants of the values and, from version 2 on, that of dead ends, with a blank before each.
fn add_constants(
    version: Version,
    evidence: &Evidence,
    text: &mut Vec<u8>,
) -> Result<(), AllocError>
    ensures { OnOk result (text.new.items ≡ text.old.items ++ weights_text (constants_in (version_of version) (evidence_of evidence.now))) }
{
    for value in &evidence.values {
        add_weight(value.constant, text)?;
    }
    add_dead_end_weight(version, evidence.dead_ends.constant, text)
}

/// Adds the line of an exchange, with the names of the objects in each pair.
pub(crate) fn add_exchange(
    task: &Task,
    pairs: &[(ObjectId, ObjectId)],
    text: &mut Vec<u8>,
) -> Result<(), AllocError>
    ensures { OnOk result (text.new.items ≡ text.old.items ++ swap_line (task_of task.now) (pairs_in pairs.now)) }
{
    text.extend_from_slice(b"swap")?;
    add_pairs(task, pairs, text)?;
    text.extend_from_slice(b"\n")
}

/// Adds the names of the objects of each pair, with a blank before each.
fn add_pairs(
    task: &Task,
    pairs: &[(ObjectId, ObjectId)],
    text: &mut Vec<u8>,
) -> Result<(), AllocError>
    ensures { OnOk result (text.new.items ≡ text.old.items ++ flat_map (object_text (task_of task.now)) (objects_in (pairs_in pairs.now))) }
{
    for pair in pairs {
        task.add_name(pair.0, text)?;
        task.add_name(pair.1, text)?;
    }
    Ok(())
}

/// Adds the line of the atom at this index, from 0, with its weights and names.
pub(crate) fn add_atom(
    task: &Task,
    atom: &Atom,
    place: usize,
    version: Version,
    evidence: &Evidence,
    text: &mut Vec<u8>,
) -> Result<(), AllocError>
    requires values { All (λ (p : code.WrittenPotentials). place < length p.weights.items) evidence.now.values.items }
    requires dead_ends { place < length evidence.now.dead_ends.weights.items }
    ensures { OnOk result (text.new.items ≡ text.old.items ++ atom_line (record { weights = weights_at (version_of version) (evidence_of evidence.now) place; atom = named_atom (task_of task.now) (atom_of atom.now) })) }
{
    text.extend_from_slice(b"atom")?;
    add_weights_at(place, version, evidence, text)?;
    text.extend_from_slice(b" (")?;
    text.extend_from_slice(task.name_of_predicate(atom.predicate))?;
    task.add_names(atom.objects.as_slice(), text)?;
    text.extend_from_slice(b")\n")
}

/// Adds the weights of the atom at this index, from 0: those of the values and, from version 2 on, that of dead ends, with a
/// blank before each.
fn add_weights_at(
    place: usize,
    version: Version,
    evidence: &Evidence,
    text: &mut Vec<u8>,
) -> Result<(), AllocError>
    requires values { All (λ (p : code.WrittenPotentials). place < length p.weights.items) evidence.now.values.items }
    requires dead_ends { place < length evidence.now.dead_ends.weights.items }
    ensures { OnOk result (text.new.items ≡ text.old.items ++ weights_text (weights_at (version_of version) (evidence_of evidence.now) place)) }
{
    for value in &evidence.values {
        add_weight(value.weights[place], text)?;
    }
    add_dead_end_weight(version, evidence.dead_ends.weights[place], text)
}

/// Adds a constant or a weight of dead ends, with a blank before it; version 1 writes none.
fn add_dead_end_weight(version: Version, weight: i64, text: &mut Vec<u8>) -> Result<(), AllocError>
    ensures { OnOk result (text.new.items ≡ text.old.items ++ weights_text (weights_in (version_of version) [] weight)) }
{
    match version {
        Version::One => Ok(()),
        Version::Two | Version::Three | Version::Four => add_weight(weight, text),
    }
}

/// Adds the line of a table's scope.
pub(crate) fn add_scope(scope: &[u32], text: &mut Vec<u8>) -> Result<(), AllocError>
    ensures { OnOk result (text.new.items ≡ text.old.items ++ scope_line scope.now) }
{
    text.extend_from_slice(b"table")?;
    add_numbers(scope, text)?;
    text.extend_from_slice(b"\n")
}

/// Adds the line of a row with these weights and these true atoms.
pub(crate) fn add_row(weights: &[i64], atoms: &[u32], text: &mut Vec<u8>) -> Result<(), AllocError>
    ensures { OnOk result (text.new.items ≡ text.old.items ++ row_line (record { atoms = atoms.now; weights = weights.now })) }
{
    text.extend_from_slice(b"row")?;
    add_weights(weights, text)?;
    add_numbers(atoms, text)?;
    text.extend_from_slice(b"\n")
}

/// Adds the line of a state.
pub(crate) fn add_state(line: &StateLine, text: &mut Vec<u8>) -> Result<(), AllocError>
    ensures { OnOk result (text.new.items ≡ text.old.items ++ state_line (line_of line.now)) }
{
    add_mark(line.mark, line.cost, text)?;
    add_numbers(line.atoms.as_slice(), text)?;
    text.extend_from_slice(b"\n")
}

/// Adds the numbers, with a blank before each.
fn add_numbers(numbers: &[u32], text: &mut Vec<u8>) -> Result<(), AllocError>
    ensures { OnOk result (text.new.items ≡ text.old.items ++ flat_map number_text numbers.now) }
{
    for number in numbers {
        add_number(b" ", u64::from(*number), text)?;
    }
    Ok(())
}

/// Adds a state's role, the number of the landmark value that it rests on, if any, its cost, and for a cut the lower bound of the
/// remaining cost.
fn add_mark(mark: Mark, cost: u64, text: &mut Vec<u8>) -> Result<(), AllocError>
    ensures { OnOk result (text.new.items ≡ text.old.items ++ mark_text (mark_of mark) cost) }
{
    match mark {
        Mark::Expanded => add_number(b"open ", cost, text),
        Mark::Cut {
            by: Basis::OfAll,
            rest,
        } => {
            add_number(b"cut ", cost, text)?;
            add_number(b" ", rest, text)
        }
        Mark::Cut {
            by: Basis::Landmark(value),
            rest,
        } => add_cut_by(value, cost, rest, text),
        Mark::Dead { by: Basis::OfAll } => add_number(b"dead ", cost, text),
        Mark::Dead {
            by: Basis::Landmark(value),
        } => add_dead_by(value, cost, text),
    }
}

/// Adds the last line, with the number of state lines.
pub(crate) fn add_last(count: usize, text: &mut Vec<u8>) -> Result<(), AllocError>
    ensures { OnOk result (text.new.items ≡ text.old.items ++ whole_line (last count)) }
{
    add_number(b"end ", count as u64, text)?;
    text.extend_from_slice(b"\n")
}

/// Adds these bytes, and then a number in decimal digits.
fn add_number(before: &[u8], number: u64, text: &mut Vec<u8>) -> Result<(), AllocError>
    ensures { OnOk result (text.new.items ≡ text.old.items ++ (before.now ++ decimal number)) }
{
    text.extend_from_slice(before)?;
    text.extend_from_slice(Buffer::new().format(number).as_bytes())
}

/// Adds the weights, with a blank before each.
fn add_weights(weights: &[i64], text: &mut Vec<u8>) -> Result<(), AllocError>
    ensures { OnOk result (text.new.items ≡ text.old.items ++ weights_text weights.now) }
{
    for weight in weights {
        add_weight(*weight, text)?;
    }
    Ok(())
}

/// Adds a blank, then a constant or a weight in decimal digits, with `-` if it is negative.
fn add_weight(weight: i64, text: &mut Vec<u8>) -> Result<(), AllocError>
    ensures { OnOk result (text.new.items ≡ text.old.items ++ weight_text weight) }
{
    text.extend_from_slice(b" ")?;
    text.extend_from_slice(Buffer::new().format(weight).as_bytes())
}

//! Tests of values that are found when they are asked for.
ghost use Rattle.std.specs.Prelude.{◌≡◌, IfOk, length};
ghost use Rattle.grounding.specs.Ground.{atoms_in, task_in};
ghost use Rattle.packed_state.specs.Packed.{bits_of};
ghost use Rattle.lower_bounds.specs.TableLaws.{AreAllNumbered};

use crate::texts::{DOOR, LAMP, NO_KEY};
use faults::NoMemory;
use grounding::Ground;
use guides::{DraftLimits, LandmarksOnDemand, UsedValues, tested_instances};
use landmark_zones::{add_value, add_zone};
use landmarks::CutIndex;
use packed_state::Packed;
use search::{Answer, Basis, ValuesOnDemand};
use std::alloc::Global;
use std::process::Abort;
use std::test::Fail;
use task::Task;
use test_support::{DONE, Texts, on_task};

/// A task, and the atoms of a state that is reached from its initial one, by number. The answers to a question for each of the two
/// states, and what is found, as lines of a certificate: the value for the second state first.
type Row = (Texts, &'static [u32], [Answer; 2], &'static str);

/// The values are those of LM-cut by hand: under a `when`, with a negated literal, at a dead end, and where the goal holds. Those for
/// second states keep what is left of the first ones. A dead end is shown by the value that is known.
#[rattlefmt::skip]
static ROWS: [Row; 4] = [
    (LAMP, &[0, 1], [Answer::Raised(Basis(0), 2), Answer::Raised(Basis(1), 1)], "zone 3\nzone 3\nzone 1 3\nmarks 0 1\nmarks 1 1 2 1\n"),
    (DOOR, &[1], [Answer::Raised(Basis(0), 5), Answer::Raised(Basis(1), 2)], "zone 2\nzone 2\nzone 2 not 0\nmarks 0 2\nmarks 1 2 2 3\n"),
    (NO_KEY, &[0], [Answer::Dead(Basis(0)), Answer::Dead(Basis(0))], "zone 1 2 not 0\nmarks 0 1\n"),
    (DONE, &[0], [Answer::Nothing, Answer::Nothing], ""),
];

/// The answers to a question for each of the two states, the second one with the basis of the first.
fn answers<V: ValuesOnDemand>(
    values: &mut V,
    first: &Packed,
    second: &Packed,
) -> Result<[Answer; 2], NoMemory>
    requires first { length (bits_of first.now) ≡ V.width_of values.old }
    requires second { length (bits_of second.now) ≡ V.width_of values.old }
    ensures width { V.width_of values.new ≡ V.width_of values.old }
{
    let answer = values.ask(first, 0, 0, None)?;
    match answer {
        Answer::Raised(basis, _) => Ok([answer, values.ask(second, 1, 0, Some(basis))?]),
        Answer::Dead(_) | Answer::Nothing => Ok([answer, values.ask(second, 1, 0, None)?]),
    }
}

/// The lines of the first two values, the second one first.
fn lines(alloc: Global, values: &LandmarksOnDemand<'_, '_, '_>) -> Result<Vec<u8>, NoMemory> {
    let mut used = UsedValues::none(alloc, values)?;
    for basis in [Basis(1), Basis(0)] {
        used.number_of(alloc, values, basis)?;
    }
    let landmarks = used.into_landmarks();
    let mut lines = Vec::new(alloc);
    for number in 0..landmarks.zone_count() {
        add_zone(landmarks.zone(number), &mut lines)?;
    }
    for number in 0..landmarks.value_count() {
        add_value(landmarks.value(number), &mut lines)?;
    }
    Ok(lines)
}

/// The state with these atoms, by number.
fn state(alloc: Global, ground: &Ground<'_>, numbers: &[u32]) -> Result<Packed, NoMemory>
    ensures { IfOk result (λ set. length (bits_of set) ≡ length (atoms_in ground.now)) }
{
    let mut state = Packed::empty(alloc, ground.width())?;
    for &number in numbers {
        if number < state.width() {
            state.insert(number);
        }
    }
    Ok(state)
}

/// Whether the answers and the values are as the row says.
fn is_found(alloc: Global, ground: &Ground<'_>, row: &Row) -> Result<bool, NoMemory>
    requires { AreAllNumbered (task_in ground.now) (atoms_in ground.now) }
{
    let first = ground.initial(alloc)?;
    let second = state(alloc, ground, row.1)?;
    let instances = tested_instances(alloc, ground)?;
    let index = CutIndex::new(alloc, ground, &instances)?;
    let limits = DraftLimits::of_steps(u64::MAX);
    let mut values = LandmarksOnDemand::new(alloc, ground, &index, limits)?;
    let answers = answers(&mut values, &first, &second)?;
    let lines = lines(alloc, &values)?;
    Ok(answers == row.2 && lines.as_slice() == row.3.as_bytes())
}

/// The same, for the row's task.
fn is_found_in(alloc: Global, task: &Task, row: &Row) -> Result<bool, Fail> {
    let ground = Ground::new(alloc, task, &[], 100)?;
    Ok(is_found(alloc, &ground, row)?)
}

#[test]
fn values_are_those_of_cuts_by_hand(rt: HostRuntime) -> Result<(), Fail> {
    for row in &ROWS {
        on_task(&rt, rt.alloc(), &row.0, |rt, alloc, task| {
            assert!(rt; is_found_in(alloc, task, row)?);
            Ok(())
        })?;
    }
    Ok(())
}

/// Marks of used values, and what is left of the values by the first two bases, each for the state that was asked for.
type Forgetting = (&'static [bool], [u64; 2]);

/// Of the lamp's values the first one has 19 entries, and the second one 9. There may be 20, so 10 are left. The first value goes first; a
/// value that is used stays, even if all of them are.
const FORGETTINGS: [Forgetting; 4] = [
    (&[], [0, 1]),
    (&[true], [2, 0]),
    (&[false, true], [0, 1]),
    (&[true, true], [2, 1]),
];

/// What is left of both values after the marked ones are kept; `None` if they were not too many before, or still are.
fn left(alloc: Global, ground: &Ground<'_>, used: &[bool]) -> Result<Option<[u64; 2]>, NoMemory>
    requires { AreAllNumbered (task_in ground.now) (atoms_in ground.now) }
{
    let first = ground.initial(alloc)?;
    let second = state(alloc, ground, &[0, 1])?;
    let instances = tested_instances(alloc, ground)?;
    let index = CutIndex::new(alloc, ground, &instances)?;
    let limits = DraftLimits {
        steps: u64::MAX,
        entries: 20,
    };
    let mut values = LandmarksOnDemand::new(alloc, ground, &index, limits)?;
    answers(&mut values, &first, &second)?;
    if !values.is_full() {
        return Ok(None);
    }
    values.forget(used);
    if values.is_full() {
        return Ok(None);
    }
    let left = [
        values.value(Basis(0), &first),
        values.value(Basis(1), &second),
    ];
    Ok(Some(left))
}

/// The same, in the lamp's task.
fn left_in(alloc: Global, task: &Task, used: &[bool]) -> Result<Option<[u64; 2]>, Fail> {
    let ground = Ground::new(alloc, task, &[], 100)?;
    Ok(left(alloc, &ground, used)?)
}

#[test]
fn oldest_values_are_forgotten_that_are_not_used(rt: HostRuntime) -> Result<(), Fail> {
    for (used, expected) in &FORGETTINGS {
        on_task(&rt, rt.alloc(), &LAMP, |rt, alloc, task| {
            assert_eq!(rt; left_in(alloc, task, used)?, Some(*expected));
            Ok(())
        })?;
    }
    Ok(())
}

//! The test of what lines rest on.
//!
//! While a search asks for landmark values, each is tested before it is used. A certificate has those that its lines name, numbered anew.
//! So they are tested again, as a checker tests them, and nothing has to be known of how they were numbered.
ghost use Rattle.std.specs.Prelude.{◌≡◌, ◌≤◌, ◌<◌, IfOk, IfSome, IsTrue, true, not, length, map};
ghost use Rattle.std.specs.List.{list_all};
ghost use Rattle.grounding.specs.Ground.{atoms_in, task_in};
ghost use Rattle.packed_state.specs.Packed.{bits_of};
ghost use Rattle.certificate_reader.specs.Lines.{basis_of, mark_of};
ghost use Rattle.certificate_definitions.specs.Evidence.{landmark};
ghost use Rattle.lower_bounds.specs.LandmarkLines.{keep_limits};
ghost use Rattle.landmark_zones.specs.Landmarks.{landmarks_of, share_of};
ghost use Rattle.landmarks.specs.Fairness.{AreFairness, is_unfair};
ghost use Rattle.guides.specs.FairTables.{functions_in, ground_in};
ghost use Rattle.tables.specs.Several.{Knows, several_of, width_of};
ghost use Rattle.line_evidence.specs.Roles.{marks_in};
ghost use Rattle.line_evidence.specs.Shown.{AreSupported, IsDeadFairAt, IsShown, IsThere, function_at, has_few_zones, value_by};

use crate::marked::{Evaluation, Marked};
use certificate::{Basis, Landmarks, Mark, NUMBER_LIMIT, Share};
use faults::NoMemory;
use guides::FairTables;
use landmarks::{CutIndex, Fairness, value_in};
use packed_state::Packed;
use search::StateListing;
use std::alloc::Global;
use tables::TableFunctions;

/// The maximum number of zones of a landmark value. The line of one with as many is not too long for a certificate's text: a zone takes
/// 20 bytes at most.
const MAX_ZONES: usize = 524_288;

/// Whether the landmark values that lines name are within the limits of a certificate and fair for the ground task, and show what the
/// lines say of these listed states, as do the values of the guide.
///
/// # Errors
/// Memory is refused.
pub(crate) fn are_supported<L: StateListing>(
    alloc: Global,
    guide: &FairTables<'_, '_, '_>,
    marked: &Marked,
    listing: &L,
) -> Result<bool, NoMemory>
    requires width { L.width_of listing.now ≡ length (atoms_in (ground_in guide.now)) }
    requires one_for_each { length marked.now.marks.items ≡ length (L.states listing.now) }
    requires few { length marked.now.marks.items ≤ 16777216 }
    ensures { IfOk result (λ are. IsTrue are → AreSupported (task_in (ground_in guide.now)) (atoms_in (ground_in guide.now)) (functions_in guide.now)
        (landmarks_of marked.now.landmarks) (L.states listing.now) (marks_in marked.now.marks.items)) }
{
    if !have_few_zones(&marked.landmarks) {
        return Ok(false);
    }
    let Some(fairness) = fairness_beside(alloc, guide, &marked.landmarks)? else {
        return Ok(false);
    };
    if !are_all_fair(&fairness) {
        return Ok(false);
    }
    let functions = guide.functions();
    let mut at = Evaluation {
        state: Packed::empty(alloc, listing.width())?,
        known: functions.known_state(alloc)?,
    };
    for place in 0..marked.marks.len() {
        let mark = marked.marks[place].mark;
        listing.get(place as u32, &mut at.state);
        if !is_dead_fair(mark, &fairness) {
            return Ok(false);
        }
        if !shows(functions, &marked.landmarks, mark, &mut at) {
            return Ok(false);
        }
    }
    Ok(true)
}

/// Whether the line of each landmark value is short enough for a certificate's text.
fn have_few_zones(landmarks: &Landmarks) -> bool
    ensures { result ≡ list_all has_few_zones (landmarks_of landmarks.now).values }
{
    for number in 0..landmarks.value_count() {
        if !has_few_zones(landmarks.value(number)) {
            return false;
        }
    }
    true
}

/// Whether a landmark value has no more zones than it may have.
fn has_few_zones(shares: &[Share]) -> bool
    ensures { result ≡ has_few_zones (map share_of shares.now) }
{
    shares.len() <= MAX_ZONES
}

/// Whether each landmark value is fair beside the tables of the guide, in their order; `None` if they are not within the limits of a
/// certificate.
fn fairness_beside(
    alloc: Global,
    guide: &FairTables<'_, '_, '_>,
    landmarks: &Landmarks,
) -> Result<Option<Vec<Fairness>>, NoMemory>
    ensures limits { IfOk result (λ o. IfSome o (λ _. keep_limits (length (atoms_in (ground_in guide.now))) (landmarks_of landmarks.now) ≡ true)) }
    ensures fairness { IfOk result (λ o. IfSome o (λ found. AreFairness (task_in (ground_in guide.now)) (atoms_in (ground_in guide.now)) (functions_in guide.now).tables (landmarks_of landmarks.now) found.items)) }
{
    let ground = guide.ground();
    let functions = guide.functions();
    if !landmarks.keep_limits(ground.width() as usize) {
        return Ok(None);
    }
    let asked = functions.asked(alloc, ground)?;
    let index = CutIndex::new(alloc, ground, &asked)?;
    let found = index.fairness_of_all(alloc, landmarks)?;
    Ok(Some(found))
}

/// Whether each of the values is fair.
fn are_all_fair(found: &[Fairness]) -> bool
    ensures { result ≡ list_all (λ f. not (is_unfair f)) found.now }
{
    for fairness in found {
        if !is_fair(*fairness) {
            return false;
        }
    }
    true
}

/// Whether the value is fair.
fn is_fair(found: Fairness) -> bool
    ensures { result ≡ not (is_unfair found) }
{
    !found.is_unfair()
}

/// Whether the landmark value by which the mark says that a state is a dead end, if it is one and names one, is dead-fair.
fn is_dead_fair(mark: Mark, found: &[Fairness]) -> bool
    ensures { IsTrue result → IsDeadFairAt found.now (mark_of mark) }
{
    match mark {
        Mark::Expanded | Mark::Cut { .. } | Mark::Dead { by: Basis::OfAll } => true,
        Mark::Dead {
            by: Basis::Landmark(number),
        } => match found.get(number as usize) {
            Some(fairness) => fairness.is_dead_fair(),
            None => false,
        },
    }
}

/// Whether what the mark says of the state is so. That the landmark value of a dead end is dead-fair is not tested here.
fn shows(
    functions: &TableFunctions<'_>,
    landmarks: &Landmarks,
    mark: Mark,
    at: &mut Evaluation,
) -> bool
    requires limits { keep_limits (width_of functions.now) (landmarks_of landmarks.now) ≡ true }
    requires state { length (bits_of at.old.state) ≡ width_of functions.now }
    requires known { Knows functions.now at.old.known }
    ensures shown { IsTrue result → IsShown (several_of functions.now) (landmarks_of landmarks.now) (bits_of at.old.state) (mark_of mark) }
    ensures state { at.new.state ≡ at.old.state }
    ensures known { Knows functions.now at.new.known }
{
    match mark {
        Mark::Expanded => true,
        Mark::Cut { by, rest } => match value_by(functions, landmarks, by, at) {
            Some(value) => value == rest && rest < NUMBER_LIMIT,
            None => false,
        },
        Mark::Dead { by: Basis::OfAll } => functions.is_dead_end(&at.state, &mut at.known),
        Mark::Dead {
            by: Basis::Landmark(number),
        } => match landmark_value(functions, landmarks, number, at) {
            Some(value) => value >= 1,
            None => false,
        },
    }
}

/// The state's value by this basis, if there is one.
fn value_by(
    functions: &TableFunctions<'_>,
    landmarks: &Landmarks,
    by: Basis,
    at: &mut Evaluation,
) -> Option<u64>
    requires limits { keep_limits (width_of functions.now) (landmarks_of landmarks.now) ≡ true }
    requires state { length (bits_of at.old.state) ≡ width_of functions.now }
    requires known { Knows functions.now at.old.known }
    ensures value { IfSome result (λ found. IsThere (landmarks_of landmarks.now) (basis_of by) × (found ≡ value_by (several_of functions.now) (landmarks_of landmarks.now) (basis_of by) (bits_of at.old.state))) }
    ensures state { at.new.state ≡ at.old.state }
    ensures known { Knows functions.now at.new.known }
{
    match by {
        Basis::OfAll => Some(functions.value(&at.state, &mut at.known)),
        Basis::Landmark(number) => landmark_value(functions, landmarks, number, at),
    }
}

/// The state's value by the landmark value with this number, if there is one: 0 where a table has no row for the state.
fn landmark_value(
    functions: &TableFunctions<'_>,
    landmarks: &Landmarks,
    number: u32,
    at: &mut Evaluation,
) -> Option<u64>
    requires limits { keep_limits (width_of functions.now) (landmarks_of landmarks.now) ≡ true }
    requires state { length (bits_of at.old.state) ≡ width_of functions.now }
    requires known { Knows functions.now at.old.known }
    ensures value { IfSome result (λ found. (number < length (landmarks_of landmarks.now).values)
        × (found ≡ value_by (several_of functions.now) (landmarks_of landmarks.now) (landmark number) (bits_of at.old.state))) }
    ensures state { at.new.state ≡ at.old.state }
    ensures known { Knows functions.now at.new.known }
{
    let place = number as usize;
    if place >= landmarks.value_count() {
        return None;
    }
    if !functions.has_rows(&at.state, &mut at.known) {
        return Some(0);
    }
    let shares = landmarks.value(place);
    Some(value_in(&at.state, landmarks, shares))
}

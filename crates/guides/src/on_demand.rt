//! Landmark values, found for single states.
ghost use Rattle.std.specs.Prelude.{◌≡◌, ◌<◌, [], All, MatchOption, None, Some, length, true};
ghost use Rattle.std.proofs.Props.{props};
ghost use Rattle.lower_bounds.specs.TableLaws.{AreAllNumbered};
ghost use Rattle.landmarks.specs.CutIndex.{asked_in, atoms_of, task_of};
ghost use Rattle.landmarks.specs.Fairness.{AreAsked};
ghost use Rattle.landmarks_drafted.specs.Drafts.{atom_count_of};
ghost use Rattle.guides.specs.Shown.{IsTestedIfKept, kept_at};

use crate::tested::TestedValue;
use faults::NoMemory;
use grounding::Ground;
use landmark_zones::Landmarks;
use landmarks::CutIndex;
use landmarks_drafted::{CutDrafter, Draft};
use packed_state::Packed;
use search::{Answer, Basis, ValuesOnDemand};
use std::alloc::Global;

/// The maximum number of values.
const MAX_VALUES: usize = 1_048_576;

/// All values together may have this number of entries, of 4 bytes each.
const MAX_ENTRIES: usize = 134_217_728;

/// Values are forgotten again after this number of questions at the earliest: a pass over all states takes less time than these do.
const QUESTIONS_BETWEEN: u64 = 65_536;

/// The number of dead-fair values that are tried before one is drafted.
const TRIED: usize = 16;

/// The number of drafts after which it is judged whether they are of use.
const MIN_DRAFTS: u64 = 4_096;

/// No further value is drafted where fewer than one in this number of drafts was kept.
const DRAFTS_FOR_ONE: u64 = 16;

/// What drafts may take.
#[derive(Clone, Copy)]
pub struct DraftLimits {
    /// No further value is drafted once the drafts have taken this number of steps (`CutDrafter::steps`).
    pub steps: u64,
    /// No further value is drafted while all values have this number of entries: one for each literal of a zone, and 8 more for each
    /// zone, of 4 bytes each. Then the oldest ones go on which no state rests that waits or is dead, until half as many are left.
    pub entries: usize,
}

impl DraftLimits {
    /// This number of steps, and 134,217,728 entries (512 MiB).
    pub fn of_steps(steps: u64) -> DraftLimits {
        DraftLimits {
            steps,
            entries: MAX_ENTRIES,
        }
    }
}

/// Landmark values of a ground task, drafted by LM-cut where a search asks for them. Each is tested before it is used. It serves the
/// state for which it was drafted, and those that are reached from there.
pub struct LandmarksOnDemand<'i, 'g, 't> {
    alloc: Global,
    index: &'i CutIndex<'g, 't>,
    drafter: CutDrafter,
    limits: DraftLimits,
    /// The number of drafts that were made.
    drafted: u64,
    /// The number of questions that were asked.
    asked_for: u64,
    /// Values may be forgotten once this number of questions were asked.
    may_forget_at: u64,
    /// The values, by their numbers. `None`: it was forgotten.
    values: Vec<Option<TestedValue>>,
    /// The entries of all values.
    entries: usize,
    /// The numbers of dead-fair values, of the last ones among them.
    dead: Vec<u32>,
    ghost numbered: { AreAllNumbered (task_of index.now) (atoms_of index.now) } by { Prim.hlevel props },
    ghost asked: { AreAsked (task_of index.now) (atoms_of index.now) [] (asked_in index.now) } by { Prim.hlevel props },
    ghost drafts: { atom_count_of drafter ≡ length (atoms_of index.now) } by { Prim.hlevel props },
    ghost tested: { All (IsTestedIfKept (task_of index.now) (atoms_of index.now)) values.items } by { Prim.hlevel props },
}

impl Drop for LandmarksOnDemand<'_, '_, '_> {
    fn drop(self) {
        let Self {
            alloc: _,
            index: _,
            drafter: _,
            limits: _,
            drafted: _,
            asked_for: _,
            may_forget_at: _,
            values: _,
            entries: _,
            dead: _,
        } = self;
    }
}

impl<'i, 'g, 't> LandmarksOnDemand<'i, 'g, 't> {
    ghost use Rattle.std.specs.Prelude.{◌^◌, ◌∷◌, ◌++◌, false, IfOk, IfSome, OnOk, slice_set};
    ghost use Rattle.grounding.specs.Ground.{atoms_in};
    ghost use Rattle.packed_state.specs.Packed.{bits_of};
    ghost use Rattle.landmark_zones.specs.Landmarks.{landmarks_of};
    ghost use Rattle.landmarks_drafted.specs.Drafts.{IsOneValue};
    ghost use Rattle.model.specs.Grounding.{ground_system};
    ghost use Rattle.search.specs.OnDemand.{IsAnswer};
    ghost use Rattle.guides.specs.Shown.{is_dead_at, value_at};
    ghost use Rattle.guides.specs.Tested.{IsTested};

    /// No values yet, for the ground task, of which this is the index of the instances that are tested (`tested_instances`).
    ///
    /// # Errors
    /// An allocation failed.
    pub fn new(
        alloc: Global,
        ground: &Ground<'_>,
        index: &'i CutIndex<'g, 't>,
        limits: DraftLimits,
    ) -> Result<LandmarksOnDemand<'i, 'g, 't>, NoMemory>
        requires atoms { atoms_of index.now ≡ atoms_in ground.now }
        requires numbered { AreAllNumbered (task_of index.now) (atoms_of index.now) }
        requires asked { AreAsked (task_of index.now) (atoms_of index.now) [] (asked_in index.now) }
        ensures index { IfOk result (λ made. made.index.now ≡ index.now) }
        ensures values { IfOk result (λ made. made.values.items ≡ []) }
    {
        let drafter = CutDrafter::new(alloc, ground)?;
        Ok(LandmarksOnDemand {
            alloc,
            index,
            drafter,
            limits,
            drafted: 0,
            asked_for: 0,
            may_forget_at: 0,
            values: Vec::new(alloc),
            entries: 0,
            dead: Vec::new(alloc),
        })
    }

    /// The number of values, those among them that were forgotten.
    pub fn count(&self) -> usize
        ensures { result ≡ length self.now.values.items }
    {
        self.values.len()
    }

    /// The value with this number, if there is one and it was not forgotten.
    fn kept(&self, basis: Basis) -> Option<&TestedValue>
        ensures { MatchOption result (kept_at self.now.values.items basis.0 ≡ None) (λ found. kept_at self.now.values.items basis.0 ≡ Some found.now) }
    {
        kept_in(&self.values, basis)
    }

    /// The value with this number, the only one of these landmarks, if there is one and it was not forgotten.
    pub(crate) fn landmarks(&self, basis: Basis) -> Option<&Landmarks>
        ensures { IfSome result (λ found. length (landmarks_of found.now).values ≡ 1) }
    {
        match self.kept(basis) {
            Some(value) => Some(&value.landmarks),
            None => None,
        }
    }

    /// Whether the value with this number shows that the state is a dead end.
    pub fn shows_dead_end(&self, basis: Basis, state: &Packed) -> bool
        requires { length (bits_of state.now) ≡ length (atoms_of self.now.index.now) }
        ensures { result ≡ is_dead_at self.now.values.items basis.0 (bits_of state.now) }
    {
        match self.kept(basis) {
            Some(value) => value.shows_dead_end(state),
            None => false,
        }
    }

    /// The state's value by the value with this number.
    fn value_at(&self, basis: Basis, state: &Packed) -> u64
        requires { length (bits_of state.now) ≡ length (atoms_of self.now.index.now) }
        ensures value { result ≡ value_at self.now.values.items basis.0 (bits_of state.now) }
        ensures fits { result < 2 ^ 63 }
    {
        match self.kept(basis) {
            Some(value) => value.value(state),
            None => 0,
        }
    }

    /// Whether no value is to be drafted for the state at this place, which has this basis: there are as many values as there may be,
    /// drafts took as many steps as they may or are of too little use, or the basis was drafted for it.
    fn is_done(&self, place: u32, basis: Option<Basis>) -> bool
        ensures { result ≡ false → length self.now.values.items < 1048576 }
    {
        if self.values.len() >= MAX_VALUES {
            return true;
        }
        if self.entries >= self.limits.entries {
            return true;
        }
        if self.drafter.steps() >= self.limits.steps || self.are_of_little_use() {
            return true;
        }
        self.is_drafted_for(place, basis)
    }

    /// Whether so few of the drafts were kept that no further one is expected to save the time that it takes.
    fn are_of_little_use(&self) -> bool {
        let kept = self.values.len() as u64;
        self.drafted >= MIN_DRAFTS && kept.saturating_mul(DRAFTS_FOR_ONE) < self.drafted
    }

    /// Whether the basis was drafted for the state at this place.
    fn is_drafted_for(&self, place: u32, basis: Option<Basis>) -> bool {
        match basis {
            Some(basis) => match self.kept(basis) {
                Some(value) => value.place == place,
                None => false,
            },
            None => false,
        }
    }

    /// One of the last dead-fair values that shows that the state is a dead end, if there is one.
    fn known_dead_end(&self, state: &Packed) -> Option<Basis>
        requires { length (bits_of state.now) ≡ length (atoms_of self.now.index.now) }
        ensures { IfSome result (λ basis. is_dead_at self.now.values.items basis.0 (bits_of state.now) ≡ true) }
    {
        for place in 0..self.dead.len() {
            let basis = Basis(self.dead[place]);
            if self.shows_dead_end(basis, state) {
                return Some(basis);
            }
        }
        None
    }

    /// Drafts a value for the state, tests it, and keeps it if it is of use.
    fn find(
        &mut self,
        state: &Packed,
        place: u32,
        value: u64,
        basis: Option<Basis>,
    ) -> Result<Answer, NoMemory>
        requires width { length (bits_of state.now) ≡ length (atoms_of self.old.index.now) }
        requires few { length self.old.values.items < 1048576 }
        ensures index { self.new.index.now ≡ self.old.index.now }
        ensures answer { IfOk result (IsAnswer true (ground_system (task_of self.old.index.now) (atoms_of self.old.index.now)) (bits_of state.now) value) }
    {
        let Some(draft) = self.draft(state, basis)? else {
            return Ok(Answer::Nothing);
        };
        let Some(found) = TestedValue::test(self.alloc, self.index, draft, place)? else {
            return Ok(Answer::Nothing);
        };
        self.keep(found, state, value)
    }

    /// A draft for the state. What is left of the value with this number is kept, if there is one: that gives better values than to
    /// begin from nothing, in less time.
    fn draft(&mut self, state: &Packed, basis: Option<Basis>) -> Result<Option<Draft>, NoMemory>
        ensures index { self.new.index.now ≡ self.old.index.now }
        ensures values { self.new.values.items ≡ self.old.values.items }
        ensures drafted { IfOk result (λ found. IfSome found (IsOneValue (length (atoms_of self.new.index.now)))) }
    {
        self.drafted = self.drafted.saturating_add(1);
        let Some(basis) = basis else {
            return self.drafter.draft(self.alloc, state);
        };
        match kept_in(&self.values, basis) {
            Some(value) => self.drafter.draft_from(self.alloc, state, value.known()),
            None => self.drafter.draft(self.alloc, state),
        }
    }

    /// Keeps the value if it is higher than this one, or shows that the state is a dead end.
    fn keep(&mut self, found: TestedValue, state: &Packed, value: u64) -> Result<Answer, NoMemory>
        requires found { IsTested (task_of self.old.index.now) (atoms_of self.old.index.now) found }
        requires width { length (bits_of state.now) ≡ length (atoms_of self.old.index.now) }
        requires few { length self.old.values.items < 1048576 }
        ensures index { self.new.index.now ≡ self.old.index.now }
        ensures answer { IfOk result (IsAnswer true (ground_system (task_of self.old.index.now) (atoms_of self.old.index.now)) (bits_of state.now) value) }
    {
        if found.shows_dead_end(state) {
            let dead = self.add(found)?;
            self.remember(dead)?;
            return Ok(Answer::Dead(dead));
        }
        let higher = found.value(state);
        if higher <= value {
            return Ok(Answer::Nothing);
        }
        let basis = self.add(found)?;
        Ok(Answer::Raised(basis, higher))
    }

    /// Appends the value. The result is its number.
    fn add(&mut self, found: TestedValue) -> Result<Basis, NoMemory>
        requires found { IsTested (task_of self.old.index.now) (atoms_of self.old.index.now) found }
        requires few { length self.old.values.items < 1048576 }
        ensures index { self.new.index.now ≡ self.old.index.now }
        ensures values { OnOk result (self.new.values.items ≡ self.old.values.items ++ Some found ∷ []) }
        ensures number { IfOk result (λ basis. basis.0 ≡ length self.old.values.items) }
    {
        let number = self.values.len() as u32;
        let entries = found.entries();
        self.values.push(Some(found))?;
        self.entries = self.entries.saturating_add(entries);
        Ok(Basis(number))
    }

    /// Forgets the oldest values whose numbers are not marked as used, until half of the entries are left that there may be.
    fn forget_unused(&mut self, used: &[bool])
        ensures { self.new.index.now ≡ self.old.index.now }
    {
        for number in 0..self.values.len() {
            if self.entries > self.limits.entries / 2 && !is_used(used, number) {
                self.forget_one(number);
            }
        }
        self.may_forget_at = self.asked_for.saturating_add(QUESTIONS_BETWEEN);
    }

    /// Forgets the value with this number.
    fn forget_one(&mut self, number: usize)
        requires { number < length self.old.values.items }
        ensures index { self.new.index.now ≡ self.old.index.now }
        ensures values { self.new.values.items ≡ slice_set self.old.values.items number None }
    {
        if let Some(value) = &self.values[number] {
            self.entries = self.entries.saturating_sub(value.entries());
        }
        self.values[number] = None;
    }

    /// Notes that the value with this number is dead-fair, in place of another one if there is no room.
    fn remember(&mut self, basis: Basis) -> Result<(), NoMemory>
        ensures index { self.new.index.now ≡ self.old.index.now }
        ensures values { self.new.values.items ≡ self.old.values.items }
    {
        let place = basis.0 as usize % TRIED;
        if place < self.dead.len() {
            self.dead[place] = basis.0;
        } else {
            self.dead.push(basis.0)?;
        }
        Ok(())
    }
}

/// The value with this number among these, if there is one and it was not forgotten.
fn kept_in(values: &[Option<TestedValue>], basis: Basis) -> Option<&TestedValue>
    ensures { MatchOption result (kept_at values.now basis.0 ≡ None) (λ found. kept_at values.now basis.0 ≡ Some found.now) }
{
    match values.get(basis.0 as usize) {
        Some(Some(value)) => Some(value),
        _ => None,
    }
}

/// Whether the number is marked as used.
fn is_used(used: &[bool], number: usize) -> bool {
    match used.get(number) {
        Some(is_used) => *is_used,
        None => false,
    }
}

impl ValuesOnDemand for LandmarksOnDemand<'_, '_, '_> {
    ghost use Rattle.model.specs.Grounding.{ground_system};

    ghost width_of = { λ found. length (atoms_of found.index.now) };

    ghost system_of = { λ found. ground_system (task_of found.index.now) (atoms_of found.index.now) };

    ghost answers = { true };

    fn value(&self, basis: Basis, state: &Packed) -> u64 {
        self.value_at(basis, state)
    }

    fn is_full(&self) -> bool {
        self.entries >= self.limits.entries && self.asked_for >= self.may_forget_at
    }

    fn forget(&mut self, used: &[bool]) {
        self.forget_unused(used);
    }

    fn ask(
        &mut self,
        state: &Packed,
        place: u32,
        value: u64,
        basis: Option<Basis>,
    ) -> Result<Answer, NoMemory> {
        self.asked_for = self.asked_for.saturating_add(1);
        if self.is_done(place, basis) {
            return Ok(Answer::Nothing);
        }
        match self.known_dead_end(state) {
            Some(basis) => Ok(Answer::Dead(basis)),
            None => self.find(state, place, value, basis),
        }
    }
}

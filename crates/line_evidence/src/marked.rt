//! The marks of states that a search found by values on demand.
//!
//! The role that a mark says, and the lower bound of a cut, are those by which the search stands. What it rests on is chosen here, and
//! tested: the values of all states where they give it, and else a landmark value.
ghost use Rattle.std.specs.Prelude.{◌≡◌, ◌<◌, ◌≤◌, ℕ, Bool, List, IfOk, IfSome, length};
ghost use Rattle.grounding.specs.Ground.{atoms_in, task_in};
ghost use Rattle.packed_state.specs.Packed.{bits_of};
ghost use Rattle.landmark_zones.specs.Landmarks.{landmarks_of};
ghost use Rattle.guides.specs.FairTables.{functions_in, ground_in};
ghost use Rattle.tables.specs.Several.{Knows, width_of};
ghost use Rattle.line_evidence.specs.Roles.{CanBeMarked, HaveRolesOf, IsRoleOf, marks_in};
ghost use Rattle.line_evidence.specs.Shown.{AreSupported};

use crate::shown::are_supported;
use certificate::{Basis, Landmarks, Listed, Mark};
use faults::NoMemory;
use guides::{FairTables, LandmarksOnDemand, UsedValues};
use packed_state::Packed;
use search::{FoundStates, Node, NodeStatus, StateListing};
use std::alloc::Global;
use tables::{KnownState, TableFunctions};

/// The marks of found states, in order, and the landmark values that they name.
#[derive(Drop)]
pub struct Marked {
    /// For each state its cost and its role.
    pub marks: Vec<Listed>,
    /// The landmark values, numbered from 0.
    pub landmarks: Landmarks,
}

/// The marks of the states that a search found by this guide and these values on demand, and the landmark values that they name. `None`
/// if the test finds that one of them does not rest on what it names, which is not expected.
///
/// # Errors
/// Memory is refused.
pub fn tested_marks<L: StateListing>(
    alloc: Global,
    guide: &FairTables<'_, '_, '_>,
    values: &LandmarksOnDemand<'_, '_, '_>,
    found: &FoundStates<L>,
) -> Result<Option<Marked>, NoMemory>
    requires width { L.width_of found.now.store ≡ length (atoms_in (ground_in guide.now)) }
    requires one_for_each { length found.now.nodes.items ≡ length (L.states found.now.store) }
    requires estimates { length found.now.estimates.items ≡ length found.now.nodes.items }
    requires few { length found.now.nodes.items ≤ 16777216 }
    ensures roles { IfOk result (λ o. IfSome o (λ marked. (value : List Bool → ℕ) (is_dead : List Bool → Bool)
        → CanBeMarked value is_dead (L.states found.now.store) found.now.nodes.items found.now.estimates.items
        → HaveRolesOf value is_dead (L.states found.now.store) found.now.nodes.items marked.marks.items)) }
    ensures supported { IfOk result (λ o. IfSome o (λ marked. AreSupported (task_in (ground_in guide.now)) (atoms_in (ground_in guide.now)) (functions_in guide.now)
        (landmarks_of marked.landmarks) (L.states found.now.store) (marks_in marked.marks.items))) }
{
    let marked = marks_by(alloc, guide, values, found)?;
    if are_supported(alloc, guide, &marked, &found.store)? {
        Ok(Some(marked))
    } else {
        Ok(None)
    }
}

/// The marks, with what they are expected to rest on.
fn marks_by<L: StateListing>(
    alloc: Global,
    guide: &FairTables<'_, '_, '_>,
    values: &LandmarksOnDemand<'_, '_, '_>,
    found: &FoundStates<L>,
) -> Result<Marked, NoMemory>
    requires width { L.width_of found.now.store ≡ length (atoms_in (ground_in guide.now)) }
    requires one_for_each { length found.now.nodes.items ≡ length (L.states found.now.store) }
    requires estimates { length found.now.estimates.items ≡ length found.now.nodes.items }
    requires few { length found.now.nodes.items ≤ 16777216 }
    ensures roles { IfOk result (λ marked. (value : List Bool → ℕ) (is_dead : List Bool → Bool)
        → CanBeMarked value is_dead (L.states found.now.store) found.now.nodes.items found.now.estimates.items
        → HaveRolesOf value is_dead (L.states found.now.store) found.now.nodes.items marked.marks.items) }
    ensures as_many { IfOk result (λ marked. length marked.marks.items ≡ length found.now.nodes.items) }
{
    let functions = guide.functions();
    let mut bases = ChosenBases {
        functions,
        values,
        used: UsedValues::none(alloc, values)?,
    };
    let mut at = Evaluation {
        state: Packed::empty(alloc, guide.ground().width())?,
        known: functions.known_state(alloc)?,
    };
    let mut marks = Vec::with_capacity(alloc, found.nodes.len())?;
    for place in 0..found.nodes.len() {
        let node = found.nodes[place];
        let estimate = found.estimates[place];
        let by = bases.choose(alloc, found, place as u32, &mut at)?;
        marks.push(listed(node, by, estimate))?;
    }
    Ok(Marked {
        marks,
        landmarks: bases.used.into_landmarks(),
    })
}

/// A state, and what is known of the values of one.
pub(crate) struct Evaluation {
    pub(crate) state: Packed,
    pub(crate) known: KnownState,
}

impl Drop for Evaluation {
    fn drop(self) {
        let Self { state: _, known: _ } = self;
    }
}

/// What lines rest on, chosen one after another, and the landmark values among it.
#[derive(Drop)]
struct ChosenBases<'a, 'f, 'i, 'g, 't> {
    functions: &'a TableFunctions<'f>,
    values: &'a LandmarksOnDemand<'i, 'g, 't>,
    used: UsedValues,
}

impl ChosenBases<'_, '_, '_, '_, '_> {
    /// What the line of the found state at this place is to rest on: the values of all states, if they show what it says, and else the
    /// landmark value by which the search stands.
    fn choose<L: StateListing>(
        &mut self,
        alloc: Global,
        found: &FoundStates<L>,
        place: u32,
        at: &mut Evaluation,
    ) -> Result<Basis, NoMemory>
        requires width { L.width_of found.now.store ≡ width_of self.old.functions.now }
        requires node { place < length found.now.nodes.items }
        requires one_for_each { length found.now.nodes.items ≡ length (L.states found.now.store) }
        requires estimates { length found.now.estimates.items ≡ length found.now.nodes.items }
        requires state { length (bits_of at.old.state) ≡ width_of self.old.functions.now }
        requires known { Knows self.old.functions.now at.old.known }
        ensures functions { self.new.functions.now ≡ self.old.functions.now }
        ensures state { length (bits_of at.new.state) ≡ width_of self.old.functions.now }
        ensures known { Knows self.old.functions.now at.new.known }
    {
        let Some(basis) = found.bases.at(place) else {
            return Ok(Basis::OfAll);
        };
        let node = found.nodes[place as usize];
        let estimate = found.estimates[place as usize];
        found.store.get(place, &mut at.state);
        let mark = listed(node, Basis::OfAll, estimate).mark;
        if are_enough(self.functions, mark, at) {
            return Ok(Basis::OfAll);
        }
        match self.used.number_of(alloc, self.values, basis)? {
            Some(number) => Ok(Basis::Landmark(number)),
            None => Ok(Basis::OfAll),
        }
    }
}

/// Whether the values of all states show what the mark says of the state.
fn are_enough(functions: &TableFunctions<'_>, mark: Mark, at: &mut Evaluation) -> bool
    requires state { length (bits_of at.old.state) ≡ width_of functions.now }
    requires known { Knows functions.now at.old.known }
    ensures state { length (bits_of at.new.state) ≡ width_of functions.now }
    ensures known { Knows functions.now at.new.known }
{
    match mark {
        Mark::Expanded => true,
        Mark::Cut { rest, .. } => functions.is_worth(rest, &at.state, &mut at.known),
        Mark::Dead { .. } => functions.is_dead_end(&at.state, &mut at.known),
    }
}

/// The mark of a state with this node: expanded if it was expanded, dead if it is marked dead, and otherwise a cut with this estimate.
/// It rests on this basis.
fn listed(node: Node, by: Basis, estimate: u64) -> Listed
    ensures { IsRoleOf node estimate result }
{
    let cost = node.cost;
    match node.status {
        NodeStatus::Expanded => Listed {
            cost,
            mark: Mark::Expanded,
        },
        NodeStatus::Dead => Listed {
            cost,
            mark: Mark::Dead { by },
        },
        NodeStatus::Unexpanded | NodeStatus::Reopened => Listed {
            cost,
            mark: Mark::Cut { by, rest: estimate },
        },
    }
}

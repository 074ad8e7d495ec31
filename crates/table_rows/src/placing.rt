//! An instance's changes of a scope's atoms, by place.
ghost use Rattle.std.specs.Prelude.{◌≡◌, ◌<◌, ◌++◌, ◌∷◌, ◌^◌, [], not, IfOk, OnOk, filter, length, map};
ghost use Rattle.std.specs.List.{filter_map};
ghost use Rattle.grounding.specs.declared.changes.CountingChange.{CountingChange};
ghost use Rattle.grounding.specs.Changes.{counting_of, conditional_of};
ghost use Rattle.lower_bounds.specs.TableFunctions.{is_among};
ghost use Rattle.table_rows.specs.Afters as model;
ghost use Rattle.table_rows.specs.Afters.{certain_place, when_in, placed_changes};
ghost use Rattle.table_rows.specs.PlacedChanges.{when_of, changes_of};

use crate::afters::{PlacedChanges, When};
use crate::placed::placed;
use crate::places::place_in;
use faults::NoMemory;
use grounding::CountingChange;
use packed_state::Mask;
use std::alloc::Global;

impl PlacedChanges {
    /// The changes of the scope's atoms.
    pub(crate) fn new(
        alloc: Global,
        scope: &[u32],
        changes: &[CountingChange<'_>],
    ) -> Result<PlacedChanges, NoMemory>
        requires { length scope.now < 2 ^ 32 }
        ensures { IfOk result (λ c. changes_of c ≡ placed_changes scope.now (map conditional_of changes.now)) }
    {
        let width = scope.len() as u32;
        let deleted = certain_places(alloc, scope, changes, false)?;
        let added = certain_places(alloc, scope, changes, true)?;
        let whens = whens(alloc, scope, &added, changes)?;
        let deletes = Mask::new(alloc, width, &deleted)?;
        let adds = Mask::new(alloc, width, &added)?;
        Ok(PlacedChanges {
            deletes,
            adds,
            whens,
        })
    }
}

/// The places that unconditional changes set to this value.
fn certain_places(
    alloc: Global,
    scope: &[u32],
    changes: &[CountingChange<'_>],
    value: bool,
) -> Result<Vec<u32>, NoMemory>
    requires { length scope.now < 2 ^ 32 }
    ensures { IfOk result (λ found. found.items ≡ filter_map (certain_place scope.now value) (map counting_of changes.now)) }
{
    let mut found = Vec::new(alloc);
    for change in changes {
        add_certain(scope, value, change, &mut found)?;
    }
    Ok(found)
}

/// Adds the change's place, if the change is unconditional, sets this value, and its atom is in the scope.
fn add_certain(
    scope: &[u32],
    value: bool,
    change: &CountingChange<'_>,
    found: &mut Vec<u32>,
) -> Result<(), NoMemory>
    requires { length scope.now < 2 ^ 32 }
    ensures { OnOk result (found.new.items ≡ found.old.items ++ filter_map (certain_place scope.now value) (counting_of change.now ∷ [])) }
{
    if !change.is_unconditional() {
        return Ok(());
    }
    if change.value != value {
        return Ok(());
    }
    match place_in(scope, change.atom) {
        Some(place) => {
            found.push(place)?;
            Ok(())
        }
        None => Ok(()),
    }
}

/// The changes under a `when`, but for those of added places: adds win.
fn whens(
    alloc: Global,
    scope: &[u32],
    added: &[u32],
    changes: &[CountingChange<'_>],
) -> Result<Vec<When>, NoMemory>
    requires { length scope.now < 2 ^ 32 }
    ensures { IfOk result (λ found. map when_of found.items ≡ filter (λ (w : model.When). not (is_among added.now w.place)) (filter_map (when_in scope.now) (map conditional_of changes.now))) }
{
    let mut found = Vec::new(alloc);
    for change in changes {
        add_when(alloc, scope, added, change, &mut found)?;
    }
    Ok(found)
}

/// Adds the change, if it is under a `when` that a packed state may meet, and its place is in the scope and not added.
fn add_when(
    alloc: Global,
    scope: &[u32],
    added: &[u32],
    change: &CountingChange<'_>,
    found: &mut Vec<When>,
) -> Result<(), NoMemory>
    requires { length scope.now < 2 ^ 32 }
    ensures { OnOk result (map when_of found.new.items ≡ map when_of found.old.items ++ filter (λ (w : model.When). not (is_among added.now w.place)) (filter_map (when_in scope.now) (conditional_of change.now ∷ []))) }
{
    if change.is_unconditional() {
        return Ok(());
    }
    if change.requires_unnumbered() {
        return Ok(());
    }
    let Some(place) = place_in(scope, change.atom) else {
        return Ok(());
    };
    if added.contains(&place) {
        return Ok(());
    }
    let condition = placed(alloc, scope, change.condition())?;
    found.push(When {
        place,
        value: change.value,
        condition,
    })?;
    Ok(())
}

//! Which instances may break a zone.
ghost use Rattle.std.specs.Prelude.{◌≡◌, map, true};
ghost use Rattle.std.specs.List.{list_any};
ghost use Rattle.grounding.specs.Views.{numbered_of};
ghost use Rattle.grounding.specs.Changes.{conditional_of};
ghost use Rattle.model.specs.ConditionalChanges.{changes_in};
ghost use Rattle.lower_bounds.specs.FairPotentials.{makes};
ghost use Rattle.lower_bounds.specs.TableFunctions.{is_among};
ghost use Rattle.lower_bounds.specs.LandmarkFunctions.{has_any, is_in};
ghost use Rattle.lower_bounds.specs.FairLandmarks as fair;
ghost use Rattle.landmarks.specs.Breaking.{IsRising, IsSorted, adds_surely, breaks, zone_in};

use grounding::{CountingChange, NumberedLiteral};
use landmark_zones::ZoneRef;

/// Whether an instance with these literals and these changes may break the zone, whose numbers ascend.
pub fn may_break(
    zone: ZoneRef<'_>,
    literals: &[NumberedLiteral],
    changes: &[CountingChange<'_>],
) -> bool
    requires { IsSorted (zone_in zone) }
    ensures { result ≡ fair.may_break (map numbered_of literals.now) (map conditional_of changes.now) (zone_in zone.entry) }
{
    !has_any(zone, literals) && one_breaks(zone, changes)
}

/// Whether one of the changes makes a literal of the zone true, and may take effect where it is whole.
fn one_breaks(zone: ZoneRef<'_>, changes: &[CountingChange<'_>]) -> bool
    requires { IsSorted (zone_in zone) }
    ensures { result ≡ list_any (breaks (map conditional_of changes.now) (zone_in zone.entry)) (map conditional_of changes.now) }
{
    for change in changes {
        if breaks(zone, change, changes) {
            return true;
        }
    }
    false
}

/// Whether the change, which is one of these, makes a literal of the zone true, and may take effect where it is whole.
fn breaks(zone: ZoneRef<'_>, change: &CountingChange<'_>, changes: &[CountingChange<'_>]) -> bool
    requires { IsSorted (zone_in zone) }
    ensures { result ≡ breaks (map conditional_of changes.now) (zone_in zone.entry) (conditional_of change.now) }
{
    makes_one(zone, change, changes) && may_take_effect(zone, change)
}

/// Whether the change makes a literal of the zone true. A delete does not count if an unconditional change adds the atom.
fn makes_one(zone: ZoneRef<'_>, change: &CountingChange<'_>, changes: &[CountingChange<'_>]) -> bool
    requires { IsSorted (zone_in zone) }
    ensures { result ≡ fair.makes_one (map conditional_of changes.now) (zone_in zone.entry) (conditional_of change.now).change }
{
    let made = NumberedLiteral {
        atom: change.atom,
        value: change.value,
    };
    is_in(zone, made) && (change.value || !are_adding(changes, change.atom))
}

/// Whether the change may take effect where the zone is whole.
fn may_take_effect(zone: ZoneRef<'_>, change: &CountingChange<'_>) -> bool
    requires { IsSorted (zone_in zone) }
    ensures { result ≡ fair.may_take_effect (zone_in zone.entry) (conditional_of change.now) }
{
    !has_any(zone, change.condition()) && !change.requires_unnumbered()
}

/// Whether one of the changes adds the atom unconditionally.
fn are_adding(changes: &[CountingChange<'_>], atom: u32) -> bool
    ensures { result ≡ makes (changes_in (map conditional_of changes.now)) true true atom }
{
    for change in changes {
        if adds(change, atom) {
            return true;
        }
    }
    false
}

/// Whether the change adds the atom unconditionally.
fn adds(change: &CountingChange<'_>, atom: u32) -> bool
    ensures { result ≡ adds_surely atom (conditional_of change.now).change }
{
    change.atom == atom && change.is_unconditional() && change.value
}

/// Whether one of the literals is one of the zone's.
pub(crate) fn has_any(zone: ZoneRef<'_>, literals: &[NumberedLiteral]) -> bool
    requires { IsSorted (zone_in zone) }
    ensures { result ≡ has_any (zone_in zone.entry) (map numbered_of literals.now) }
{
    for literal in literals {
        if is_in(zone, *literal) {
            return true;
        }
    }
    false
}

/// Whether the literal is one of the zone's.
fn is_in(zone: ZoneRef<'_>, literal: NumberedLiteral) -> bool
    requires { IsSorted (zone_in zone) }
    ensures { result ≡ is_in (zone_in zone.entry) (numbered_of literal) }
{
    if literal.value {
        is_among(zone.atoms, literal.atom)
    } else {
        is_among(zone.negated, literal.atom)
    }
}

/// Whether the number is among these, which ascend.
fn is_among(numbers: &[u32], number: u32) -> bool
    requires { IsRising numbers.now }
    ensures { result ≡ is_among numbers.now number }
{
    numbers.binary_search(&number).is_ok()
}

//! What a certificate's text may have of zones and values.
ghost use Rattle.std.specs.Prelude.{◌≡◌, IsTrue, map, nat_le, ◌+◌, length};
ghost use Rattle.std.specs.List.{list_all};
ghost use Rattle.lower_bounds.specs.LandmarkLines as lines;
ghost use Rattle.lower_bounds.specs.LandmarkLines.{is_share, is_value, is_zone, rise};
ghost use Rattle.landmark_zones.specs.Landmarks.{share_of};
ghost use Rattle.landmark_zones.specs.Limits.{are_others};

use crate::values::Share;
use crate::zones::ZoneRef;

/// The maximum number of zones of a text.
pub const MAX_ZONES: usize = 16_777_216;

/// The maximum number of values of a text.
pub const MAX_VALUES: usize = 16_777_216;

/// The maximum number of literals of all zones of a text, and of zones of all its values.
pub const MAX_ENTRIES: usize = 67_108_864;

/// The maximum weight of a zone in a value.
pub const MAX_SHARE_WEIGHT: u32 = 2_147_483_647;

/// Whether a text with this many atoms may have this zone: at least one literal, each of another atom, in ascending order.
pub fn is_zone(zone: ZoneRef<'_>, atom_count: usize) -> bool
    ensures { result ≡ is_zone atom_count (record { atoms = zone.entry.atoms.now; negated = zone.entry.negated.now }) }
{
    rise(zone.atoms, atom_count)
        && rise(zone.negated, atom_count)
        && has_literals(zone)
        && are_others(zone.atoms, zone.negated, atom_count)
}

/// Whether there is a literal.
fn has_literals(zone: ZoneRef<'_>) -> bool
    ensures { result ≡ nat_le 1 (length zone.entry.atoms.now + length zone.entry.negated.now) }
{
    !zone.atoms.is_empty() || !zone.negated.is_empty()
}

/// Whether none of the numbers is one of the atoms, which ascend.
fn are_others(atoms: &[u32], numbers: &[u32], atom_count: usize) -> bool
    requires { IsTrue (rise atom_count 0 atoms.now) }
    ensures { result ≡ are_others atoms.now numbers.now }
{
    for number in numbers {
        if atoms.binary_search(number).is_ok() {
            return false;
        }
    }
    true
}

/// Whether a text with this many zones may have this value: at least one zone, in ascending order, each with a weight within the
/// limits.
pub fn is_value(shares: &[Share], zone_count: usize) -> bool
    ensures { result ≡ is_value zone_count (map share_of shares.now) }
{
    zones_rise(shares, zone_count) && !shares.is_empty() && are_shares(shares)
}

/// Whether each weight is within the limits.
fn are_shares(shares: &[Share]) -> bool
    ensures { result ≡ list_all is_share (map share_of shares.now) }
{
    for share in shares {
        if !is_share(*share) {
            return false;
        }
    }
    true
}

/// Whether the weight is within the limits.
fn is_share(share: Share) -> bool
    ensures { result ≡ is_share (share_of share) }
{
    1 <= share.weight && share.weight <= MAX_SHARE_WEIGHT
}

/// Whether the numbers of the zones are strictly ascending and below the count.
fn zones_rise(shares: &[Share], zone_count: usize) -> bool
    ensures { result ≡ rise zone_count 0 (map (λ (s : lines.Share). s.zone) (map share_of shares.now)) }
{
    let mut least = 0;
    for share in shares {
        let number = share.zone as usize;
        if number < least || number >= zone_count {
            return false;
        }
        least = number + 1;
    }
    true
}

/// Whether the numbers are strictly ascending and below the count.
fn rise(numbers: &[u32], count: usize) -> bool
    ensures { result ≡ rise count 0 numbers.now }
{
    let mut least = 0;
    for number in numbers {
        let number = *number as usize;
        if number < least || number >= count {
            return false;
        }
        least = number + 1;
    }
    true
}

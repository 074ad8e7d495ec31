//! Values of packed states.
ghost use Rattle.std.specs.Prelude.{◌≡◌, ◌<◌, ◌≤◌, IsTrue, get_or, length, map, nat_le, nat_lt, not, false, sum_by};
ghost use Rattle.std.specs.List.{filter_map, list_all};
ghost use Rattle.packed_state.specs.Packed.{bits_of};
ghost use Rattle.lower_bounds.specs.LandmarkFunctions as landmarks;
ghost use Rattle.lower_bounds.specs.LandmarkFunctions.{gives};
ghost use Rattle.lower_bounds.specs.LandmarkLines.{landmark_of};
ghost use Rattle.lower_bounds.specs.LandmarkLaws.{is_zone_over};
ghost use Rattle.landmark_zones.specs.Landmarks.{landmarks_of, share_of};
ghost use Rattle.landmarks.specs.Breaking.{zone_in};
ghost use Rattle.landmarks.specs.Values.{share_gives};

use landmark_zones::{Landmarks, Share, ZoneRef};
use packed_state::Packed;

/// The sum of the weights of those of these zones that are whole in the state: the value of the state, if it has its rows in all
/// tables.
pub fn value_in(state: &Packed, landmarks: &Landmarks, shares: &[Share]) -> u64
    requires over { IsTrue (list_all (is_zone_over (length (bits_of state.now))) (landmarks_of landmarks.now).zones) }
    requires few { length shares.now ≤ 67108864 }
    ensures { result ≡ sum_by (gives (bits_of state.now)) (filter_map (landmark_of (landmarks_of landmarks.now).zones) (map share_of shares.now)) }
{
    let mut total = 0;
    for share in shares {
        total += weight_in(state, landmarks, *share);
    }
    total
}

/// Whether the sum of these weights is at least this, for which no more zones are looked at than it takes.
pub fn is_worth(state: &Packed, landmarks: &Landmarks, shares: &[Share], least: u64) -> bool
    requires over { IsTrue (list_all (is_zone_over (length (bits_of state.now))) (landmarks_of landmarks.now).zones) }
    requires few { length shares.now ≤ 67108864 }
    ensures { result ≡ nat_le least (sum_by (gives (bits_of state.now)) (filter_map (landmark_of (landmarks_of landmarks.now).zones) (map share_of shares.now))) }
{
    let mut reached = 0;
    for share in shares {
        if reached >= least {
            return true;
        }
        reached += weight_in(state, landmarks, *share);
    }
    reached >= least
}

/// The weight of the share, if there is a zone with its number and the zone is whole in the state.
fn weight_in(state: &Packed, landmarks: &Landmarks, share: Share) -> u64
    requires over { IsTrue (list_all (is_zone_over (length (bits_of state.now))) (landmarks_of landmarks.now).zones) }
    ensures gives { result ≡ share_gives (landmarks_of landmarks.now).zones (bits_of state.now) (share_of share) }
    ensures small { result ≤ 4294967295 }
{
    let number = share.zone as usize;
    if number >= landmarks.zone_count() {
        return 0;
    }
    if is_whole(state, landmarks.zone(number)) {
        u64::from(share.weight)
    } else {
        0
    }
}

/// Whether the zone is whole in the state: its atoms are false, and the negated ones are true.
pub fn is_whole(state: &Packed, zone: ZoneRef<'_>) -> bool
    requires { IsTrue (is_zone_over (length (bits_of state.now)) (zone_in zone)) }
    ensures { result ≡ landmarks.is_whole (bits_of state.now) (zone_in zone.entry) }
{
    are_false(state, zone.atoms) && are_true(state, zone.negated)
}

/// Whether these atoms are false in the state.
fn are_false(state: &Packed, numbers: &[u32]) -> bool
    requires { IsTrue (list_all (λ number. nat_lt number (length (bits_of state.now))) numbers.now) }
    ensures { result ≡ list_all (λ number. not (get_or (bits_of state.now) number false)) numbers.now }
{
    for number in numbers {
        if state.has(*number) {
            return false;
        }
    }
    true
}

/// Whether these atoms are true in the state.
fn are_true(state: &Packed, numbers: &[u32]) -> bool
    requires { IsTrue (list_all (λ number. nat_lt number (length (bits_of state.now))) numbers.now) }
    ensures { result ≡ list_all (λ number. get_or (bits_of state.now) number false) numbers.now }
{
    for number in numbers {
        if !state.has(*number) {
            return false;
        }
    }
    true
}

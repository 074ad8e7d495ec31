//! The order in which a search by an inconsistent estimate finds rooms, and at which costs.
ghost use Rattle.std.specs.Prelude.{◌≡◌, false, ⊤};
ghost use Rattle.search_tests.specs.Rooms.{rooms, sign, signs_admissible, none_dead};

use crate::found_rooms::{FoundRoom, found_rooms};
use crate::rooms::{Door, Rooms};
use faults::NoMemory;
use packed_state::{Packed, PooledStore};
use search::{Guide, Outcome, best_first};
use std::alloc::Global;
use std::test::Fail;

/// The estimate of the rooms that have door 63. That of any other room is 0.
#[derive(Clone, Copy)]
struct Signs {
    rooms: Rooms,
    value: u32,
}

impl Guide for Signs {
    type Scratch = ();

    ghost width_of = { λ _. 64 };

    ghost system_of = { λ g. rooms g.rooms.first g.rooms.doors.now };

    ghost estimate_of = { λ g. sign g.value };

    ghost is_dead = { λ _ _. false };

    ghost fits = { λ _ _. ⊤ };

    ghost is_admissible = { λ g. signs_admissible g.rooms.first g.rooms.doors.now g.value };

    ghost reports_dead_ends = { λ g. none_dead g.rooms.first g.rooms.doors.now };

    fn scratch(&self, _alloc: Global) -> Result<(), NoMemory> {
        Ok(())
    }

    fn move_to(&self, _state: &Packed, _scratch: &mut ()) {}

    fn value(&self, state: &Packed, _scratch: &mut ()) -> Option<u64> {
        if state.has(63) {
            Some(u64::from(self.value))
        } else {
            Some(0)
        }
    }
}

/// A system with its signs; the limit of states; the bound, if the limit is reached; and the rooms in the order of finding.
struct Row {
    signs: Signs,
    most: u32,
    bound: Option<u64>,
    found: &'static [FoundRoom],
}

/// Door 63, which leads back to the first room.
const SIGN: u64 = 1 << 63;

/// Two ways of equal cost: by the doors 0, 2 and 4, and by 1, 3 and 5. On the second one two rooms have signs.
const NEAR: Rooms = Rooms {
    first: 0b11,
    doors: &[
        Door(2, 1 << 2),
        Door(2, 1 << 3 | SIGN),
        Door(2, 1 << 4),
        Door(2, 1 << 5 | SIGN),
        Door(2, 1 << 6),
        Door(2, 1 << 7),
    ],
};

/// The same with costs above 2^20.
const FAR: Rooms = Rooms {
    first: 0b11,
    doors: &[
        Door(2_000_000, 1 << 2),
        Door(2_000_000, 1 << 3 | SIGN),
        Door(2_000_000, 1 << 4),
        Door(2_000_000, 1 << 5 | SIGN),
        Door(2_000_000, 1 << 6),
        Door(2_000_000, 1 << 7),
    ],
};

/// The room with door 3 is reached by door 1 at cost 3 and, by the doors 0 and 2, at cost 2. The sign behind door 0 makes it come first at
/// cost 3.
const DETOUR: Rooms = Rooms {
    first: 0b11,
    doors: &[
        Door(1, 1 << 2 | SIGN),
        Door(3, 1 << 3),
        Door(1, 1 << 3),
        Door(1, 1 << 4),
        Door(1, 1 << 5),
    ],
};

#[rattlefmt::skip]
static ROWS: [Row; 4] = [
    // of equal sums the least estimate comes first
    Row {
        signs: Signs { rooms: NEAR, value: 2 }, most: 7, bound: None,
        found: &[(0, 0), (2, 2), (3, 2), (4, 4), (6, 6), (5, 4), (7, 6)],
    },
    Row {
        signs: Signs { rooms: FAR, value: 2_000_000 }, most: 7, bound: None,
        found: &[(0, 0), (2, 2_000_000), (3, 2_000_000), (4, 4_000_000), (6, 6_000_000), (5, 4_000_000), (7, 6_000_000)],
    },
    // What is reached at a lower cost is expanded again, and so each room has its least cost.
    Row {
        signs: Signs { rooms: DETOUR, value: 2 }, most: 5, bound: None,
        found: &[(0, 0), (2, 1), (3, 2), (4, 3), (5, 4)],
    },
    // the room behind the last door is one too many
    Row {
        signs: Signs { rooms: DETOUR, value: 2 }, most: 4, bound: Some(3),
        found: &[(0, 0), (2, 1), (3, 2), (4, 3)],
    },
];

/// Whether the search by the row's signs has the row's outcome.
fn is_as_expected(alloc: Global, row: &Row) -> Result<bool, NoMemory> {
    let store = PooledStore::new(alloc, 64)?;
    let most = row.most.clamp(1, 100);
    let (bound, states) = match best_first(alloc, &row.signs.rooms, &row.signs, store, most)? {
        Outcome::Found { .. } => return Ok(false),
        Outcome::Exhausted { states } => (None, states),
        Outcome::States { bound, states } => (Some(bound), states),
    };
    let found = found_rooms(alloc, &states.store, &states.nodes)?;
    Ok(bound == row.bound && found.as_slice() == row.found)
}

#[test]
fn rooms_are_found_in_their_order(rt: HostRuntime) -> Result<(), Fail> {
    for (number, row) in ROWS.iter().enumerate() {
        assert!(rt; is_as_expected(rt.alloc(), row)?, "row {number}");
    }
    Ok(())
}

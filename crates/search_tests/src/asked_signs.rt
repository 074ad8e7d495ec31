//! Signs that are looked at only when a room's turn comes, and the search that asks for them.
ghost use Rattle.std.specs.Prelude.{◌≡◌, ◌<◌, ◌^◌, length, true};
ghost use Rattle.packed_state.specs.Packed.{bits_of};
ghost use Rattle.search_tests.specs.Rooms.{rooms};

use crate::found_rooms::{FoundRoom, found_rooms};
use crate::rooms::{Door, Rooms};
use faults::NoMemory;
use packed_state::{Packed, PooledStore};
use search::{
    Answer, Basis, EstimateWithDeadEnds, Halt, NoDeadEnd, NoEstimate, Outcome, OwnClasses, Problem,
    ValuesOnDemand, begin_asking, go_on_asking,
};
use std::alloc::Global;
use std::test::Fail;

/// The value 2 of each room with door 63; a room with door 62 is a dead end. Each answer adds a basis. Basis 0 is forgotten as soon as it is
/// not marked as used.
#[derive(Clone, Copy)]
struct AskedSigns {
    rooms: Rooms,
    questions: u32,
    bases: u32,
    /// The first basis that is kept.
    first: u32,
}

/// The value of a room.
fn sign(state: &Packed) -> u64
    requires { length (bits_of state.now) ≡ 64 }
    ensures { result < 2 ^ 63 }
{
    if state.has(63) { 2 } else { 0 }
}

/// Whether basis 0 is marked as used.
fn is_first_used(used: &[bool]) -> bool {
    match used.get(0) {
        Some(is_used) => *is_used,
        None => false,
    }
}

impl ValuesOnDemand for AskedSigns {
    ghost width_of = { λ _. 64 };

    ghost system_of = { λ v. rooms v.rooms.first v.rooms.doors.now };

    ghost answers = { true };

    fn value(&self, _basis: Basis, state: &Packed) -> u64 {
        sign(state)
    }

    fn is_full(&self) -> bool {
        self.first == 0 && self.bases > 0
    }

    fn forget(&mut self, used: &[bool]) {
        if self.first == 0 && !is_first_used(used) {
            self.first = 1;
        }
    }

    fn ask(
        &mut self,
        state: &Packed,
        _place: u32,
        value: u64,
        _basis: Option<Basis>,
    ) -> Result<Answer, NoMemory> {
        self.questions = self.questions.saturating_add(1);
        let basis = Basis(self.bases);
        let higher = sign(state);
        if state.has(62) {
            self.bases = self.bases.saturating_add(1);
            return Ok(Answer::Dead(basis));
        }
        if higher <= value {
            return Ok(Answer::Nothing);
        }
        self.bases = self.bases.saturating_add(1);
        Ok(Answer::Raised(basis, higher))
    }
}

/// Two ways from the first room: by the doors 0, 3 and 5, of whose rooms two have signs, and by 1, 4 and 6, which ends in a dead end. And
/// a dear door.
const ROOMS: Rooms = Rooms {
    first: 0b111,
    doors: &[
        Door(2, 1 << 3 | 1 << 63),
        Door(2, 1 << 4),
        Door(20, 1 << 9),
        Door(2, 1 << 5 | 1 << 63),
        Door(2, 1 << 6),
        Door(2, 1 << 7),
        Door(2, 1 << 8 | 1 << 62),
    ],
};

/// The room behind door 0 waits again when its turn comes: the way without signs comes first. The room behind door 3 has a value by the
/// same basis, so it waits at once, and its turn comes once.
static FOUND: [FoundRoom; 8] = [
    (0, 0),
    (3, 2),
    (4, 2),
    (9, 20),
    (6, 4),
    (8, 6),
    (5, 4),
    (7, 6),
];

/// Whether the search has the right outcome, after nine questions and two bases. The first is forgotten: no room has its value from it when
/// the turn of the room behind the dear door comes. That the dead end has its basis does not keep it.
fn is_as_expected(alloc: Global) -> Result<bool, NoMemory> {
    let estimate = NoEstimate(&ROOMS);
    let dead_ends = NoDeadEnd(&ROOMS);
    let guide = EstimateWithDeadEnds::new(&estimate, &dead_ends);
    let mut values = AskedSigns {
        rooms: ROOMS,
        questions: 0,
        bases: 0,
        first: 0,
    };
    let problem = Problem {
        alloc,
        system: &ROOMS,
        guide: &guide,
        max_states: 100,
    };
    let store = OwnClasses(PooledStore::new(alloc, 64)?);
    let search = begin_asking(&problem, &values, store)?;
    match go_on_asking(&problem, &mut values, search, u32::MAX)? {
        Halt::Ended(Outcome::Exhausted { states }) => {
            let found = found_rooms(alloc, &states.store.0, &states.nodes)?;
            Ok(
                found.as_slice() == FOUND.as_slice()
                    && [values.questions, values.bases, values.first] == [9, 2, 1],
            )
        }
        _ => Ok(false),
    }
}

#[test]
fn rooms_wait_again_whose_values_are_raised(rt: HostRuntime) -> Result<(), Fail> {
    assert!(rt; is_as_expected(rt.alloc())?);
    Ok(())
}

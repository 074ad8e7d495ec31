//! A transition system for the tests: rooms with doors. No room is a goal, so any estimate is admissible, and a search that is not
//! stopped lists all rooms that it reaches.
ghost use Rattle.std.specs.Prelude.{◌≡◌, length};
ghost use Rattle.packed_state.specs.Packed.{bits_of};
ghost use Rattle.search_tests.specs.Rooms.{behind, price, room, rooms};

use faults::NoMemory;
use packed_state::Packed;
use search::TransitionSystem;
use std::alloc::Global;

/// What a door costs, and the room behind it.
#[derive(Clone, Copy)]
pub(crate) struct Door(pub(crate) u32, pub(crate) u64);

/// Rooms: sets of doors, as the bits of a word. Doors are numbered in the order of the list. One that is not in the list leads back to the
/// first room, at no cost.
#[derive(Clone, Copy)]
pub(crate) struct Rooms {
    pub(crate) first: u64,
    pub(crate) doors: &'static [Door],
}

/// Sets the state to the room of this word.
fn enter(word: u64, state: &mut Packed)
    requires { length (bits_of state.old) ≡ 64 }
    ensures width { length (bits_of state.new) ≡ 64 }
    ensures room { bits_of state.new ≡ room word }
{
    state.copy_words(&[word]);
}

impl Rooms {
    /// The room behind a door.
    fn behind(&self, door: u32) -> u64
        ensures { result ≡ behind self.now.first self.now.doors.now door }
    {
        match self.doors.get(door as usize) {
            Some(Door(_, room)) => *room,
            None => self.first,
        }
    }
}

impl TransitionSystem for Rooms {
    ghost width_of = { λ _. 64 };

    ghost means = { λ r. rooms r.first r.doors.now };

    fn width(&self) -> u32 {
        64
    }

    fn initial(&self, alloc: Global) -> Result<Packed, NoMemory> {
        let mut state = Packed::empty(alloc, 64)?;
        enter(self.first, &mut state);
        Ok(state)
    }

    fn applicable(&self, state: &Packed, into: &mut Vec<u32>) -> Result<(), NoMemory> {
        state.list_numbers(into)
    }

    fn successor(&self, door: u32, _state: &Packed, into: &mut Packed) {
        enter(self.behind(door), into);
    }

    fn cost(&self, door: u32) -> u32 {
        match self.doors.get(door as usize) {
            Some(Door(cost, _)) => *cost,
            None => 0,
        }
    }

    fn meets_goal(&self, _state: &Packed) -> bool {
        false
    }
}

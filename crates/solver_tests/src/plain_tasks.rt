//! The tasks whose certificates are compared over both stores of states.
use crate::unlike_tasks::{FOUR_UNLIKE_BALLS, UNLIKE_LAMPS, UNLIKE_PAIRS};
use test_support::{
    DONE, EACH_BOX, FORK, FOUR_BLOCKS, GO, HOP, PATH, SLIDE, SNAP, SOME_BOX, SPIN, STILL, SWAP,
    TIE, TRIP, Texts, UNTIED,
};

/// Tasks, and limits of listed states: some suffice, others are exceeded. A state of `SLIDE` and `SWAP` takes more than one word.
/// `FORK` has a dead end.
#[rattlefmt::skip]
pub(crate) static TASKS: [(Texts, u32); 24] = [
    (DONE, 1), (GO, 1), (GO, 2), (TIE, 2), (UNTIED, 1), (PATH, 3), (FORK, 3), (HOP, 2), (HOP, 3), (UNLIKE_PAIRS, 3),
    (UNLIKE_PAIRS, 4), (SNAP, 2), (SPIN, 3), (STILL, 1), (EACH_BOX, 1), (SOME_BOX, 1), (TRIP, 3), (UNLIKE_LAMPS, 136),
    (UNLIKE_LAMPS, 137), (FOUR_BLOCKS, 1000), (FOUR_UNLIKE_BALLS, 1000), (SLIDE, 360), (SWAP, 359), (SWAP, 360),
];

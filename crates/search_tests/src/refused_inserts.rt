//! A store that has run out of memory is unchanged. `tools/refuse-growth` fails each allocation of this test in turn, and the test passes
//! whichever fails.
use crate::packed_states::{distinct_sets, found, put, set_of};
use faults::NoMemory;
use packed_state::{Packed, PlainStore, PooledStore, StateStore};
use std::alloc::Global;
use std::test::Fail;

/// Whether the store has exactly these sets, in this order. It overwrites `lent` in place of taking memory.
fn has_just<S: StateStore>(store: &S, sets: &[Packed], lent: &mut Packed) -> bool {
    for (set, place) in sets.iter().zip(0..u32::MAX) {
        if lent.width() != store.width() || place as usize >= store.len() {
            return false;
        }
        store.get(place, lent);
        if *lent != *set {
            return false;
        }
    }
    store.len() == sets.len()
}

/// Whether the answer is that of a new set at this place.
fn is_next(answer: Option<(u32, bool)>, count: usize) -> bool {
    match answer {
        Some((place, is_new)) => place as usize == count && is_new,
        None => false,
    }
}

/// Inserts the set after these, once more if memory is refused. Whether it is there in the end, and the store had exactly these until
/// then.
fn takes_next<S: StateStore>(
    store: &mut S,
    before: &[Packed],
    set: &Packed,
    lent: &mut Packed,
) -> bool {
    match put(store, set) {
        Ok(answer) => is_next(answer, before.len()),
        Err(NoMemory) => {
            has_just(store, before, lent)
                && found(store, set).is_none()
                && put(store, set).is_ok_and(|answer| is_next(answer, before.len()))
        }
    }
}

/// Whether the store takes each set in turn, is unchanged where one is refused, and has all in the end.
fn takes_each<S: StateStore>(store: &mut S, sets: &[Packed], lent: &mut Packed) -> bool {
    for place in 0..sets.len() {
        if !takes_next(store, &sets[..place], &sets[place], lent) {
            return false;
        }
    }
    has_just(store, sets, lent)
}

/// Distinct sets, one to overwrite, and both stores, empty.
fn set_up(
    alloc: Global,
    width: u32,
) -> Result<(Vec<Packed>, Packed, PlainStore, PooledStore), NoMemory> {
    let sets = distinct_sets(alloc, width)?;
    let lent = set_of(alloc, width, &[])?;
    let pooled = PooledStore::new(alloc, width)?;
    Ok((sets, lent, PlainStore::new(alloc, width)?, pooled))
}

/// Sets of three words. A vector's capacity is no multiple of three, so a set may fit in part.
const WIDTH: u32 = 129;

#[test]
fn a_refused_set_changes_no_store(rt: HostRuntime) -> Result<(), Fail> {
    // at most one allocation fails, so the second attempt has memory
    let (sets, mut lent, mut plain, mut pooled) = match set_up(rt.alloc(), WIDTH) {
        Ok(made) => made,
        Err(NoMemory) => set_up(rt.alloc(), WIDTH)?,
    };
    let are_taken = [
        takes_each(&mut plain, &sets, &mut lent),
        takes_each(&mut pooled, &sets, &mut lent),
    ];
    assert!(rt; are_taken == [true, true]);
    Ok(())
}

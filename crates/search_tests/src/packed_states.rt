//! Packed sets, each call against the numbers in the sets, at widths around those of words; and both stores.
ghost use Rattle.std.specs.Prelude.{ℕ, ◌<◌, ◌≡◌, IfOk, length};
ghost use Rattle.std.specs.List.{All};
ghost use Rattle.packed_state.specs.Packed.{bits_of, mask_bits_of};

use faults::NoMemory;
use packed_state::{Mask, Packed, PlainStore, PooledStore, StateStore};
use std::alloc::{AllocError, Global};
use std::process::Abort;
use std::test::Fail;

/// Widths around the ends of words.
static WIDTHS: [u32; 11] = [0, 1, 63, 64, 65, 127, 128, 511, 512, 513, 1_025];

/// A rule by which numbers below a width are in a set.
#[derive(Clone, Copy)]
enum Sample {
    Empty,
    Full,
    Last,
    AllButLast,
}

static SAMPLES: [Sample; 4] = [
    Sample::Empty,
    Sample::Full,
    Sample::Last,
    Sample::AllButLast,
];

impl Sample {
    /// Whether the number is in the set of this width.
    fn has(self, width: u32, number: u32) -> bool {
        let is_last = number.saturating_add(1) == width;
        match self {
            Sample::Empty => false,
            Sample::Full => true,
            Sample::Last => is_last,
            Sample::AllButLast => !is_last,
        }
    }

    fn numbers(self, alloc: Global, width: u32) -> Result<Vec<u32>, AllocError>
        ensures { IfOk result (λ numbers. All (λ n. n < width) numbers.items) }
    {
        let mut numbers = Vec::new(alloc);
        for number in 0..width {
            if self.has(width, number) {
                numbers.push(number)?;
            }
        }
        Ok(numbers)
    }

    fn packed(self, alloc: Global, width: u32) -> Result<Packed, NoMemory>
        ensures { IfOk result (λ set. length (bits_of set) ≡ width) }
    {
        let numbers = self.numbers(alloc, width)?;
        Packed::new(alloc, width, &numbers)
    }

    fn mask(self, alloc: Global, width: u32) -> Result<Mask, NoMemory>
        ensures { IfOk result (λ mask. length (mask_bits_of mask) ≡ width) }
    {
        let numbers = self.numbers(alloc, width)?;
        Mask::new(alloc, width, &numbers)
    }
}

/// A set to compare with.
#[derive(Clone, Copy)]
enum Expected {
    /// The set of this rule.
    Just(Sample),
    /// The first without the second, with the third.
    Changed(Sample, Sample, Sample),
    /// The set of this rule, of another width.
    Widened(Sample, u32),
}

impl Expected {
    fn has(self, width: u32, number: u32) -> bool {
        match self {
            Expected::Just(sample) => sample.has(width, number),
            Expected::Changed(set, deletes, adds) => {
                set.has(width, number) && !deletes.has(width, number) || adds.has(width, number)
            }
            Expected::Widened(sample, before) => number < before && sample.has(before, number),
        }
    }
}

/// Whether the set has this width and exactly these numbers.
fn is_just(set: &Packed, width: u32, required: Expected) -> bool {
    for number in 0..set.width() {
        if set.has(number) != required.has(width, number) {
            return false;
        }
    }
    set.width() == width
}

/// The set, built number by number.
fn inserted(alloc: Global, width: u32, sample: Sample) -> Result<Packed, NoMemory> {
    let mut set = Packed::empty(alloc, width)?;
    for number in 0..width {
        if number < set.width() && sample.has(width, number) {
            set.insert(number);
        }
    }
    Ok(set)
}

/// The relations of two sets of one width: equal, the first has all of the second, the first has none of it.
fn compared(width: u32, set: Sample, other: Sample) -> [bool; 3] {
    let mut answers = [true; 3];
    for number in 0..width {
        let (is_in, is_in_other) = (set.has(width, number), other.has(width, number));
        answers[0] &= is_in == is_in_other;
        answers[1] &= is_in || !is_in_other;
        answers[2] &= !(is_in && is_in_other);
    }
    answers
}

/// The relations that the calls report.
fn reported(alloc: Global, width: u32, set: Sample, other: Sample) -> Result<[bool; 3], NoMemory> {
    let mask = other.mask(alloc, width)?;
    let other = inserted(alloc, width, other)?;
    let set = set.packed(alloc, width)?;
    Ok([set == other, set.has_all(&mask), set.has_none(&mask)])
}

/// The first set without the second, with the third.
fn changed(
    alloc: Global,
    width: u32,
    [set, deletes, adds]: [Sample; 3],
) -> Result<Packed, NoMemory> {
    let deletes = deletes.mask(alloc, width)?;
    let adds = adds.mask(alloc, width)?;
    let mut set = set.packed(alloc, width)?;
    set.change(&deletes, &adds);
    Ok(set)
}

/// The first set without the second, number by number.
fn removed(alloc: Global, width: u32, [set, deletes]: [Sample; 2]) -> Result<Packed, NoMemory> {
    let mut set = set.packed(alloc, width)?;
    for number in 0..width {
        if number < set.width() && deletes.has(width, number) {
            set.remove(number);
        }
    }
    Ok(set)
}

/// The second set, copied over the first.
fn copied(alloc: Global, width: u32, [set, other]: [Sample; 2]) -> Result<Packed, NoMemory> {
    let mut set = set.packed(alloc, width)?;
    set.copy_from(&other.packed(alloc, width)?);
    Ok(set)
}

/// Whether the set's numbers are listed in rising order, also in place of a vector's elements.
fn is_listed(alloc: Global, width: u32, set: Sample) -> Result<bool, NoMemory> {
    let required = set.numbers(alloc, width)?;
    let set = set.packed(alloc, width)?;
    let mut lent = vec![in alloc; width, width]?;
    set.list_numbers(&mut lent)?;
    Ok(lent == required && set.numbers(alloc)? == required)
}

/// Whether the first set without the second, and the second copied over the first, have the right numbers.
fn is_pair_changed(alloc: Global, width: u32, pair: [Sample; 2]) -> Result<bool, NoMemory> {
    let [set, other] = pair;
    let less = Expected::Changed(set, other, Sample::Empty);
    let is_removed = is_just(&removed(alloc, width, pair)?, width, less);
    let copy = copied(alloc, width, pair)?;
    Ok(is_removed && is_just(&copy, width, Expected::Just(other)))
}

/// Whether the first set without the second, with any other, has the right numbers.
fn is_pair_joined(alloc: Global, width: u32, [set, other]: [Sample; 2]) -> Result<bool, NoMemory> {
    let mut are_right = true;
    for &adds in &SAMPLES {
        let after = changed(alloc, width, [set, other, adds])?;
        are_right &= is_just(&after, width, Expected::Changed(set, other, adds));
    }
    Ok(are_right)
}

/// Whether all calls with the two sets are right.
fn is_pair(alloc: Global, width: u32, [set, other]: [Sample; 2]) -> Result<bool, NoMemory> {
    let are_compared = reported(alloc, width, set, other)? == compared(width, set, other);
    let is_changed = is_pair_changed(alloc, width, [set, other])?;
    Ok(are_compared && is_changed && is_pair_joined(alloc, width, [set, other])?)
}

/// Whether the set, made from a list and number by number, has its numbers and lists them.
fn is_sample(alloc: Global, width: u32, set: Sample) -> Result<bool, NoMemory> {
    let is_packed = is_just(&set.packed(alloc, width)?, width, Expected::Just(set));
    let is_inserted = is_just(&inserted(alloc, width, set)?, width, Expected::Just(set));
    Ok(is_packed && is_inserted && is_listed(alloc, width, set)?)
}

fn sample_is_right(rt: &impl Abort, alloc: Global, width: u32, set: Sample) -> Result<(), Fail> {
    assert!(rt; is_sample(alloc, width, set)?);
    for &other in &SAMPLES {
        assert!(rt; is_pair(alloc, width, [set, other])?);
    }
    Ok(())
}

#[test]
fn sets_have_their_numbers(rt: HostRuntime) -> Result<(), Fail> {
    for &width in &WIDTHS {
        for &set in &SAMPLES {
            sample_is_right(&rt, rt.alloc(), width, set)?;
        }
    }
    Ok(())
}

/// Whether empty sets of the two widths differ, and a set of grown width has the same numbers.
fn is_widened(alloc: Global, [narrow, wide]: [u32; 2], sample: Sample) -> Result<bool, NoMemory> {
    let differ = Packed::empty(alloc, narrow)? != Packed::empty(alloc, wide)?;
    let set = sample.packed(alloc, narrow)?;
    if set.width() > wide {
        return Ok(false);
    }
    let grown = set.with_width(alloc, wide)?;
    Ok(differ && is_just(&grown, wide, Expected::Widened(sample, narrow)))
}

#[test]
fn widths_grow(rt: HostRuntime) -> Result<(), Fail> {
    for &widths in &[[0, 1], [63, 64], [64, 65], [127, 513]] {
        for &sample in &SAMPLES {
            assert!(rt; is_widened(rt.alloc(), widths, sample)?);
        }
    }
    Ok(())
}

/// A set of a width of at least 128, with the key of the empty set.
#[rattlefmt::skip]
static TWIN: [u32; 37] = [
    0, 66, 67, 69, 71, 72, 74, 80, 82, 83, 84, 85, 86, 88, 93, 94, 95, 96, 99, 100, 101, 103, 104, 107, 108, 109, 110,
    112, 113, 114, 116, 117, 121, 122, 123, 124, 127,
];

pub(crate) fn set_of(alloc: Global, width: u32, numbers: &[u32]) -> Result<Packed, NoMemory> {
    let mut set = Packed::empty(alloc, width)?;
    for &number in numbers {
        if number < set.width() {
            set.insert(number);
        }
    }
    Ok(set)
}

/// The empty set, one with the same key, and the sets of one number.
pub(crate) fn distinct_sets(alloc: Global, width: u32) -> Result<Vec<Packed>, NoMemory> {
    let mut sets = Vec::new(alloc);
    sets.push(set_of(alloc, width, &[])?)?;
    if width >= 128 {
        sets.push(set_of(alloc, width, &TWIN)?)?;
    }
    for number in 0..width {
        sets.push(set_of(alloc, width, &[number])?)?;
    }
    Ok(sets)
}

/// The store's answer for the set, which has the store's width.
pub(crate) fn put<S: StateStore>(
    store: &mut S,
    set: &Packed,
) -> Result<Option<(u32, bool)>, NoMemory> {
    if set.width() == store.width() && store.len() < 16_777_216 {
        return Ok(Some(store.insert_copy_if_new(set)?));
    }
    Ok(None)
}

/// Whether the store has the set at this place.
pub(crate) fn is_at<S: StateStore>(
    alloc: Global,
    store: &S,
    set: &Packed,
    place: u32,
) -> Result<bool, NoMemory> {
    let mut lent = Sample::Full.packed(alloc, set.width())?;
    if lent.width() != store.width() || place as usize >= store.len() {
        return Ok(false);
    }
    store.get(place, &mut lent);
    Ok(lent == *set)
}

/// The place of the set, which has the store's width.
pub(crate) fn found<S: StateStore>(store: &S, set: &Packed) -> Option<u32> {
    if set.width() == store.width() {
        return store.find(set);
    }
    None
}

/// The answers of a store to a set that is inserted twice: the count before, the place, and whether it was new.
type Reported = (usize, Option<u32>, [Option<(u32, bool)>; 2]);

/// Inserts the set twice.
fn taken<S: StateStore>(store: &mut S, set: &Packed) -> Result<Reported, NoMemory> {
    let before = (store.len(), found(store, set));
    let first = put(store, set)?;
    let again = put(store, set)?;
    Ok((before.0, before.1, [first, again]))
}

/// Whether each set is new the first time only, and gets the next place.
fn takes<S: StateStore>(rt: &impl Abort, store: &mut S, sets: &[Packed]) -> Result<(), Fail> {
    for (set, place) in sets.iter().zip(0..u32::MAX) {
        let answers = [Some((place, true)), Some((place, false))];
        assert_eq!(rt; taken(store, set)?, (place as usize, None, answers));
    }
    Ok(())
}

/// Whether the store finds the set at this place.
fn has_at<S: StateStore>(
    alloc: Global,
    store: &S,
    set: &Packed,
    place: u32,
) -> Result<bool, NoMemory> {
    Ok(found(store, set) == Some(place) && is_at(alloc, store, set, place)?)
}

/// Whether the store has exactly these sets, in this order.
fn has_all<S: StateStore>(alloc: Global, store: &S, sets: &[Packed]) -> Result<bool, NoMemory> {
    for (set, place) in sets.iter().zip(0..u32::MAX) {
        if !has_at(alloc, store, set, place)? {
            return Ok(false);
        }
    }
    Ok(store.len() == sets.len())
}

fn keeps<S: StateStore>(
    rt: &impl Abort,
    alloc: Global,
    mut store: S,
    sets: &[Packed],
) -> Result<(), Fail> {
    takes(rt, &mut store, sets)?;
    assert!(rt; has_all(alloc, &store, sets)?);
    Ok(())
}

/// Whether both stores keep sets of this width.
fn width_is_kept(rt: &impl Abort, alloc: Global, width: u32) -> Result<(), Fail> {
    let sets = distinct_sets(alloc, width)?;
    keeps(rt, alloc, PlainStore::new(alloc, width)?, &sets)?;
    keeps(rt, alloc, PooledStore::new(alloc, width)?, &sets)
}

#[test]
fn stores_keep_their_sets(rt: HostRuntime) -> Result<(), Fail> {
    for &width in &[0, 1, 64, 128, 513] {
        width_is_kept(&rt, rt.alloc(), width)?;
    }
    Ok(())
}

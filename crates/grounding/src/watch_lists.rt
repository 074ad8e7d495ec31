//! Watch lists: the instances by one atom that they need, from which match trees are built.
//!
//! Each instance watches one atom that its precondition needs to be true, as a SAT solver watches literals of a clause (Moskewicz
//! et al. 2001, "Chaff: Engineering an Efficient SAT Solver"): the rarest on random walks, since its list is walked whenever it is
//! true, and of equally rare ones the one that the fewest instances need. An instance that is applicable in no packed state is in
//! no list.
ghost use Rattle.std.specs.Prelude.{◌≡◌, ◌<◌, ℕ, [], Some, None, All, IfOk, IfSome, OnOk, length, map, slice_get};
ghost use Rattle.grounding_instances.specs.Numbers.{numbered_of};
ghost use Rattle.grounding.specs.Conditions.{literals_in};
ghost use Rattle.grounding.specs.Watched.{IsWatchable, IsEither};

use crate::condition::Condition;
use crate::often::Often;
use faults::NoMemory;
use grounding_instances::NumberedLiteral;
use std::alloc::Global;

/// The numbers of the instances that may be applicable, each in one list.
#[derive(Drop)]
pub(crate) struct WatchLists {
    /// For each atom, the instances that watch it.
    rows: Vec<Vec<u32>>,
    /// The instances that need no atom to be true.
    pub(crate) unwatched: Vec<u32>,
}

impl WatchLists {
    ghost use Rattle.grounding.specs.WatchLists.{row_of, IsFiled, AreWatched};

    /// The lists of the instances with these preconditions, over atoms below `width`.
    pub(crate) fn new(
        alloc: Global,
        width: u32,
        conditions: &[Condition],
        often: &Often,
    ) -> Result<WatchLists, NoMemory>
        requires within { (k : ℕ) (c : Condition) → slice_get conditions.now k ≡ Some c → All (λ l. l.atom < width) (literals_in c) }
        requires few { length conditions.now < 4294967296 }
        ensures { IfOk result (AreWatched width conditions.now (length conditions.now)) }
    {
        let ranks = ranks(alloc, width, conditions, often)?;
        let mut lists = WatchLists::empty(alloc, width)?;
        for number in 0..conditions.len() as u32 {
            let condition = &conditions[number as usize];
            if condition.can_hold() {
                lists.file(number, rarest(condition.literals(), &ranks))?;
            }
        }
        Ok(lists)
    }

    /// Empty lists for the atoms below `width`.
    fn empty(alloc: Global, width: u32) -> Result<WatchLists, NoMemory>
        ensures width { IfOk result (λ lists. length lists.rows.items ≡ width) }
        ensures rows { IfOk result (λ lists. (a : ℕ) → row_of lists a ≡ []) }
        ensures unwatched { IfOk result (λ lists. lists.unwatched.items ≡ []) }
    {
        let mut rows = Vec::new(alloc);
        for _ in 0..width {
            rows.push(Vec::new(alloc))?;
        }
        let unwatched = Vec::new(alloc);
        Ok(WatchLists { rows, unwatched })
    }

    /// Appends the number to the list of the watched atom, or to those that watch none.
    fn file(&mut self, number: u32, watched: Option<u32>) -> Result<(), NoMemory>
        requires { IfSome watched (λ atom. atom < length self.old.rows.items) }
        ensures { OnOk result (IsFiled number watched self.old self.new) }
    {
        match watched {
            Some(atom) => self.file_watched(number, atom),
            None => self.file_unwatched(number),
        }
    }

    fn file_watched(&mut self, number: u32, atom: u32) -> Result<(), NoMemory>
        requires { atom < length self.old.rows.items }
        ensures { OnOk result (IsFiled number (Some atom) self.old self.new) }
    {
        self.rows[atom as usize].push(number)?;
        Ok(())
    }

    fn file_unwatched(&mut self, number: u32) -> Result<(), NoMemory>
        ensures { OnOk result (IsFiled number None self.old self.new) }
    {
        self.unwatched.push(number)?;
        Ok(())
    }

    /// The instances that watch the atom.
    pub(crate) fn of(&self, atom: u32) -> &[u32]
        ensures { result.now ≡ row_of self.now atom }
    {
        match self.rows.get(atom as usize) {
            Some(row) => row,
            None => &[],
        }
    }
}

/// The ranks of the atoms below `width`: the frequency of each times 2^32, plus the number of literals that need it.
fn ranks(
    alloc: Global,
    width: u32,
    conditions: &[Condition],
    often: &Often,
) -> Result<Vec<u64>, NoMemory>
    requires { (k : ℕ) (c : Condition) → slice_get conditions.now k ≡ Some c → All (λ l. l.atom < width) (literals_in c) }
    ensures { IfOk result (λ ranks. length ranks.items ≡ width) }
{
    let mut ranks = first_ranks(alloc, width, often)?;
    for condition in conditions {
        count_required(condition.literals(), &mut ranks);
    }
    Ok(ranks)
}

/// The ranks of atoms that no literal needs.
fn first_ranks(alloc: Global, width: u32, often: &Often) -> Result<Vec<u64>, NoMemory>
    ensures { IfOk result (λ ranks. length ranks.items ≡ width) }
{
    let mut ranks = Vec::new(alloc);
    for atom in 0..width {
        ranks.push((often.atom(atom) as u64) << 32)?;
    }
    Ok(ranks)
}

/// Counts the atoms that the literals need.
fn count_required(literals: &[NumberedLiteral], ranks: &mut [u64])
    requires { All (λ l. l.atom < length ranks.old) (map numbered_of literals.now) }
    ensures { length ranks.new ≡ length ranks.old }
{
    for literal in literals {
        let atom = literal.atom as usize;
        ranks[atom] = ranks[atom].saturating_add(literal.value as u64);
    }
}

/// The atom of the least rank among those that the literals need.
fn rarest(literals: &[NumberedLiteral], ranks: &[u64]) -> Option<u32>
    requires { All (λ l. l.atom < length ranks.now) (map numbered_of literals.now) }
    ensures { IfSome result (IsWatchable (length ranks.now) (map numbered_of literals.now)) }
{
    let mut watched = None;
    for literal in literals {
        watched = rarer(watched, literal, ranks);
    }
    watched
}

/// The literal's atom, if the literal needs it to be true and its rank is less than the other one's; otherwise the other one.
fn rarer(other: Option<u32>, literal: &NumberedLiteral, ranks: &[u64]) -> Option<u32>
    requires within { literal.now.atom < length ranks.now }
    requires other { IfSome other (λ atom. atom < length ranks.now) }
    ensures { IsEither other (numbered_of literal.now) result }
{
    if literal.value && is_rarer(literal.atom, other, ranks) {
        return Some(literal.atom);
    }
    other
}

/// Whether the atom's rank is less than the other one's, if there is another.
fn is_rarer(atom: u32, other: Option<u32>, ranks: &[u64]) -> bool
    requires within { atom < length ranks.now }
    requires other { IfSome other (λ atom. atom < length ranks.now) }
{
    match other {
        Some(other) => ranks[atom as usize] < ranks[other as usize],
        None => true,
    }
}

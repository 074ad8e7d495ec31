//! Lists of numbers by place.
ghost use Rattle.std.specs.Prelude.{◌≡◌, ℕ, ◌<◌, ◌++◌, ◌∷◌, [], ◌==◌, ◌&&◌, true, All, if◌then◌else◌, IfOk, OnOk, length};
ghost use Rattle.packed_state.specs.Sets.{has};
ghost use Rattle.packed_state.specs.Packed.{bits_of};
ghost use Rattle.lower_bounds.specs.TableFunctions.{is_among};
ghost use Rattle.table_rows.specs.Lists.{place_count, list_at, IsFiled, IsFiledAt};

use faults::NoMemory;
use packed_state::Packed;
use std::alloc::Global;

/// A list of numbers for each place below a width.
#[derive(Drop)]
pub struct Lists {
    pub(crate) lists: Vec<Vec<u32>>,
}

impl Lists {
    /// Empty lists for the places below `width`.
    ///
    /// # Errors
    /// An allocation failed.
    pub fn empty(alloc: Global, width: u32) -> Result<Lists, NoMemory>
        ensures width { IfOk result (λ l. place_count l ≡ width) }
        ensures empty { IfOk result (λ l. (place : ℕ) → list_at l place ≡ []) }
    {
        let mut lists = Vec::new(alloc);
        for _ in 0..width {
            lists.push(Vec::new(alloc))?;
        }
        Ok(Lists { lists })
    }

    /// Appends the number to the list of this place, which is below the width.
    ///
    /// # Errors
    /// An allocation failed.
    pub fn push(&mut self, place: u32, number: u32) -> Result<(), NoMemory>
        requires { place < place_count self.old }
        ensures width { OnOk result (place_count self.new ≡ place_count self.old) }
        ensures lists { OnOk result ((k : ℕ) → list_at self.new k ≡ (if k == place then list_at self.old k ++ number ∷ [] else list_at self.old k)) }
    {
        self.lists[place as usize].push(number)?;
        Ok(())
    }

    /// Appends the number to the list of each place in the set.
    pub(crate) fn file(&mut self, set: &Packed, number: u32) -> Result<(), NoMemory>
        requires { length self.old.lists.items ≡ length (bits_of set.now) }
        ensures { OnOk result (IsFiled (bits_of set.now) number self.old self.new) }
    {
        for place in 0..set.width() {
            self.file_at(set, place, number)?;
        }
        Ok(())
    }

    /// Appends the number to the list of this place, if the set has the place.
    fn file_at(&mut self, set: &Packed, place: u32, number: u32) -> Result<(), NoMemory>
        requires width { length self.old.lists.items ≡ length (bits_of set.now) }
        requires within { place < length (bits_of set.now) }
        ensures width { OnOk result (length self.new.lists.items ≡ length self.old.lists.items) }
        ensures lists { OnOk result ((k : ℕ) → list_at self.new k ≡ (if k == place && has (bits_of set.now) place then list_at self.old k ++ number ∷ [] else list_at self.old k)) }
    {
        if !set.has(place) {
            return Ok(());
        }
        self.push(place, number)?;
        Ok(())
    }

    /// Appends the number to the list of each of these places.
    ///
    /// # Errors
    /// An allocation failed.
    pub fn file_at_all(&mut self, places: &[u32], number: u32) -> Result<(), NoMemory>
        requires { All (λ place. place < place_count self.old) places.now }
        ensures { OnOk result (IsFiledAt places.now number self.old self.new) }
    {
        for place in places {
            self.push(*place, number)?;
        }
        Ok(())
    }

    /// Inserts the numbers listed at this place into the set. A place past the width has none.
    pub fn mark(&self, place: u32, set: &mut Packed)
        requires { (k : ℕ) → is_among (list_at self.now place) k ≡ true → k < length (bits_of set.old) }
        ensures width { length (bits_of set.new) ≡ length (bits_of set.old) }
        ensures kept { (k : ℕ) → has (bits_of set.old) k ≡ true → has (bits_of set.new) k ≡ true }
        ensures marked { (k : ℕ) → is_among (list_at self.now place) k ≡ true → has (bits_of set.new) k ≡ true }
    {
        for number in self.of(place) {
            set.insert(*number);
        }
    }

    /// The list of this place; empty past the width.
    pub fn of(&self, place: u32) -> &[u32]
        ensures { result.now ≡ list_at self.now place }
    {
        match self.lists.get(place as usize) {
            Some(list) => list,
            None => &[],
        }
    }
}

//! The values that are kept for found states beside the guide's, and their bases.
ghost use Rattle.std.specs.Prelude.{◌≡◌, ◌<◌, ℕ, OnOk, length};
ghost use Rattle.search.specs.OnDemand.{IsNoted, noted_at};

use crate::nodes::{Node, StateId};
use crate::on_demand::Basis;
use faults::NoMemory;
use std::alloc::Global;

/// Stands for no basis.
const NONE: u32 = 4_294_967_295;

/// What the value of a state rests on beside the guide.
#[derive(Clone, Copy)]
pub(crate) struct Rest {
    /// Where the value comes from, if it is not the guide's alone.
    pub(crate) basis: Option<Basis>,
    /// A lower bound of the state's remaining cost, 0 without a basis. It stays one where the basis is forgotten.
    pub(crate) value: u64,
}

impl Rest {
    /// Nothing beside the guide.
    pub(crate) fn none() -> Rest
        ensures { result.value ≡ 0 }
    {
        Rest {
            basis: None,
            value: 0,
        }
    }
}

/// The value that is kept for each found state beside the guide's, and its basis, by the state's place, in 12 bytes. Nothing is stored
/// past the last place that has a basis: so no bytes are taken where no value is found on demand.
pub struct Bases {
    words: Vec<u32>,
    values: Vec<u64>,
}

impl Drop for Bases {
    fn drop(self) {
        let Self {
            words: _,
            values: _,
        } = self;
    }
}

impl Bases {
    /// No state has a basis.
    pub(crate) fn new(alloc: Global) -> Bases
        ensures { (place : ℕ) → noted_at result place ≡ 0 }
    {
        Bases {
            words: Vec::new(alloc),
            values: Vec::new(alloc),
        }
    }

    /// The basis of the value that is kept for the state at this place, or `None` if its value is that of the guide.
    pub fn at(&self, place: u32) -> Option<Basis> {
        match self.words.get(place as usize) {
            Some(word) => basis_in(*word),
            None => None,
        }
    }

    /// What the value of the state at this place rests on beside the guide.
    pub(crate) fn rest_at(&self, place: u32) -> Rest
        ensures { result.value ≡ noted_at self.now place }
    {
        Rest {
            basis: self.at(place),
            value: self.value_at(place),
        }
    }

    /// The value that is kept for the state at this place, 0 if none is.
    fn value_at(&self, place: u32) -> u64
        ensures { result ≡ noted_at self.now place }
    {
        let place = place as usize;
        if place >= self.values.len() {
            return 0;
        }
        self.values[place]
    }

    /// Sets what the value of the state at this place rests on. The basis 2^32 - 1 stands for none.
    ///
    /// # Errors
    /// Memory is refused.
    pub(crate) fn set(&mut self, id: StateId, rest: Rest) -> Result<(), NoMemory>
        ensures { OnOk result (IsNoted self.old self.new id.0 rest.value) }
    {
        let place = id.0 as usize;
        if rest.value == 0 && rest.basis.is_none() && place >= self.values.len() {
            return Ok(());
        }
        self.extend_to(id)?;
        self.words[place] = match rest.basis {
            Some(basis) => basis.0,
            None => NONE,
        };
        self.values[place] = rest.value;
        Ok(())
    }

    /// Makes room for the state at this place.
    fn extend_to(&mut self, id: StateId) -> Result<(), NoMemory>
        ensures words { OnOk result (id.0 < length self.new.words.items) }
        ensures values { OnOk result (id.0 < length self.new.values.items) }
        ensures noted { OnOk result ((place : ℕ) → noted_at self.new place ≡ noted_at self.old place) }
    {
        'words: while self.words.len() <= id.0 as usize {
            self.words.push(NONE)?;
        }
        'values: while self.values.len() <= id.0 as usize {
            self.values.push(0)?;
        }
        Ok(())
    }

    /// For each basis, by its number, whether a state has its value from it that waits or is dead. No state has one from those past the
    /// end. This is a hint for what may be forgotten: nothing is promised of it.
    ///
    /// # Errors
    /// Memory is refused.
    pub(crate) fn used(&self, alloc: Global, nodes: &[Node]) -> Result<Vec<bool>, NoMemory> {
        let mut used = Vec::new(alloc);
        for place in 0..nodes.len().min(self.words.len()) {
            if !nodes[place].is_expanded() {
                mark(&mut used, basis_in(self.words[place]))?;
            }
        }
        Ok(used)
    }
}

/// The basis that the word stands for, if there is one.
fn basis_in(word: u32) -> Option<Basis> {
    if word == NONE {
        return None;
    }
    Some(Basis(word))
}

/// Marks the number of this basis, if there is one.
fn mark(used: &mut Vec<bool>, basis: Option<Basis>) -> Result<(), NoMemory> {
    let Some(basis) = basis else {
        return Ok(());
    };
    let number = basis.0 as usize;
    'numbers: while used.len() <= number {
        used.push(false)?;
    }
    used[number] = true;
    Ok(())
}

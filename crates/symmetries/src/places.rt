//! An index from objects to the list entries that name them.
ghost use Rattle.std.specs.Prelude.{◌≡◌, ℕ, ◌<◌, ◌++◌, ◌∷◌, [], ◌==◌, if◌then◌else◌, length, map, slice_get, IfOk, OnOk};
ghost use Rattle.std.specs.Option.{option_map};
ghost use Rattle.task.specs.TaskParts.{atom_of, object_of, value_of};
ghost use Rattle.symmetries.specs.Lent.{formulas_lent};
ghost use Rattle.symmetries.specs.PlacesByObject.{Covers, Indexes, IsAdded, IsAddedAt, functions_of, row_of};

use crate::named::named_in_formula;
use faults::NoMemory;
use indexmap::IndexMap;
use std::alloc::Global;
use task::{Atom, Formula, ObjectId};

/// For each object, by number, the indices of the entries that name it.
#[derive(Drop)]
pub(crate) struct PlacesByObject {
    alloc: Global,
    rows: Vec<Vec<usize>>,
}

impl PlacesByObject {
    /// The index of the atoms.
    pub(crate) fn of_atoms(alloc: Global, atoms: &[Atom]) -> Result<PlacesByObject, NoMemory>
        ensures { IfOk result (Covers (map atom_of atoms.now)) }
    {
        let mut places = PlacesByObject::none(alloc);
        for place in 0..atoms.len() {
            places.add(atoms[place].objects.as_slice(), place)?;
        }
        Ok(places)
    }

    /// The index of the functions that have values.
    pub(crate) fn of_functions(
        alloc: Global,
        values: &IndexMap<Atom, u32>,
    ) -> Result<PlacesByObject, NoMemory>
        ensures { IfOk result (Covers (functions_of (map value_of values.now.entries))) }
    {
        let mut places = PlacesByObject::none(alloc);
        for place in 0..values.len() {
            places.add_function(values, place)?;
        }
        Ok(places)
    }

    /// The index of the formulas.
    pub(crate) fn of_formulas(
        alloc: Global,
        formulas: &[&Formula],
    ) -> Result<PlacesByObject, NoMemory>
        ensures { IfOk result (Indexes (formulas_lent formulas.now)) }
    {
        let mut places = PlacesByObject::none(alloc);
        for place in 0..formulas.len() {
            let named = named_in_formula(alloc, formulas[place])?;
            places.add(&named, place)?;
        }
        Ok(places)
    }

    /// Enters the function at this index, if there is one.
    fn add_function(&mut self, values: &IndexMap<Atom, u32>, place: usize) -> Result<(), NoMemory>
        ensures { OnOk result (IsAddedAt (functions_of (map value_of values.now.entries)) place self.old self.new) }
    {
        match function_at(values, place) {
            Some(function) => self.add(function.objects.as_slice(), place),
            None => Ok(()),
        }
    }

    /// An empty index.
    fn none(alloc: Global) -> PlacesByObject
        ensures { (o : ℕ) → row_of result o ≡ [] }
    {
        PlacesByObject {
            alloc,
            rows: Vec::new(alloc),
        }
    }

    /// The indices of the entries that name the object.
    pub(crate) fn of(&self, object: ObjectId) -> &[usize]
        ensures { result.now ≡ row_of self.now object.0 }
    {
        match self.rows.get(object.0 as usize) {
            Some(row) => row.as_slice(),
            None => &[],
        }
    }

    /// Enters that the entry at this index names these objects.
    fn add(&mut self, objects: &[ObjectId], place: usize) -> Result<(), NoMemory>
        ensures { OnOk result (IsAdded place (map object_of objects.now) self.old self.new) }
    {
        for object in objects {
            self.grow(*object)?;
            self.push(*object, place)?;
        }
        Ok(())
    }

    /// Ensures that the object has a row.
    fn grow(&mut self, object: ObjectId) -> Result<(), NoMemory>
        ensures within { OnOk result (object.0 < length self.new.rows.items) }
        ensures rows { OnOk result ((o : ℕ) → row_of self.new o ≡ row_of self.old o) }
    {
        'rows: while self.rows.len() <= object.0 as usize {
            self.rows.push(Vec::new(self.alloc))?;
        }
        Ok(())
    }

    /// Adds the index to the object's row.
    fn push(&mut self, object: ObjectId, place: usize) -> Result<(), NoMemory>
        requires { object.0 < length self.old.rows.items }
        ensures { OnOk result ((o : ℕ) → row_of self.new o ≡ (if o == object.0 then row_of self.old o ++ place ∷ [] else row_of self.old o)) }
    {
        self.rows[object.0 as usize].push(place)?;
        Ok(())
    }
}

/// The function at this index, if there is one.
fn function_at(values: &IndexMap<Atom, u32>, place: usize) -> Option<&Atom>
    ensures { option_map (λ function. atom_of function.now) result ≡ slice_get (functions_of (map value_of values.now.entries)) place }
{
    let (function, _) = values.get_index(place)?;
    Some(function)
}

//! Where atoms occur in the scopes of tables.
ghost use Rattle.std.specs.Prelude.{◌≡◌, ℕ, ◌<◌, ◌^◌, ◌++◌, ◌∷◌, [], ◌==◌, All, List, if◌then◌else◌, IfOk, IsTrue, OnOk, length, map};
ghost use Rattle.lower_bounds.specs.TableLaws.{are_over};
ghost use Rattle.table_rows.specs.Losses.{indexed_of};
ghost use Rattle.tables.specs.ScopePlaces.{places_of, scopes_of, AreScopePlaces};

use faults::NoMemory;
use std::alloc::Global;
use table_rows::IndexedTable;

/// An index in the scope of a table.
#[derive(Clone, Copy, Debug)]
pub(crate) struct ScopePlace {
    /// The table's number, from 0.
    pub(crate) table: u32,
    /// The index in its scope.
    pub(crate) place: u32,
}

/// For each atom where it occurs in scopes.
#[derive(Drop)]
pub(crate) struct ScopePlaces {
    pub(crate) lists: Vec<Vec<ScopePlace>>,
}

impl ScopePlaces {
    /// Lists the scopes of these tables over `width` atoms.
    ///
    /// # Errors
    /// Where memory is refused.
    pub(crate) fn new(
        alloc: Global,
        width: u32,
        tables: &[IndexedTable<'_>],
    ) -> Result<ScopePlaces, NoMemory>
        requires few { length tables.now < 2 ^ 24 }
        requires scopes { IsTrue (are_over width (map indexed_of tables.now)) }
        ensures { IfOk result (AreScopePlaces (scopes_of (map indexed_of tables.now))) }
    {
        let mut places = ScopePlaces::empty(alloc, width)?;
        for number in 0..tables.len() {
            places.push_scope(number as u32, tables[number].table().scope())?;
        }
        Ok(places)
    }

    /// No scopes, over `width` atoms.
    fn empty(alloc: Global, width: u32) -> Result<ScopePlaces, NoMemory>
        ensures width { IfOk result (λ l. length l.lists.items ≡ width) }
        ensures empty { IfOk result (λ l. (atom : ℕ) → places_of l atom ≡ []) }
    {
        let mut lists = Vec::new(alloc);
        for _ in 0..width {
            lists.push(Vec::new(alloc))?;
        }
        Ok(ScopePlaces { lists })
    }

    /// Adds the scope of the next table.
    fn push_scope(&mut self, table: u32, scope: &[u32]) -> Result<(), NoMemory>
        requires few { length scope.now < 2 ^ 32 }
        requires within { All (λ atom. atom < length self.old.lists.items) scope.now }
        ensures width { OnOk result (length self.new.lists.items ≡ length self.old.lists.items) }
        ensures places { OnOk result ((scopes : List (List ℕ)) → table ≡ length scopes → AreScopePlaces scopes self.old → AreScopePlaces (scopes ++ scope.now ∷ []) self.new) }
    {
        for place in 0..scope.len() {
            let at = ScopePlace {
                table,
                place: place as u32,
            };
            self.push(scope[place], at)?;
        }
        Ok(())
    }

    /// Adds one occurrence of the atom.
    fn push(&mut self, atom: u32, at: ScopePlace) -> Result<(), NoMemory>
        requires { atom < length self.old.lists.items }
        ensures width { OnOk result (length self.new.lists.items ≡ length self.old.lists.items) }
        ensures places { OnOk result ((k : ℕ) → places_of self.new k ≡ (if k == atom then places_of self.old k ++ at ∷ [] else places_of self.old k)) }
    {
        self.lists[atom as usize].push(at)?;
        Ok(())
    }

    /// The occurrences of this atom.
    pub(crate) fn of(&self, atom: u32) -> &[ScopePlace]
        ensures { result.now ≡ places_of self.now atom }
    {
        match self.lists.get(atom as usize) {
            Some(list) => list,
            None => &[],
        }
    }
}

//! Upper bounds of what instances lose by all tables, one table after another: its rows stay in the cache while instances go by.
ghost use Rattle.std.specs.Prelude.{◌≡◌, ◌+◌, ◌<◌, ◌≤◌, ◌^◌, IfOk, OnOk, length};
ghost use Rattle.grounding.specs.Ground.{task_in, atoms_in};
ghost use Rattle.model.specs.StaticallyFalse.{kept_instances};
ghost use Rattle.tables.specs.AllTables.{tables_of, count_of};
ghost use Rattle.tables.specs.TotalLosses.{BeginsAs, IsKnownAfter, AreKnownAfter, AreFrom, numbers_of};
ghost use Rattle.tables.specs.declared.losses.Standing.TheVariants.{Stays};

use crate::fairness::is_instance_shut_out;
use crate::row_sums::add_each;
use crate::tables::IndexedTables;
use faults::NoMemory;
use grounding::Ground;
use packed_state::Packed;
use std::alloc::Global;

/// What some tables say about an instance.
#[derive(Clone, Copy, Debug, PartialEq, Eq)]
pub(crate) enum Standing {
    /// It is shut out, by all tables.
    ShutOut,
    /// It is not, and leads from a row of a table that agrees to a set that is no row.
    LeadsOut,
    /// Neither: it leads from rows to rows.
    Stays,
}

/// What an instance loses at most by some tables.
pub(crate) struct Losses {
    /// The instance's number.
    pub(crate) number: u32,
    /// What these tables say about it.
    pub(crate) standing: Standing,
    /// The tables that may have an atom of its changes in their scope.
    named: Packed,
    /// If it stays: the most that it may lose by these tables, by the weights at each place, which may be negative.
    pub(crate) total: Vec<i64>,
    /// Scratch for the most that it may lose by one of them.
    by_table: Vec<i64>,
}

impl Drop for Losses {
    fn drop(self) {
        let Self {
            number: _,
            standing: _,
            named: _,
            total: _,
            by_table: _,
        } = self;
    }
}

impl IndexedTables<'_> {
    /// What the instances lose by all tables whose numbers are `first` and the next ones, `count` in all.
    ///
    /// # Errors
    /// An allocation failed.
    pub(crate) fn losses(
        &self,
        alloc: Global,
        ground: &Ground<'_>,
        first: u32,
        count: u32,
    ) -> Result<Vec<Losses>, NoMemory>
        requires within { first + count ≤ length (kept_instances (task_in ground.now)) }
        requires few { first + count < 2 ^ 32 }
        ensures long { IfOk result (λ all. length all.items ≡ count) }
        ensures numbers { IfOk result (λ all. AreFrom first (numbers_of all.items)) }
        ensures known { IfOk result (λ all. AreKnownAfter self.now (task_in ground.now) (atoms_in ground.now) (length (tables_of self.now)) all.items) }
    {
        let mut all = Vec::new(alloc);
        for index in 0..count {
            all.push(self.no_losses(alloc, ground, first + index)?)?;
        }
        for table in 0..self.len() {
            self.add_table(alloc, ground, table, &mut all)?;
        }
        Ok(all)
    }

    /// What the instance of this number loses by no table.
    fn no_losses(&self, alloc: Global, ground: &Ground<'_>, number: u32) -> Result<Losses, NoMemory>
        requires { number < length (kept_instances (task_in ground.now)) }
        ensures number { IfOk result (λ l. l.number ≡ number) }
        ensures known { IfOk result (IsKnownAfter self.now (task_in ground.now) (atoms_in ground.now) 0) }
    {
        let standing = self.first_standing(alloc, ground, number)?;
        let changes = ground.counting(number);
        let named = self.named_by_changes(alloc, changes)?;
        let count = self.weight_count() as usize;
        let total = vec![in alloc; 0; count]?;
        let by_table = vec![in alloc; 0; count]?;
        Ok(Losses {
            number,
            standing,
            named,
            total,
            by_table,
        })
    }

    /// The standing of the instance of this number after no table.
    fn first_standing(
        &self,
        alloc: Global,
        ground: &Ground<'_>,
        number: u32,
    ) -> Result<Standing, NoMemory>
        requires { number < length (kept_instances (task_in ground.now)) }
        ensures { IfOk result (BeginsAs (task_in ground.now) (atoms_in ground.now) (tables_of self.now) number) }
    {
        if is_instance_shut_out(alloc, ground, self, number)? {
            Ok(Standing::ShutOut)
        } else {
            Ok(Standing::Stays)
        }
    }

    /// Adds what each of the instances loses by the table at this place.
    fn add_table(
        &self,
        alloc: Global,
        ground: &Ground<'_>,
        table: usize,
        all: &mut Vec<Losses>,
    ) -> Result<(), NoMemory>
        requires table { table < length (tables_of self.now) }
        requires known { AreKnownAfter self.now (task_in ground.now) (atoms_in ground.now) table all.old.items }
        ensures long { OnOk result (length all.new.items ≡ length all.old.items) }
        ensures numbers { OnOk result (numbers_of all.new.items ≡ numbers_of all.old.items) }
        ensures known { OnOk result (AreKnownAfter self.now (task_in ground.now) (atoms_in ground.now) (table + 1) all.new.items) }
    {
        for index in 0..all.len() {
            self.add_lost(alloc, ground, table, &mut all[index])?;
        }
        Ok(())
    }

    /// Adds what the instance loses by the table at this place.
    fn add_lost(
        &self,
        alloc: Global,
        ground: &Ground<'_>,
        table: usize,
        losses: &mut Losses,
    ) -> Result<(), NoMemory>
        requires table { table < length (tables_of self.now) }
        requires known { IsKnownAfter self.now (task_in ground.now) (atoms_in ground.now) table losses.old }
        ensures number { OnOk result (losses.new.number ≡ losses.old.number) }
        ensures known { OnOk result (IsKnownAfter self.now (task_in ground.now) (atoms_in ground.now) (table + 1) losses.new) }
    {
        match losses.standing {
            Standing::ShutOut => Ok(()),
            Standing::LeadsOut => Ok(()),
            Standing::Stays => self.add_if_named(alloc, ground, table, losses),
        }
    }

    /// The same for an instance that stays.
    fn add_if_named(
        &self,
        alloc: Global,
        ground: &Ground<'_>,
        table: usize,
        losses: &mut Losses,
    ) -> Result<(), NoMemory>
        requires table { table < length (tables_of self.now) }
        requires stays { losses.old.standing ≡ Stays }
        requires known { IsKnownAfter self.now (task_in ground.now) (atoms_in ground.now) table losses.old }
        ensures number { OnOk result (losses.new.number ≡ losses.old.number) }
        ensures known { OnOk result (IsKnownAfter self.now (task_in ground.now) (atoms_in ground.now) (table + 1) losses.new) }
    {
        if !losses.named.has(table as u32) {
            return Ok(());
        }
        let literals = ground.literals(losses.number);
        let changes = ground.counting(losses.number);
        let indexed = &self.tables()[table];
        if !indexed.loses_by_each(alloc, literals, changes, &mut losses.by_table)? {
            losses.standing = Standing::LeadsOut;
            return Ok(());
        }
        add_each(&mut losses.total, &losses.by_table);
        Ok(())
    }
}

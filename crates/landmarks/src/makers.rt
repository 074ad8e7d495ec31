//! Instances by the literals that they make true.
ghost use Rattle.std.specs.Prelude.{◌≡◌, ℕ, ◌<◌, ◌∷◌, [], All, Bool, IfOk, OnOk, length, map};
ghost use Rattle.grounding.specs.Ground.{atoms_in, task_in};
ghost use Rattle.grounding.specs.Changes.{conditional_of, counting_of};
ghost use Rattle.model.specs.NumberedLiterals as numbered;
ghost use Rattle.model.specs.StaticallyFalse.{kept_instances};
ghost use Rattle.table_rows.specs.Lists.{place_count};
ghost use Rattle.landmarks.specs.Makers.{AreFiled, AreMakers, row_for};

use faults::NoMemory;
use grounding::{CountingChange, Ground};
use std::alloc::Global;
use table_rows::Lists;

/// For each literal of a numbered atom, the instances with a change that makes it true.
#[derive(Drop)]
pub(crate) struct Makers {
    /// Those that add the atom.
    pub(crate) adding: Lists,
    /// Those that delete it.
    pub(crate) deleting: Lists,
}

impl Makers {
    /// Those of the kept instances with these numbers.
    pub(crate) fn new(alloc: Global, ground: &Ground<'_>, asked: &[u32]) -> Result<Makers, NoMemory>
        requires { All (λ number. number < length (kept_instances (task_in ground.now))) asked.now }
        ensures { IfOk result (AreMakers (task_in ground.now) (atoms_in ground.now) asked.now) }
    {
        let mut makers = Makers::empty(alloc, ground.width())?;
        for number in asked {
            makers.file_all(*number, ground.counting(*number))?;
        }
        Ok(makers)
    }

    /// No instances, for the atoms below `width`.
    fn empty(alloc: Global, width: u32) -> Result<Makers, NoMemory>
        ensures adding { IfOk result (λ m. place_count m.adding ≡ width) }
        ensures deleting { IfOk result (λ m. place_count m.deleting ≡ width) }
        ensures none { IfOk result (λ m. (atom : ℕ) (value : Bool) → row_for m atom value ≡ []) }
    {
        let adding = Lists::empty(alloc, width)?;
        let deleting = Lists::empty(alloc, width)?;
        Ok(Makers { adding, deleting })
    }

    /// Appends the instance with this number to the rows of the literals that these changes make true.
    fn file_all(&mut self, number: u32, changes: &[CountingChange<'_>]) -> Result<(), NoMemory>
        requires adding { All (λ (c : numbered.NumberedChange). c.atom < place_count self.old.adding) (map counting_of changes.now) }
        requires deleting { All (λ (c : numbered.NumberedChange). c.atom < place_count self.old.deleting) (map counting_of changes.now) }
        ensures { OnOk result (AreFiled number (map conditional_of changes.now) self.old self.new) }
    {
        for change in changes {
            self.file(number, change)?;
        }
        Ok(())
    }

    /// Appends the instance with this number to the row of the literal that the change makes true.
    fn file(&mut self, number: u32, change: &CountingChange<'_>) -> Result<(), NoMemory>
        requires adding { change.now.atom < place_count self.old.adding }
        requires deleting { change.now.atom < place_count self.old.deleting }
        ensures { OnOk result (AreFiled number (conditional_of change.now ∷ []) self.old self.new) }
    {
        if change.value {
            return self.adding.push(change.atom, number);
        }
        self.deleting.push(change.atom, number)
    }
}

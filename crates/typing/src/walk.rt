//! What a walk over the trees collects: the faults found so far.
ghost use Rattle.std.specs.Prelude.{◌≡◌, ◌≤◌, [], if◌then◌else◌, IfErr, IfOk, OnOk};
ghost use Rattle.std.specs.Vec.{vec_capacity};
ghost use Rattle.typing.specs.declared.walk.TheConstants.{MAX_LISTED};
ghost use Rattle.pddl_tree.specs.Tree.{name_of};
ghost use Rattle.model.specs.Typing.{folded, refused_word};

use crate::fault::{PairFault, PairRefusal, TaskRefusal, precedes};
use faults::{Code, NoMemory, RefusalIn, Refused};
use pddl_tree::{Name, TaskFile};
use std::alloc::Global;

/// The maximum number of faults that are listed.
pub const MAX_LISTED: usize = 1000;

/// The faults found so far.
pub struct FoundFaults {
    /// The least one, if any.
    least: Option<TaskRefusal>,
    /// The first [`MAX_LISTED`], in the order in which they were found. The room is reserved, so that recording a fault needs no
    /// memory.
    listed: Vec<TaskRefusal>,
    ghost room: { MAX_LISTED ≤ vec_capacity listed },
}

impl Drop for FoundFaults {
    fn drop(self) {
        let Self {
            least: _,
            listed: _,
        } = self;
    }
}

impl FoundFaults {
    ghost use Rattle.std.specs.Prelude.{map, None};
    ghost use Rattle.std.specs.Option.{option_map};
    ghost use Rattle.typing.specs.Refusals.{refusal_of};
    ghost use Rattle.typing.specs.Walk.{ReportsFound, earlier, found_in, nothing, with_fault, with_listed};

    /// No faults.
    fn none(alloc: Global) -> Result<FoundFaults, NoMemory>
        ensures { IfOk result (λ found. found_in found ≡ nothing) }
    {
        Ok(FoundFaults {
            least: None,
            listed: Vec::with_capacity(alloc, MAX_LISTED)?,
        })
    }

    /// Records a fault.
    fn add(&mut self, fault: TaskRefusal)
        ensures { found_in self.new ≡ with_fault (found_in self.old) (refusal_of fault) }
    {
        self.list(fault);
        self.keep_least(fault);
    }

    /// Lists the fault, if the limit is not reached.
    fn list(&mut self, fault: TaskRefusal)
        ensures listed { map refusal_of self.new.listed.items ≡ with_listed (map refusal_of self.old.listed.items) (refusal_of fault) }
        ensures least { self.new.least ≡ self.old.least }
    {
        if self.listed.len() >= MAX_LISTED {
            return;
        }
        self.listed.push_reserved(fault);
    }

    /// Keeps the fault if it is the least one.
    fn keep_least(&mut self, fault: TaskRefusal)
        ensures least { option_map refusal_of self.new.least ≡ earlier (option_map refusal_of self.old.least) (refusal_of fault) }
        ensures listed { self.new.listed ≡ self.old.listed }
    {
        match self.least {
            Some(least) => {
                if precedes(&fault, &least) {
                    self.least = Some(fault);
                }
            }
            None => self.least = Some(fault),
        }
    }

    /// `made` if no fault was found, and the faults otherwise.
    fn end<T: Drop>(self, made: T) -> Result<T, PairFault>
        ensures none { IfOk result (λ t. (t ≡ made) × ((found_in self).least ≡ None)) }
        ensures some { IfErr result (ReportsFound (found_in self)) }
    {
        let Self { least, listed } = self;
        match least {
            None => Ok(made),
            Some(first) => Err(Refused::At(PairRefusal { first, listed })),
        }
    }
}

/// What a walk over the trees carries along: the faults found so far, and a buffer for a name in lower case.
pub struct Walk {
    /// The allocator.
    pub alloc: Global,
    /// The faults found so far.
    found: FoundFaults,
    /// A buffer for a name in lower case.
    pub folded: Vec<u8>,
}

impl Drop for Walk {
    fn drop(self) {
        let Self {
            alloc: _,
            found: _,
            folded: _,
        } = self;
    }
}

/// Writes the name in lower case into the buffer.
pub(crate) fn fold(room: &mut Vec<u8>, name: &Name<'_>) -> Result<(), NoMemory>
    ensures { OnOk result (room.new.items ≡ folded (name_of name.now)) }
{
    room.clear();
    room.extend_from_slice(name.text)?;
    room.make_ascii_lowercase();
    Ok(())
}

impl Walk {
    ghost use Rattle.std.specs.Prelude.{None};
    ghost use Rattle.typing.specs.Walk.{ReportsFound, found, found_by, nothing};
    ghost use Rattle.pddl_tree.specs.Tree.{file_of};
    ghost use Rattle.faults.specs.Fault.{number_of};

    /// A walk that has found no fault yet.
    pub fn new(alloc: Global) -> Result<Walk, NoMemory>
        ensures { IfOk result (λ walk. found_by walk ≡ nothing) }
    {
        Ok(Walk {
            alloc,
            found: FoundFaults::none(alloc)?,
            folded: Vec::new(alloc),
        })
    }

    /// Records that the word is refused with this code.
    pub fn refuse(&mut self, file: TaskFile, code: Code, word: &Name<'_>)
        ensures { found_by self.new ≡ found (found_by self.old) (refused_word (file_of file) (number_of code) (name_of word.now)) }
    {
        self.found.add(RefusalIn {
            file,
            code,
            span: word.span,
        });
    }

    /// Writes the name in lower case into `folded`.
    pub fn fold(&mut self, name: &Name<'_>) -> Result<(), NoMemory>
        ensures folded { OnOk result (self.new.folded.items ≡ folded (name_of name.now)) }
        ensures found { self.new.found ≡ self.old.found }
    {
        fold(&mut self.folded, name)
    }

    /// Ends the walk: returns `made` if no fault was found.
    ///
    /// # Errors
    /// The faults, if any were found.
    pub fn finish<T: Drop>(self, made: T) -> Result<T, PairFault>
        ensures none { IfOk result (λ t. (t ≡ made) × ((found_by self).least ≡ None)) }
        ensures some { IfErr result (ReportsFound (found_by self)) }
    {
        let Self {
            alloc: _,
            found,
            folded: _,
        } = self;
        found.end(made)
    }
}

//! Memory for drafts, which go on where a growth is refused.
ghost use Rattle.std.specs.Prelude.{◌≡◌, ◌≤◌, ◌+◌, [], length, IfOk};

use crate::refused::NoMemory;
use std::alloc::Global;
use std::cell::Cell;

/// Memory for a draft. It remembers a refused growth, and the draft goes on with what it has. Drafts are tested before they are used, so
/// only the caller at the top has to know (compare SQLite's `mallocFailed`). It asks once, at the end, by `finish`.
#[derive(Drop)]
pub struct DraftMemory {
    alloc: Global,
    is_refused: Cell<bool>,
}

impl DraftMemory {
    /// Nothing has been refused yet.
    pub fn new(alloc: Global) -> DraftMemory {
        DraftMemory {
            alloc,
            is_refused: Cell::new(false),
        }
    }

    /// The allocator of the lists.
    pub fn alloc(&self) -> Global {
        self.alloc
    }

    /// An empty list.
    pub fn list<T>(&self) -> Vec<T>
        ensures items { result.items ≡ [] }
    {
        Vec::new(self.alloc)
    }

    /// A list of `count` copies of the item; an empty one where memory is refused.
    pub fn filled<T: Copy>(&self, item: T, count: usize) -> Vec<T> {
        self.kept(Vec::from_elem(self.alloc, item, count))
            .unwrap_or(Vec::new(self.alloc))
    }

    /// A list of these items; an empty one where memory is refused.
    pub fn copied<T: Copy>(&self, items: &[T]) -> Vec<T> {
        match Vec::from_slice(self.alloc, items) {
            Ok(list) => list,
            Err(_) => {
                self.is_refused.set(true);
                Vec::new(self.alloc)
            }
        }
    }

    /// Appends the item; lets it go where memory is refused.
    pub fn push<T: Drop>(&self, list: &mut Vec<T>, item: T)
        ensures rises { length list.old.items ≤ length list.new.items }
        ensures by_one { length list.new.items ≤ length list.old.items + 1 }
    {
        if list.push(item).is_err() {
            self.is_refused.set(true);
        }
    }

    /// What a call gives, if its memory was not refused.
    pub fn kept<T, E: Drop>(&self, growth: Result<T, E>) -> Option<T> {
        match growth {
            Ok(it) => Some(it),
            Err(_) => {
                self.is_refused.set(true);
                None
            }
        }
    }

    /// Whether a growth has been refused.
    pub fn is_refused(&self) -> bool {
        self.is_refused.get()
    }

    /// What was drafted.
    ///
    /// # Errors
    /// A growth was refused since the beginning.
    pub fn finish<T: Drop>(&self, drafted: T) -> Result<T, NoMemory>
        ensures { IfOk result (λ it. it ≡ drafted) }
    {
        if self.is_refused.get() {
            return Err(NoMemory);
        }
        Ok(drafted)
    }
}

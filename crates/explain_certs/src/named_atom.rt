//! The atoms of a certificate's text.
use crate::numbers::word_at;
use arrayvec::ArrayVec;
use faults::NoMemory;
use indexmap::IndexSet;
use std::alloc::Global;
use task::{Atom, Task};

/// The atoms of a text, each at the index of its number. `None` if the text has exchanges of objects, or a line with an atom that is
/// none of the task.
///
/// # Errors
/// An allocation failed.
pub(crate) fn atoms_of(
    alloc: Global,
    task: &Task,
    text: &[u8],
) -> Result<Option<IndexSet<Atom>>, NoMemory> {
    let mut atoms = IndexSet::new(alloc);
    for line in text.split(|byte| *byte == b'\n') {
        match word_at(line, 0) {
            b"swap" => return Ok(None),
            b"atom" => match atom_in(task, line) {
                Some(atom) => {
                    atoms.insert(atom)?;
                }
                None => return Ok(None),
            },
            _ => {}
        }
    }
    Ok(Some(atoms))
}

/// The atom of a line; `None` if the task has no predicate or no object of one of its names.
fn atom_in(task: &Task, line: &[u8]) -> Option<Atom> {
    let names = between_parentheses(line);
    let predicate = task.predicate_named(word_at(names, 0))?;
    let mut objects = ArrayVec::new();
    for name in names.split(|byte| *byte == b' ').skip(1) {
        let Some(object) = task.object_named(name) else {
            return None;
        };
        if objects.try_push(object).is_err() {
            return None;
        }
    }
    Some(Atom { predicate, objects })
}

/// A name in an atom that the task lacks.
#[derive(Clone, Copy)]
pub(crate) enum UnknownName<'a> {
    /// That of the predicate.
    Predicate(&'a [u8]),
    /// That of an object.
    Object(&'a [u8]),
}

/// The first name in the atom of a line that the task lacks; `None` if it has them all.
pub(crate) fn unknown_in<'a>(task: &Task, line: &'a [u8]) -> Option<UnknownName<'a>> {
    let names = between_parentheses(line);
    let predicate = word_at(names, 0);
    if task.predicate_named(predicate).is_none() {
        return Some(UnknownName::Predicate(predicate));
    }
    for name in names.split(|byte| *byte == b' ').skip(1) {
        if task.object_named(name).is_none() {
            return Some(UnknownName::Object(name));
        }
    }
    None
}

/// The bytes of a line between its first parenthesis and the next; empty if it has none.
fn between_parentheses(line: &[u8]) -> &[u8] {
    let mut is_inside = false;
    for piece in line.split(|byte| *byte == b'(' || *byte == b')') {
        if is_inside {
            return piece;
        }
        is_inside = true;
    }
    b""
}

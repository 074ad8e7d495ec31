//! Notes on a goal as lines of text, each without LF.
ghost use Rattle.std.specs.Prelude.{map, OnOk};
ghost use Rattle.std.specs.String.{string_bytes};
ghost use Rattle.explain_goals.specs.AddedLines.{AddsLines};

use crate::exclusive::Exclusive;
use crate::goal_notes::{GoalNotes, MOST_NOTES, Unreachable};
use explain_tasks::add_bytes;
use faults::NoMemory;
use formulas::{Atom, State};
use std::alloc::Global;
use task::{ObjectId, PredicateId, Task};

/// The maximum number of atoms, or kinds of atoms, that are named of a link.
const MOST_NAMED: usize = 3;

impl GoalNotes {
    /// Adds a line for each atom of the goal that is never true, unless it is among those already reported, one for an atom that
    /// the goal requires to be true and to be false, and one for two atoms that are never both true.
    ///
    /// # Errors
    /// An allocation failed.
    ///
    /// # Examples
    /// ```text
    /// The goal asks for (at p2 north), which can never become true: it needs (in p2 d1) or (in p2 t1); these need some (at p2 ..), all false at the start.
    /// ```
    pub fn add_lines(
        &self,
        alloc: Global,
        task: &Task,
        reported: &[Atom],
        lines: &mut Vec<String>,
    ) -> Result<(), NoMemory>
        ensures { OnOk result (AddsLines (map string_bytes lines.old.items) (map string_bytes lines.new.items)) }
    {
        let before = lines.len();
        'notes: for one in self.unreachable.iter().take(MOST_NOTES) {
            add_if_unreported(alloc, task, Unreported { one, reported }, lines)?;
        }
        let are_all = self.unreachable.len() <= MOST_NOTES || lines.len() <= before;
        if are_all {
            return self.add_conflicts(alloc, task, lines);
        }
        add_text(
            alloc,
            "The goal asks for more atoms that can never become true.",
            lines,
        )?;
        self.add_conflicts(alloc, task, lines)
    }

    /// Adds the lines for what the goal requires that excludes itself.
    fn add_conflicts(
        &self,
        alloc: Global,
        task: &Task,
        lines: &mut Vec<String>,
    ) -> Result<(), NoMemory>
        ensures { OnOk result (AddsLines (map string_bytes lines.old.items) (map string_bytes lines.new.items)) }
    {
        add_contradictory(alloc, task, &self.contradictory, lines)?;
        add_exclusive(alloc, task, &self.exclusive, lines)
    }
}

/// A note on an atom that is never true, and the atoms already reported.
#[derive(Clone, Copy)]
struct Unreported<'a> {
    one: &'a Unreachable,
    reported: &'a [Atom],
}

/// Adds the line of the note, unless its atom is already reported.
fn add_if_unreported(
    alloc: Global,
    task: &Task,
    note: Unreported<'_>,
    lines: &mut Vec<String>,
) -> Result<(), NoMemory>
    ensures { OnOk result (AddsLines (map string_bytes lines.old.items) (map string_bytes lines.new.items)) }
{
    if is_among(&note.one.atom, note.reported) {
        Ok(())
    } else {
        add_unreachable(alloc, task, note.one, lines)
    }
}

/// Adds the line.
fn add_text(alloc: Global, line: &str, lines: &mut Vec<String>) -> Result<(), NoMemory>
    ensures { OnOk result (AddsLines (map string_bytes lines.old.items) (map string_bytes lines.new.items)) }
{
    add_line(String::from_str(alloc, line)?, lines)
}

/// Adds the line.
fn add_line(line: String, lines: &mut Vec<String>) -> Result<(), NoMemory>
    ensures { OnOk result (AddsLines (map string_bytes lines.old.items) (map string_bytes lines.new.items)) }
{
    lines.push(line)?;
    Ok(())
}

/// Adds the line for an atom that the goal requires to be true and to be false.
fn add_contradictory(
    alloc: Global,
    task: &Task,
    atom: &Option<Atom>,
    lines: &mut Vec<String>,
) -> Result<(), NoMemory>
    ensures { OnOk result (AddsLines (map string_bytes lines.old.items) (map string_bytes lines.new.items)) }
{
    match atom {
        Some(atom) => add_line(contradictory_line(alloc, task, atom)?, lines),
        None => Ok(()),
    }
}

/// The line for an atom that the goal requires to be true and to be false.
fn contradictory_line(alloc: Global, task: &Task, atom: &Atom) -> Result<String, NoMemory> {
    let mut line = String::from_str(alloc, "The goal asks for ")?;
    add_pattern(task, &Pattern::of(alloc, atom)?, &mut line)?;
    line.push_str(" and for its opposite, so it can never be met.")?;
    Ok(line)
}

/// Adds the line for two atoms that are never both true.
fn add_exclusive(
    alloc: Global,
    task: &Task,
    atoms: &Option<Exclusive>,
    lines: &mut Vec<String>,
) -> Result<(), NoMemory>
    ensures { OnOk result (AddsLines (map string_bytes lines.old.items) (map string_bytes lines.new.items)) }
{
    match atoms {
        Some(atoms) => add_line(exclusive_line(alloc, task, atoms)?, lines),
        None => Ok(()),
    }
}

/// The line for two atoms that are never both true.
fn exclusive_line(alloc: Global, task: &Task, atoms: &Exclusive) -> Result<String, NoMemory> {
    let mut line = String::from_str(alloc, "The goal asks for ")?;
    add_pattern(task, &Pattern::of(alloc, &atoms.first)?, &mut line)?;
    line.push_str(" and ")?;
    add_pattern(task, &Pattern::of(alloc, &atoms.second)?, &mut line)?;
    line.push_str(", which can never both be true")?;
    if atoms.group.atoms().len() > 2 {
        line.push_str(": of the atoms ")?;
        add_group(alloc, task, &atoms.group, &mut line)?;
        line.push_str(", at most one is ever true")?;
    }
    line.push_str(".")?;
    Ok(line)
}

/// Adds the atoms of a group: each, if they are few, and otherwise by predicate.
fn add_group(alloc: Global, task: &Task, group: &State, line: &mut String) -> Result<(), NoMemory> {
    let patterns = patterns_of(alloc, group)?;
    for (place, pattern) in patterns.iter().enumerate() {
        if place > 0 {
            let is_last = place + 1 == patterns.len();
            line.push_str(if is_last { " and " } else { ", " })?;
        }
        add_atoms(task, pattern, line)?;
    }
    Ok(())
}

/// Whether the atom is among these.
fn is_among(atom: &Atom, atoms: &[Atom]) -> bool {
    atoms.iter().any(|other| other == atom)
}

/// Adds the line for an atom that is never true.
fn add_unreachable(
    alloc: Global,
    task: &Task,
    one: &Unreachable,
    lines: &mut Vec<String>,
) -> Result<(), NoMemory>
    ensures { OnOk result (AddsLines (map string_bytes lines.old.items) (map string_bytes lines.new.items)) }
{
    match one.chain.as_slice().split_first() {
        Some((_, needed)) => add_line(unreachable_line(alloc, task, one, needed)?, lines),
        None => Ok(()),
    }
}

/// The line for an atom that is never true and needs this.
fn unreachable_line(
    alloc: Global,
    task: &Task,
    one: &Unreachable,
    needed: &[State],
) -> Result<String, NoMemory> {
    let mut line = String::from_str(alloc, "The goal asks for ")?;
    add_pattern(task, &Pattern::of(alloc, &one.atom)?, &mut line)?;
    line.push_str(", which can never become true")?;
    add_needed(alloc, task, needed, &mut line)?;
    line.push_str(".")?;
    Ok(line)
}

/// Adds what is needed, link by link, and how the last one ends.
fn add_needed(
    alloc: Global,
    task: &Task,
    links: &[State],
    line: &mut String,
) -> Result<(), NoMemory> {
    let mut opening = ": it needs ";
    let mut ending = "";
    for link in links {
        match link.atoms().len() {
            0 => {
                line.push_str(ending)?;
                ending = ", and which no action can make true";
            }
            count => {
                line.push_str(opening)?;
                add_link(alloc, task, link, line)?;
                opening = if count == 1 {
                    "; that needs "
                } else {
                    "; these need "
                };
                ending = if count == 1 {
                    ", which is false at the start"
                } else {
                    ", all false at the start"
                };
            }
        }
    }
    line.push_str(ending)?;
    Ok(())
}

/// Adds the atoms of a link: each, if they are few, and otherwise by predicate.
fn add_link(alloc: Global, task: &Task, link: &State, line: &mut String) -> Result<(), NoMemory> {
    let patterns = patterns_of(alloc, link)?;
    let named = patterns.len().min(MOST_NAMED);
    for (place, pattern) in patterns.iter().take(MOST_NAMED).enumerate() {
        if place > 0 {
            let is_last = place + 1 == patterns.len();
            line.push_str(if is_last { " or " } else { ", " })?;
        }
        add_pattern(task, pattern, line)?;
    }
    if patterns.len() > named {
        line.push_str(" or others")?;
    }
    Ok(())
}

/// Atoms of one predicate: the objects that all of them have at a place.
#[derive(Drop)]
struct Pattern {
    predicate: PredicateId,
    objects: Vec<Option<ObjectId>>,
    /// The number of atoms.
    count: usize,
}

impl Pattern {
    /// The pattern of this atom alone.
    fn of(alloc: Global, atom: &Atom) -> Result<Pattern, NoMemory> {
        let mut objects = Vec::new(alloc);
        for object in atom.objects.as_slice() {
            objects.push(Some(*object))?;
        }
        Ok(Pattern {
            predicate: atom.predicate,
            objects,
            count: 1,
        })
    }

    /// Takes the atom in, if it has the predicate; whether it has.
    fn takes(&mut self, atom: &Atom) -> bool {
        if self.predicate != atom.predicate {
            return false;
        }
        for (place, object) in atom.objects.as_slice().iter().enumerate() {
            if let Some(held) = self.objects.get_mut(place) {
                if *held != Some(*object) {
                    *held = None;
                }
            }
        }
        self.count = self.count.saturating_add(1);
        true
    }
}

/// The patterns of these atoms: each alone, if they are few, and otherwise those of a predicate together.
fn patterns_of(alloc: Global, atoms: &State) -> Result<Vec<Pattern>, NoMemory> {
    let few = atoms.atoms().len() <= MOST_NAMED;
    let mut patterns: Vec<Pattern> = Vec::new(alloc);
    for atom in atoms.atoms() {
        let is_taken = !few && patterns.last_mut().is_some_and(|last| last.takes(atom));
        if !is_taken {
            patterns.push(Pattern::of(alloc, atom)?)?;
        }
    }
    Ok(patterns)
}

/// Adds the pattern as what is needed: its atom, or some of its atoms.
fn add_pattern(task: &Task, pattern: &Pattern, line: &mut String) -> Result<(), NoMemory> {
    if pattern.count > 1 {
        line.push_str("some ")?;
    }
    add_atoms(task, pattern, line)
}

/// Adds the atoms of the pattern, with `..` for what differs.
fn add_atoms(task: &Task, pattern: &Pattern, line: &mut String) -> Result<(), NoMemory> {
    line.push_str("(")?;
    add_bytes(task.name_of_predicate(pattern.predicate), line)?;
    for object in &pattern.objects {
        line.push_str(" ")?;
        match object {
            Some(object) => add_bytes(task.name_of_object(*object), line)?,
            None => line.push_str("..")?,
        }
    }
    line.push_str(")")?;
    Ok(())
}

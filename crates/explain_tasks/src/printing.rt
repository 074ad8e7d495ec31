//! Notes as lines of text, each without LF.
ghost use Rattle.std.specs.Prelude.{◌≡◌, ◌++◌, ◌∷◌, [], codes, map, IfOk, OnOk, take};
ghost use Rattle.std.specs.Fmt.{decimal};
ghost use Rattle.std.specs.List.{flat_map};
ghost use Rattle.std.specs.Str.Lossy.{utf8_lossy};
ghost use Rattle.std.specs.String.{string_bytes};
ghost use Rattle.task.specs.Task.{task_of};
ghost use Rattle.task.specs.TaskParts.{atom_of, increase_of, lifted_atom_of};
ghost use Rattle.formulas.specs.State.{instance_of};
ghost use Rattle.explain_tasks.specs.KindNames.{name_by};
ghost use Rattle.explain_tasks.specs.NoteLines as note;
ghost use Rattle.explain_tasks.specs.NoteLines.{line_if};

use crate::actions::ActionNotes;
use crate::ground_notes::{GroundNotes, MOST_NOTES};
use crate::notes::TaskNotes;
use faults::NoMemory;
use formulas::{Atom, Instance, named_by};
use std::alloc::Global;
use task::{Increase, LiftedAtom, ObjectId, PredicateId, SchemaId, Task};

impl TaskNotes {
    /// Adds a line for each note.
    ///
    /// # Errors
    /// An allocation failed.
    ///
    /// # Examples
    /// ```text
    /// Actions increase the total cost, but the problem has no `:metric`, so each step costs 1.
    /// The problem has a `:metric`, but no action increases the total cost, so every plan costs 0.
    /// Actions that do not increase the total cost, although others do: rest.
    /// Predicates that no precondition, no condition and no goal asks for: dirty.
    /// Predicates that are asked for, but that neither `:init` nor an action makes true: loaded.
    /// Predicates of `:init` that are asked for, and that actions delete but none adds: fuel.
    /// Objects that no atom of `:init`, no action and no goal names: truck3, truck4.
    /// Actions that delete and add the same atom, of which the addition counts: refuel.
    /// The goal is true at the start.
    /// ```
    pub fn add_lines(
        &self,
        alloc: Global,
        task: &Task,
        lines: &mut Vec<String>,
    ) -> Result<(), NoMemory>
        ensures { OnOk result (map string_bytes lines.new.items ≡ map string_bytes lines.old.items ++ note.task_lines (task_of task.now) self.now) }
    {
        self.add_costs(alloc, task, lines)?;
        self.add_predicates(alloc, task, lines)?;
        let unnamed = NameList {
            opening: "Objects that no atom of `:init`, no action and no goal names: ",
            kind: Kind::Object,
            numbers: &self.unnamed_objects,
        };
        unnamed.add(alloc, task, lines)?;
        self.actions.add_lines(alloc, task, lines)?;
        self.add_goal(alloc, lines)
    }

    /// Adds the lines about costs.
    fn add_costs(&self, alloc: Global, task: &Task, lines: &mut Vec<String>) -> Result<(), NoMemory>
        ensures { OnOk result (map string_bytes lines.new.items ≡ map string_bytes lines.old.items ++ note.cost_lines (task_of task.now) self.now) }
    {
        let ignored =
            "Actions increase the total cost, but the problem has no `:metric`, so each step costs 1.";
        add_text_if(alloc, self.ignores_costs, ignored, lines)?;
        let lacking =
            "The problem has a `:metric`, but no action increases the total cost, so every plan costs 0.";
        add_text_if(alloc, self.lacks_costs, lacking, lines)?;
        let free = NameList {
            opening: "Actions that do not increase the total cost, although others do: ",
            kind: Kind::Action,
            numbers: &self.actions.free,
        };
        free.add(alloc, task, lines)
    }

    /// Adds the lines about predicates.
    fn add_predicates(
        &self,
        alloc: Global,
        task: &Task,
        lines: &mut Vec<String>,
    ) -> Result<(), NoMemory>
        ensures { OnOk result (map string_bytes lines.new.items ≡ map string_bytes lines.old.items ++ note.predicate_lines (task_of task.now) self.now) }
    {
        let unasked = NameList {
            opening: "Predicates that no precondition, no condition and no goal asks for: ",
            kind: Kind::Predicate,
            numbers: &self.unasked_predicates,
        };
        unasked.add(alloc, task, lines)?;
        let never_true = NameList {
            opening: "Predicates that are asked for, but that neither `:init` nor an action makes true: ",
            kind: Kind::Predicate,
            numbers: &self.never_true_predicates,
        };
        never_true.add(alloc, task, lines)?;
        let only_deleted = NameList {
            opening: "Predicates of `:init` that are asked for, and that actions delete but none adds: ",
            kind: Kind::Predicate,
            numbers: &self.only_deleted_predicates,
        };
        only_deleted.add(alloc, task, lines)
    }

    /// Adds the line about a goal that is true at the start.
    fn add_goal(&self, alloc: Global, lines: &mut Vec<String>) -> Result<(), NoMemory>
        ensures { OnOk result (map string_bytes lines.new.items ≡ map string_bytes lines.old.items ++ note.goal_lines self.now) }
    {
        let empty = "The goal is empty, so it is true at the start.";
        add_text_if(alloc, self.has_empty_goal, empty, lines)?;
        let at_start = "The goal is true at the start.";
        add_text_if(alloc, self.starts_at_goal, at_start, lines)
    }
}

impl ActionNotes {
    /// Adds the lines about actions, but for those about costs.
    fn add_lines(&self, alloc: Global, task: &Task, lines: &mut Vec<String>) -> Result<(), NoMemory>
        ensures { OnOk result (map string_bytes lines.new.items ≡ map string_bytes lines.old.items ++ note.action_lines (task_of task.now) self.now) }
    {
        let contradictory = NameList {
            opening: "Actions that ask for an atom and for its negation: ",
            kind: Kind::Action,
            numbers: &self.contradictory,
        };
        contradictory.add(alloc, task, lines)?;
        let uninhabited = NameList {
            opening: "Actions with a parameter for which there is no object: ",
            kind: Kind::Action,
            numbers: &self.uninhabited,
        };
        uninhabited.add(alloc, task, lines)?;
        let undoing = NameList {
            opening: "Actions that delete and add the same atom, of which the addition counts: ",
            kind: Kind::Action,
            numbers: &self.undoing,
        };
        undoing.add(alloc, task, lines)
    }
}

impl GroundNotes {
    /// Adds a line for each note.
    ///
    /// # Errors
    /// An allocation failed.
    ///
    /// # Examples
    /// ```text
    /// (len home depot) has no value, so (drive truck home depot) can never be applied.
    /// The goal asks for (at truck mars), which is false at the start, and which no action can make true.
    /// Actions that can never be applied: fly.
    /// ```
    pub fn add_lines(
        &self,
        alloc: Global,
        task: &Task,
        lines: &mut Vec<String>,
    ) -> Result<(), NoMemory>
        ensures { OnOk result (map string_bytes lines.new.items ≡ map string_bytes lines.old.items ++ note.ground_lines (task_of task.now) self.now) }
    {
        add_lacking(alloc, task, &self.lacking, lines)?;
        self.add_passed_over(alloc, task, lines)?;
        add_missing_goals(alloc, task, &self.missing_goals, lines)?;
        let idle = NameList {
            opening: "Actions that can never be applied: ",
            kind: Kind::Action,
            numbers: &self.idle_actions,
        };
        idle.add(alloc, task, lines)
    }

    /// Adds a line for each action whose instances were not checked.
    fn add_passed_over(
        &self,
        alloc: Global,
        task: &Task,
        lines: &mut Vec<String>,
    ) -> Result<(), NoMemory>
        ensures { OnOk result (map string_bytes lines.new.items ≡ map string_bytes lines.old.items ++ map (note.passed_line (task_of task.now) self.now.most) self.now.passed_over.items) }
    {
        for number in &self.passed_over {
            self.add_passed(alloc, task, *number, lines)?;
        }
        Ok(())
    }

    /// Adds the line for an action whose instances were not checked.
    fn add_passed(
        &self,
        alloc: Global,
        task: &Task,
        number: usize,
        lines: &mut Vec<String>,
    ) -> Result<(), NoMemory>
        ensures { OnOk result (map string_bytes lines.new.items ≡ map string_bytes lines.old.items ++ note.passed_line (task_of task.now) self.now.most number ∷ []) }
    {
        let ending = ending_of(alloc, self.most)?;
        let mut line = Vec::from_slice(alloc, b"Whether costs of `")?;
        line.extend_from_slice(task.name_of_schema(SchemaId(number)))?;
        line.extend_from_slice(b"` have no value was not looked at, as it has more than ")?;
        line.extend_from_slice(ending.as_bytes())?;
        add_line(alloc, line.as_slice(), lines)
    }
}

/// How the line for an action ends whose instances were not checked.
fn ending_of(alloc: Global, most: u32) -> Result<String, NoMemory>
    ensures { IfOk result (λ text. string_bytes text ≡ decimal most ++ codes " instances.") }
{
    Ok(format!(in alloc; "{most} instances.")?)
}

/// The notes of a kind that are written: the first few.
fn reported<T>(notes: &[T]) -> &[T]
    ensures { result.now ≡ take 10 notes.now }
{
    if notes.len() > MOST_NOTES {
        &notes[..MOST_NOTES]
    } else {
        notes
    }
}

/// Adds a line for each instance that lacks a value.
fn add_lacking(
    alloc: Global,
    task: &Task,
    lacking: &[Instance],
    lines: &mut Vec<String>,
) -> Result<(), NoMemory>
    ensures { OnOk result (map string_bytes lines.new.items ≡ map string_bytes lines.old.items ++ note.lacking_lines (task_of task.now) (map instance_of lacking.now)) }
{
    add_lacking_lines(alloc, task, reported(lacking), lines)?;
    if lacking.len() > MOST_NOTES {
        let line = "More values that actions increase the total cost by are missing.";
        add_text(alloc, line, lines)
    } else {
        Ok(())
    }
}

/// Adds the line for each of these instances.
fn add_lacking_lines(
    alloc: Global,
    task: &Task,
    lacking: &[Instance],
    lines: &mut Vec<String>,
) -> Result<(), NoMemory>
    ensures { OnOk result (map string_bytes lines.new.items ≡ map string_bytes lines.old.items ++ flat_map (note.lacking_line (task_of task.now)) (map instance_of lacking.now)) }
{
    for instance in lacking {
        add_lacking_line(alloc, task, instance, lines)?;
    }
    Ok(())
}

/// Adds the line for an instance that lacks a value.
fn add_lacking_line(
    alloc: Global,
    task: &Task,
    instance: &Instance,
    lines: &mut Vec<String>,
) -> Result<(), NoMemory>
    ensures { OnOk result (map string_bytes lines.new.items ≡ map string_bytes lines.old.items ++ note.lacking_line (task_of task.now) (instance_of instance.now)) }
{
    let mut line = Vec::new(alloc);
    match task.schema(instance.schema) {
        Some(schema) => match &schema.increase {
            Increase::Function(function) => {
                add_lacking_value(task, instance, function, &mut line)?;
                add_line(alloc, line.as_slice(), lines)
            }
            Increase::Number(_) => Ok(()),
        },
        None => Ok(()),
    }
}

/// Adds the value of this function that the instance lacks, and the instance.
fn add_lacking_value(
    task: &Task,
    instance: &Instance,
    function: &LiftedAtom,
    line: &mut Vec<u8>,
) -> Result<(), NoMemory>
    ensures { OnOk result (line.new.items ≡ line.old.items ++ note.lacking_value (task_of task.now) (instance_of instance.now) (lifted_atom_of function.now)) }
{
    let name = task.name_of_schema(instance.schema);
    add_function(task, function, instance, line)?;
    line.extend_from_slice(b" has no value, so ")?;
    task.add_form(name, instance.objects.as_slice(), line)?;
    line.extend_from_slice(b" can never be applied.")?;
    Ok(())
}

/// Adds a line for each unreachable atom of the goal.
fn add_missing_goals(
    alloc: Global,
    task: &Task,
    atoms: &[Atom],
    lines: &mut Vec<String>,
) -> Result<(), NoMemory>
    ensures { OnOk result (map string_bytes lines.new.items ≡ map string_bytes lines.old.items ++ note.missing_lines (task_of task.now) (map atom_of atoms.now)) }
{
    add_missing_lines(alloc, task, reported(atoms), lines)?;
    if atoms.len() > MOST_NOTES {
        let line = "The goal asks for more atoms that are never true.";
        add_text(alloc, line, lines)
    } else {
        Ok(())
    }
}

/// Adds the line for each of these atoms.
fn add_missing_lines(
    alloc: Global,
    task: &Task,
    atoms: &[Atom],
    lines: &mut Vec<String>,
) -> Result<(), NoMemory>
    ensures { OnOk result (map string_bytes lines.new.items ≡ map string_bytes lines.old.items ++ flat_map (note.missing_line (task_of task.now)) (map atom_of atoms.now)) }
{
    for atom in atoms {
        add_missing_line(alloc, task, atom, lines)?;
    }
    Ok(())
}

/// Adds the line for an atom of the goal that is never true.
fn add_missing_line(
    alloc: Global,
    task: &Task,
    atom: &Atom,
    lines: &mut Vec<String>,
) -> Result<(), NoMemory>
    ensures { OnOk result (map string_bytes lines.new.items ≡ map string_bytes lines.old.items ++ note.missing_line (task_of task.now) (atom_of atom.now)) }
{
    let mut line = Vec::from_slice(alloc, b"The goal asks for ")?;
    task.add_atom(atom, &mut line)?;
    line.extend_from_slice(b", which is false at the start, and which no action can make true.")?;
    add_line(alloc, line.as_slice(), lines)
}

/// A kind of named entity.
#[derive(Clone, Copy)]
enum Kind {
    Predicate,
    Object,
    Action,
}

/// What some named entities have in common.
#[derive(Clone, Copy)]
struct NameList<'n> {
    /// The beginning of their line.
    opening: &'static str,
    kind: Kind,
    numbers: &'n [usize],
}

impl NameList<'_> {
    /// Adds a line with the names, if there are any: the first few, and how many more there are.
    fn add(&self, alloc: Global, task: &Task, lines: &mut Vec<String>) -> Result<(), NoMemory>
        ensures { OnOk result (map string_bytes lines.new.items ≡ map string_bytes lines.old.items ++ note.names_line self.now.opening.now (name_by (task_of task.now) self.now.kind) self.now.numbers.now) }
    {
        match self.numbers.split_first() {
            Some((first, rest)) => {
                let mut line = Vec::from_slice(alloc, self.opening.as_bytes())?;
                line.extend_from_slice(name_of(task, self.kind, *first))?;
                add_names(task, self.kind, first_of_rest(rest), &mut line)?;
                add_others(alloc, self.numbers.len(), &mut line)?;
                line.extend_from_slice(b".")?;
                add_line(alloc, line.as_slice(), lines)
            }
            None => Ok(()),
        }
    }
}

/// The numbers whose names follow the first.
fn first_of_rest(rest: &[usize]) -> &[usize]
    ensures { result.now ≡ take 9 rest.now }
{
    if rest.len() > MOST_NOTES - 1 {
        &rest[..MOST_NOTES - 1]
    } else {
        rest
    }
}

/// Adds these names, with a comma before each.
fn add_names(task: &Task, kind: Kind, numbers: &[usize], line: &mut Vec<u8>) -> Result<(), NoMemory>
    ensures { OnOk result (line.new.items ≡ line.old.items ++ flat_map (note.next_text (name_by (task_of task.now) kind)) numbers.now) }
{
    for number in numbers {
        line.extend_from_slice(b", ")?;
        line.extend_from_slice(name_of(task, kind, *number))?;
    }
    Ok(())
}

/// Adds how many names are left out of this number.
fn add_others(alloc: Global, count: usize, line: &mut Vec<u8>) -> Result<(), NoMemory>
    ensures { OnOk result (line.new.items ≡ line.old.items ++ note.others_text count) }
{
    if count > MOST_NOTES {
        let others = count - MOST_NOTES;
        let text = format!(in alloc; " and {others} more")?;
        line.extend_from_slice(text.as_bytes())?;
        Ok(())
    } else {
        Ok(())
    }
}

/// The name for this number.
fn name_of(task: &Task, kind: Kind, number: usize) -> &[u8]
    ensures { result.now ≡ name_by (task_of task.now) kind number }
{
    match kind {
        Kind::Predicate => task.name_of_predicate(PredicateId(number)),
        Kind::Object => match u32::try_from(number) {
            Ok(number) => task.name_of_object(ObjectId(number)),
            Err(_) => b"",
        },
        Kind::Action => task.name_of_schema(SchemaId(number)),
    }
}

/// Adds the function of the objects that its terms denote for this instance.
fn add_function(
    task: &Task,
    function: &LiftedAtom,
    instance: &Instance,
    line: &mut Vec<u8>,
) -> Result<(), NoMemory>
    ensures { OnOk result (line.new.items ≡ line.old.items ++ note.function_text (task_of task.now) (instance_of instance.now) (lifted_atom_of function.now)) }
{
    line.extend_from_slice(b"(")?;
    line.extend_from_slice(task.name_of_function(function.predicate))?;
    for term in &function.terms {
        task.add_name(named_by(term, &instance.objects), line)?;
    }
    line.extend_from_slice(b")")?;
    Ok(())
}

/// Adds the line, if it is so.
fn add_text_if(
    alloc: Global,
    is_so: bool,
    line: &str,
    lines: &mut Vec<String>,
) -> Result<(), NoMemory>
    ensures { OnOk result (map string_bytes lines.new.items ≡ map string_bytes lines.old.items ++ line_if is_so line.now) }
{
    if is_so {
        add_text(alloc, line, lines)
    } else {
        Ok(())
    }
}

/// Adds the line.
fn add_text(alloc: Global, line: &str, lines: &mut Vec<String>) -> Result<(), NoMemory>
    ensures { OnOk result (map string_bytes lines.new.items ≡ map string_bytes lines.old.items ++ line.now ∷ []) }
{
    lines.push(String::from_str(alloc, line)?)?;
    Ok(())
}

/// Adds the line. Its bytes are ASCII, as those of names are.
fn add_line(alloc: Global, line: &[u8], lines: &mut Vec<String>) -> Result<(), NoMemory>
    ensures { OnOk result (map string_bytes lines.new.items ≡ map string_bytes lines.old.items ++ utf8_lossy line.now ∷ []) }
{
    lines.push(String::from_utf8_lossy(alloc, line)?)?;
    Ok(())
}

/// Adds bytes, which are all ASCII, as names are.
///
/// # Errors
/// An allocation failed.
pub fn add_bytes(bytes: &[u8], line: &mut String) -> Result<(), NoMemory> {
    for byte in bytes {
        line.push(char::from(*byte))?;
    }
    Ok(())
}

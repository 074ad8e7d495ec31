//! The fluent predicates of a task, as a table.
ghost use Rattle.std.specs.Prelude.{◌≡◌, map, IfOk, OnOk};
ghost use Rattle.std.specs.List.{list_any};
ghost use Rattle.task.specs.Task.{task_of};
ghost use Rattle.task.specs.TaskParts.{atom_of, effect_of, effect_literal_of};
ghost use Rattle.model.specs.Fluents as defined;
ghost use Rattle.formulas.specs.FluentTable.{AreFluentsOf};
ghost use Rattle.formulas.specs.Marks.{Marks, is_marked};

use crate::fluents::is_atom;
use crate::marks::{is_marked, mark};
use faults::NoMemory;
use std::alloc::Global;
use task::{Atom, Effect, EffectLiteral, PredicateId, SchemaId, Task};

/// The predicates whose atoms some action adds or deletes, found in one pass over the task's actions so that later queries need
/// none.
#[derive(Drop)]
pub struct FluentPredicates {
    /// Indexed by predicate, up to the last fluent one.
    table: Vec<bool>,
}

impl FluentPredicates {
    /// The fluent predicates of the task.
    ///
    /// # Errors
    /// An allocation failed, which says nothing about the task.
    pub fn new(alloc: Global, task: &Task) -> Result<FluentPredicates, NoMemory>
        ensures { IfOk result (AreFluentsOf (task_of task.now)) }
    {
        let mut table = Vec::new(alloc);
        for number in 0..task.schema_count() {
            match task.schema(SchemaId(number)) {
                Some(schema) => mark_touched(&schema.effect, &mut table)?,
                None => unreachable!(),
            }
        }
        Ok(FluentPredicates { table })
    }

    /// Whether the predicate is fluent.
    pub fn contains(&self, predicate: PredicateId) -> bool
        ensures { result ≡ is_marked self.now.table.items predicate.0 }
    {
        is_marked(&self.table, predicate.0)
    }

    /// Whether the atom is well-typed and its predicate is fluent in the task, whose table this is.
    pub fn is_fluent(&self, task: &Task, atom: &Atom) -> bool
        requires { AreFluentsOf (task_of task.now) self.now }
        ensures { result ≡ defined.is_fluent_atom (task_of task.now) (atom_of atom.now) }
    {
        is_atom(task, atom) && self.contains(atom.predicate)
    }
}

/// Marks the predicates of the effect's literals.
fn mark_touched(effect: &Effect, table: &mut Vec<bool>) -> Result<(), NoMemory>
    ensures { OnOk result (Marks (λ n. defined.touches n (effect_of effect.now)) table.old.items table.new.items) }
{
    match effect {
        Effect::Literal(literal) => mark_literal(literal, table),
        Effect::And(parts) => {
            for part in parts {
                mark_touched(part, table)?;
            }
            Ok(())
        }
        Effect::Forall(_, part) => mark_touched(part, table),
        Effect::When(_, literals) => mark_literals(literals, table),
    }
}

/// Marks the predicates of the literals.
fn mark_literals(literals: &[EffectLiteral], table: &mut Vec<bool>) -> Result<(), NoMemory>
    ensures { OnOk result (Marks (λ n. list_any (defined.is_literal_of n) (map effect_literal_of literals.now)) table.old.items table.new.items) }
{
    for literal in literals {
        mark_literal(literal, table)?;
    }
    Ok(())
}

/// Marks the predicate of the literal.
fn mark_literal(literal: &EffectLiteral, table: &mut Vec<bool>) -> Result<(), NoMemory>
    ensures { OnOk result (Marks (λ n. defined.is_literal_of n (effect_literal_of literal.now)) table.old.items table.new.items) }
{
    match literal {
        EffectLiteral::Add(atom) => mark(atom.predicate.0, table),
        EffectLiteral::Delete(atom) => mark(atom.predicate.0, table),
    }
}

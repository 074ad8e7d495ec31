//! What a task does with its predicates, and which of them are doubtful.
ghost use Rattle.std.specs.Prelude.{◌≡◌, ◌++◌, ◌∷◌, [], ℕ, filter, map, IfOk, OnOk};
ghost use Rattle.std.specs.List.{list_any};
ghost use Rattle.task.specs.Task.{task_of};
ghost use Rattle.task.specs.TaskParts.{atom_of, effect_literal_of, effect_of};
ghost use Rattle.formulas.specs.Marks.{IsTableOf, Marks, is_marked};
ghost use Rattle.formulas.specs.MentionViews.{mention_of};
ghost use Rattle.model.specs.Task as planning;
ghost use Rattle.explain_tasks.specs.Mentions.{task_mentions};
ghost use Rattle.explain_tasks.specs.Predicates as defined;
ghost use Rattle.explain_tasks.specs.Predicates.{AreUsesOf};

use crate::tables::asked_table;
use faults::NoMemory;
use formulas::{Mention, is_marked, mark};
use std::alloc::Global;
use task::{Atom, Effect, EffectLiteral, SchemaId, Task};

/// What a literal of an effect makes of its atom.
#[derive(Clone, Copy)]
pub(crate) enum Becoming {
    True,
    False,
}

/// What is doubtful about a predicate.
#[derive(Clone, Copy)]
pub(crate) enum Doubt {
    /// No precondition, no condition of an effect and no goal has it.
    Unasked,
    /// It is asked for, but no atom of it is initially true, and no action adds one.
    NeverTrue,
    /// It is asked for and some atom of it initially true, but actions only delete such atoms.
    OnlyDeleted,
}

/// What a task does with its predicates: tables of their numbers.
pub(crate) struct PredicateUses {
    /// A precondition, a condition of an effect or the goal has an atom of these.
    asked: Vec<bool>,
    /// An atom of these is initially true.
    initial: Vec<bool>,
    /// An action adds an atom of these.
    added: Vec<bool>,
    /// An action deletes an atom of these.
    deleted: Vec<bool>,
}

impl Drop for PredicateUses {
    fn drop(self) {
        let Self {
            asked: _,
            initial: _,
            added: _,
            deleted: _,
        } = self;
    }
}

impl PredicateUses {
    /// The tables of the task, given all its mentions.
    pub(crate) fn of(
        alloc: Global,
        task: &Task,
        mentions: &[Mention],
    ) -> Result<PredicateUses, NoMemory>
        requires { map mention_of mentions.now ≡ task_mentions (task_of task.now) }
        ensures { IfOk result (AreUsesOf (task_of task.now)) }
    {
        let asked = asked_table(alloc, mentions)?;
        let initial = initial_table(alloc, task.init())?;
        let added = made_table(alloc, task, Becoming::True)?;
        let deleted = made_table(alloc, task, Becoming::False)?;
        Ok(PredicateUses {
            asked,
            initial,
            added,
            deleted,
        })
    }

    /// The predicates of the task, whose tables these are, of which this is so, in order.
    pub(crate) fn doubtful(
        &self,
        alloc: Global,
        task: &Task,
        doubt: Doubt,
    ) -> Result<Vec<usize>, NoMemory>
        requires { AreUsesOf (task_of task.now) self.now }
        ensures { IfOk result (λ found. found.items ≡ defined.doubtful_predicates (task_of task.now) doubt) }
    {
        let mut found = Vec::new(alloc);
        for number in 0..task.predicate_count() {
            self.add_if_doubtful(doubt, number, &mut found)?;
        }
        Ok(found)
    }

    /// Adds the predicate with this number, if this is so of it.
    fn add_if_doubtful(
        &self,
        doubt: Doubt,
        number: usize,
        found: &mut Vec<usize>,
    ) -> Result<(), NoMemory>
        ensures { (t : planning.Task) → AreUsesOf t self.now → OnOk result (found.new.items ≡ found.old.items ++ filter (defined.is_doubtful t doubt) (number ∷ [])) }
    {
        if !self.is_doubtful(doubt, number) {
            return Ok(());
        }
        found.push(number)?;
        Ok(())
    }

    /// Whether this is so of the predicate with this number.
    fn is_doubtful(&self, doubt: Doubt, number: usize) -> bool
        ensures { (t : planning.Task) → AreUsesOf t self.now → result ≡ defined.is_doubtful t doubt number }
    {
        let asked = is_marked(&self.asked, number);
        let initial = is_marked(&self.initial, number);
        let added = is_marked(&self.added, number);
        let deleted = is_marked(&self.deleted, number);
        match doubt {
            Doubt::Unasked => !asked,
            Doubt::NeverTrue => asked && (!initial && !added),
            Doubt::OnlyDeleted => asked && (initial && (deleted && !added)),
        }
    }
}

/// The predicates of the atoms.
fn initial_table(alloc: Global, atoms: &[Atom]) -> Result<Vec<bool>, NoMemory>
    ensures { IfOk result (λ table. IsTableOf defined.is_of_predicate (map atom_of atoms.now) table.items) }
{
    let mut table = Vec::new(alloc);
    for atom in atoms {
        mark(atom.predicate.0, &mut table)?;
    }
    Ok(table)
}

/// The predicates whose atoms some action makes so.
fn made_table(alloc: Global, task: &Task, becoming: Becoming) -> Result<Vec<bool>, NoMemory>
    ensures { IfOk result (λ table. (n : ℕ) → is_marked table.items n ≡ defined.is_made (task_of task.now) becoming n) }
{
    let mut table = Vec::new(alloc);
    for number in 0..task.schema_count() {
        match task.schema(SchemaId(number)) {
            Some(schema) => mark_made(becoming, &schema.effect, &mut table)?,
            None => unreachable!(),
        }
    }
    Ok(table)
}

/// Marks the predicates whose atoms the effect makes so.
fn mark_made(becoming: Becoming, effect: &Effect, table: &mut Vec<bool>) -> Result<(), NoMemory>
    ensures { OnOk result (Marks (λ n. defined.has_literal (defined.makes becoming n) (effect_of effect.now)) table.old.items table.new.items) }
{
    match effect {
        Effect::Literal(literal) => mark_literal(becoming, literal, table),
        Effect::And(parts) => {
            for part in parts {
                mark_made(becoming, part, table)?;
            }
            Ok(())
        }
        Effect::Forall(_, part) => mark_made(becoming, part, table),
        Effect::When(_, literals) => mark_literals(becoming, literals, table),
    }
}

/// Marks the predicates whose atoms the literals make so.
fn mark_literals(
    becoming: Becoming,
    literals: &[EffectLiteral],
    table: &mut Vec<bool>,
) -> Result<(), NoMemory>
    ensures { OnOk result (Marks (λ n. list_any (defined.makes becoming n) (map effect_literal_of literals.now)) table.old.items table.new.items) }
{
    for literal in literals {
        mark_literal(becoming, literal, table)?;
    }
    Ok(())
}

/// Marks the predicate whose atom the literal makes so.
fn mark_literal(
    becoming: Becoming,
    literal: &EffectLiteral,
    table: &mut Vec<bool>,
) -> Result<(), NoMemory>
    ensures { OnOk result (Marks (λ n. defined.makes becoming n (effect_literal_of literal.now)) table.old.items table.new.items) }
{
    match literal {
        EffectLiteral::Add(atom) => match becoming {
            Becoming::True => mark(atom.predicate.0, table),
            Becoming::False => Ok(()),
        },
        EffectLiteral::Delete(atom) => match becoming {
            Becoming::True => Ok(()),
            Becoming::False => mark(atom.predicate.0, table),
        },
    }
}

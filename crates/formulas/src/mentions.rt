//! What formulas and actions mention.
ghost use Rattle.std.specs.Prelude.{◌≡◌, ◌++◌, [], map, IfOk, OnOk, slice_get};
ghost use Rattle.std.specs.List.{flat_map};
ghost use Rattle.std.specs.Option.{option_map_or};
ghost use Rattle.task.specs.Task.{task_of};
ghost use Rattle.task.specs.TaskParts.{effect_literal_of, effect_of, formula_of, increase_of, term_of};
ghost use Rattle.formulas.specs.Marks.{IsTableOf, Marks};
ghost use Rattle.formulas.specs.Mentions as defined;
ghost use Rattle.formulas.specs.Mentions.{is_naming};
ghost use Rattle.formulas.specs.MentionViews.{Come, mention_of};

use crate::marks::mark;
use faults::NoMemory;
use std::alloc::Global;
use task::{Effect, EffectLiteral, Formula, Increase, ObjectId, PredicateId, SchemaId, Task, Term};

/// A formula uses an atom of this predicate, or this object is named.
#[derive(Debug, Drop)]
pub enum Mention {
    /// An atom of this predicate occurs in a formula.
    Asked(PredicateId),
    /// This object is named.
    Named(ObjectId),
}

/// Adds the mentions in the task's actions: of each its precondition, its effect and its cost increase.
///
/// # Errors
/// An allocation failed.
pub fn add_action_mentions(task: &Task, found: &mut Vec<Mention>) -> Result<(), NoMemory>
    ensures { OnOk result (Come (flat_map defined.schema_mentions (task_of task.now).schemas) found.old.items found.new.items) }
{
    for number in 0..task.schema_count() {
        add_schema(task, SchemaId(number), found)?;
    }
    Ok(())
}

/// Adds the mentions in the action with this number.
fn add_schema(task: &Task, id: SchemaId, found: &mut Vec<Mention>) -> Result<(), NoMemory>
    ensures { OnOk result (Come (option_map_or defined.schema_mentions (slice_get (task_of task.now).schemas id.0) []) found.old.items found.new.items) }
{
    let Some(schema) = task.schema(id) else {
        return Ok(());
    };
    add_formula_mentions(&schema.precondition, found)?;
    add_effect(&schema.effect, found)?;
    add_increase(&schema.increase, found)
}

/// Adds the mentions in the formula.
///
/// # Errors
/// An allocation failed.
pub fn add_formula_mentions(formula: &Formula, found: &mut Vec<Mention>) -> Result<(), NoMemory>
    ensures { OnOk result (Come (defined.mentions (formula_of formula.now)) found.old.items found.new.items) }
{
    match formula {
        Formula::Atom(atom) => {
            found.push(Mention::Asked(atom.predicate))?;
            add_terms(&atom.terms, found)
        }
        Formula::Equal(left, right) => {
            add_term(left, found)?;
            add_term(right, found)
        }
        Formula::And(parts) => {
            for part in parts {
                add_formula_mentions(part, found)?;
            }
            Ok(())
        }
        Formula::Or(choices) => {
            for choice in choices {
                add_formula_mentions(choice, found)?;
            }
            Ok(())
        }
        Formula::Not(part) => add_formula_mentions(part, found),
        Formula::Imply(premise, conclusion) => {
            add_formula_mentions(premise, found)?;
            add_formula_mentions(conclusion, found)
        }
        Formula::Exists(_, part) | Formula::Forall(_, part) => add_formula_mentions(part, found),
    }
}

/// Adds the mentions in the effect.
fn add_effect(effect: &Effect, found: &mut Vec<Mention>) -> Result<(), NoMemory>
    ensures { OnOk result (Come (defined.effect_mentions (effect_of effect.now)) found.old.items found.new.items) }
{
    match effect {
        Effect::Literal(literal) => add_literal(literal, found),
        Effect::And(parts) => {
            for part in parts {
                add_effect(part, found)?;
            }
            Ok(())
        }
        Effect::Forall(_, part) => add_effect(part, found),
        Effect::When(condition, literals) => {
            add_formula_mentions(condition, found)?;
            add_literals(literals, found)
        }
    }
}

/// Adds the mentions in the literals.
fn add_literals(literals: &[EffectLiteral], found: &mut Vec<Mention>) -> Result<(), NoMemory>
    ensures { OnOk result (Come (flat_map defined.literal_mentions (map effect_literal_of literals.now)) found.old.items found.new.items) }
{
    for literal in literals {
        add_literal(literal, found)?;
    }
    Ok(())
}

/// Adds the mentions in the literal.
fn add_literal(literal: &EffectLiteral, found: &mut Vec<Mention>) -> Result<(), NoMemory>
    ensures { OnOk result (Come (defined.literal_mentions (effect_literal_of literal.now)) found.old.items found.new.items) }
{
    match literal {
        EffectLiteral::Add(atom) => add_terms(&atom.terms, found),
        EffectLiteral::Delete(atom) => add_terms(&atom.terms, found),
    }
}

/// Adds the mentions in the amount of a cost increase.
fn add_increase(increase: &Increase, found: &mut Vec<Mention>) -> Result<(), NoMemory>
    ensures { OnOk result (Come (defined.increase_mentions (increase_of increase.now)) found.old.items found.new.items) }
{
    match increase {
        Increase::Number(_) => Ok(()),
        Increase::Function(function) => add_terms(&function.terms, found),
    }
}

/// Adds the objects that the terms name.
fn add_terms(terms: &[Term], found: &mut Vec<Mention>) -> Result<(), NoMemory>
    ensures { OnOk result (Come (defined.terms_mentions (map term_of terms.now)) found.old.items found.new.items) }
{
    for term in terms {
        add_term(term, found)?;
    }
    Ok(())
}

/// Adds the object that the term names, if it names one.
fn add_term(term: &Term, found: &mut Vec<Mention>) -> Result<(), NoMemory>
    ensures { OnOk result (Come (defined.term_mentions (term_of term.now)) found.old.items found.new.items) }
{
    match term {
        Term::Variable(_) => Ok(()),
        Term::Object(object) => {
            found.push(Mention::Named(*object))?;
            Ok(())
        }
    }
}

/// The objects that are named, as a table of their numbers (`is_marked`).
///
/// # Errors
/// An allocation failed.
pub fn named_table(alloc: Global, mentions: &[Mention]) -> Result<Vec<bool>, NoMemory>
    ensures { IfOk result (λ table. IsTableOf is_naming (map mention_of mentions.now) table.items) }
{
    let mut table = Vec::new(alloc);
    for mention in mentions {
        mark_named(mention, &mut table)?;
    }
    Ok(table)
}

/// Marks the object that is named.
fn mark_named(mention: &Mention, table: &mut Vec<bool>) -> Result<(), NoMemory>
    ensures { OnOk result (Marks (λ n. is_naming n (mention_of mention.now)) table.old.items table.new.items) }
{
    match mention {
        Mention::Named(object) => mark(object.0 as usize, table),
        Mention::Asked(_) => Ok(()),
    }
}

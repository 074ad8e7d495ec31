//! Which atoms are well-typed, and which predicates are fluent.
ghost use Rattle.std.specs.Prelude.{◌≡◌, ◌&&◌, map};
ghost use Rattle.std.specs.List.{list_any};
ghost use Rattle.task.specs.TaskParts.{atom_of};
ghost use Rattle.model.specs.WellTyped as well_typed;
ghost use Rattle.task.specs.Task.{task_of};
ghost use Rattle.task.specs.TaskParts.{effect_of, effect_literal_of};
ghost use Rattle.model.specs.Fluents as defined;
ghost use Rattle.model.specs.Fluents.{touches};

use crate::instance::are_of;
use task::{Atom, Effect, EffectLiteral, PredicateId, SchemaId, Task};

/// Whether the atom is well-typed: its predicate belongs to the task, and it has one object of the right types for each argument.
pub fn is_atom(task: &Task, atom: &Atom) -> bool
    ensures { result ≡ well_typed.is_atom (task_of task.now) (atom_of atom.now) }
{
    let Some(predicate) = task.predicate(atom.predicate) else {
        return false;
    };
    are_of(task, &predicate.arguments, atom.objects.as_slice())
}

/// Whether the atom is well-typed and some action of the task adds or deletes atoms of its predicate. It looks at all actions: a
/// caller with many atoms makes the table `FluentPredicates` once.
pub fn is_fluent(task: &Task, atom: &Atom) -> bool
    ensures { result ≡ (well_typed.is_atom (task_of task.now) (atom_of atom.now) && defined.is_fluent (task_of task.now) (atom_of atom.now).predicate) }
{
    is_atom(task, atom) && is_fluent_predicate(task, atom.predicate)
}

/// Whether some action of the task adds or deletes an atom of the predicate.
pub fn is_fluent_predicate(task: &Task, predicate: PredicateId) -> bool
    ensures { result ≡ defined.is_fluent (task_of task.now) predicate.0 }
{
    for number in 0..task.schema_count() {
        let Some(schema) = task.schema(SchemaId(number)) else {
            return false;
        };
        if touches(&schema.effect, predicate) {
            return true;
        }
    }
    false
}

/// Whether the effect has a literal with this predicate.
fn touches(effect: &Effect, predicate: PredicateId) -> bool
    ensures { result ≡ touches predicate.0 (effect_of effect.now) }
{
    match effect {
        Effect::Literal(literal) => is_literal_of(literal, predicate),
        Effect::And(parts) => {
            for part in parts {
                if touches(part, predicate) {
                    return true;
                }
            }
            false
        }
        Effect::Forall(_, part) => touches(part, predicate),
        Effect::When(_, literals) => some_is_literal_of(literals, predicate),
    }
}

/// Whether one of the literals has this predicate.
fn some_is_literal_of(literals: &[EffectLiteral], predicate: PredicateId) -> bool
    ensures { result ≡ list_any (defined.is_literal_of predicate.0) (map effect_literal_of literals.now) }
{
    for literal in literals {
        if is_literal_of(literal, predicate) {
            return true;
        }
    }
    false
}

/// Whether the literal has this predicate.
fn is_literal_of(literal: &EffectLiteral, predicate: PredicateId) -> bool
    ensures { result ≡ defined.is_literal_of predicate.0 (effect_literal_of literal.now) }
{
    match literal {
        EffectLiteral::Add(atom) | EffectLiteral::Delete(atom) => atom.predicate == predicate,
    }
}

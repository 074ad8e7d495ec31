//! The changes that an instance makes, and their conditions.
ghost use Rattle.std.specs.Prelude.{◌≡◌, ◌++◌, ◌∷◌, [], map, IsTrue, IfOk, OnOk};
ghost use Rattle.task.specs.TaskParts.{object_of, effect_literal_of, effect_of};
ghost use Rattle.task.specs.Task.{task_of};
ghost use Rattle.formulas.specs.State.{instance_of, FitsEffect, FitsLiteral, FitsLiterals};
ghost use Rattle.formulas.specs.Effects.{ground_literal_of, condition_of, change_of};
ghost use Rattle.model.specs.Meaning.{is_instance, changes_of, changes_of_instance, change_under, ground_literal};

use crate::instance::{Binding, Instance, copied, with_object};
use crate::objects::objects_of;
use crate::truth::ground_atom;
use faults::NoMemory;
use std::alloc::Global;
use task::{Atom, Effect, EffectLiteral, Formula, Task};

/// An atom that becomes true, or false.
#[derive(Debug, Drop)]
pub enum GroundLiteral {
    /// It becomes true.
    Adds(Atom),
    /// It becomes false.
    Deletes(Atom),
}

/// A change that an instance makes if a condition holds in the state before.
#[derive(Drop)]
pub struct Change<'t> {
    /// The condition, if any.
    pub condition: Option<&'t Formula>,
    /// The objects of the variables in the condition's scope.
    pub binding: Binding,
    /// The change.
    pub literal: GroundLiteral,
}

/// Where a literal of an effect is: under which condition, if any, and which variables are bound.
#[derive(Drop)]
struct Context<'a, 't> {
    condition: Option<&'t Formula>,
    binding: &'a Binding,
}

/// The changes of an instance of the task, in the order of its effect. A `forall` gives changes for each object of its variable's
/// types.
///
/// # Errors
/// An allocation failed, which says nothing about the instance.
pub fn changes<'t>(
    alloc: Global,
    task: &'t Task,
    instance: &Instance,
) -> Result<Vec<Change<'t>>, NoMemory>
    requires { IsTrue (is_instance (task_of task.now) (instance_of instance.now)) }
    ensures { IfOk result (λ found. map change_of found.items ≡ changes_of_instance (task_of task.now) (instance_of instance.now)) }
{
    let Some(schema) = task.schema(instance.schema) else {
        return Ok(Vec::new(alloc));
    };
    let mut found = Vec::new(alloc);
    add_changes(task, &schema.effect, &instance.objects, &mut found)?;
    Ok(found)
}

/// Adds the changes of the effect.
fn add_changes<'t>(
    task: &Task,
    effect: &'t Effect,
    binding: &Binding,
    found: &mut Vec<Change<'t>>,
) -> Result<(), NoMemory>
    requires { FitsEffect (task_of task.now) (effect_of effect.now) (map object_of binding.now.items) }
    ensures { OnOk result (map change_of found.new.items ≡ map change_of found.old.items ++ changes_of (task_of task.now) (effect_of effect.now) (map object_of binding.now.items)) }
{
    match effect {
        Effect::Literal(literal) => {
            let context = Context {
                condition: None,
                binding,
            };
            add_change(task, &context, literal, found)?
        }
        Effect::And(parts) => {
            for part in parts {
                add_changes(task, part, binding, found)?;
            }
        }
        Effect::Forall(types, part) => {
            for object in objects_of(task, types) {
                add_changes(task, part, &with_object(binding, object), found)?;
            }
        }
        Effect::When(condition, literals) => {
            let context = Context {
                condition: Some(condition),
                binding,
            };
            add_changes_in(task, &context, literals, found)?
        }
    }
    Ok(())
}

/// Adds the changes of the literals, each in this context.
fn add_changes_in<'t>(
    task: &Task,
    context: &Context<'_, 't>,
    literals: &[EffectLiteral],
    found: &mut Vec<Change<'t>>,
) -> Result<(), NoMemory>
    requires { FitsLiterals (task_of task.now) (map effect_literal_of literals.now) (map object_of context.now.binding.now.items) }
    ensures { OnOk result (map change_of found.new.items ≡ map change_of found.old.items ++ map (λ l. change_under (condition_of context.now.condition) (map object_of context.now.binding.now.items) (effect_literal_of l)) literals.now) }
{
    for literal in literals {
        add_change(task, context, literal, found)?;
    }
    Ok(())
}

/// Adds the change of the literal in this context.
fn add_change<'t>(
    task: &Task,
    context: &Context<'_, 't>,
    literal: &EffectLiteral,
    found: &mut Vec<Change<'t>>,
) -> Result<(), NoMemory>
    requires { FitsLiteral (task_of task.now) (effect_literal_of literal.now) (map object_of context.now.binding.now.items) }
    ensures { OnOk result (map change_of found.new.items ≡ map change_of found.old.items ++ change_under (condition_of context.now.condition) (map object_of context.now.binding.now.items) (effect_literal_of literal.now) ∷ []) }
{
    let literal = grounded(task, literal, context.binding);
    found.push(Change {
        condition: context.condition,
        binding: copied(context.binding),
        literal,
    })?;
    Ok(())
}

/// The literal under this binding of the variables.
fn grounded(_task: &Task, literal: &EffectLiteral, binding: &Binding) -> GroundLiteral
    requires { FitsLiteral (task_of _task.now) (effect_literal_of literal.now) (map object_of binding.now.items) }
    ensures { ground_literal_of result ≡ ground_literal (map object_of binding.now.items) (effect_literal_of literal.now) }
{
    match literal {
        EffectLiteral::Add(atom) => GroundLiteral::Adds(ground_atom(atom, binding)),
        EffectLiteral::Delete(atom) => GroundLiteral::Deletes(ground_atom(atom, binding)),
    }
}

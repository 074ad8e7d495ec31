//! The sure literals of a formula: those it implies by conjunction alone.
ghost use Rattle.std.specs.Prelude.{◌≡◌, ◌++◌, map, IfOk, OnOk};
ghost use Rattle.task.specs.TaskParts.{object_of, formula_of};
ghost use Rattle.task.specs.Task.{task_of};
ghost use Rattle.formulas.specs.State.{FitsFormula};
ghost use Rattle.formulas.specs.Literals.{literal_of};
ghost use Rattle.model.specs.SureLiterals as literals;

use crate::instance::{Binding, with_object};
use crate::objects::objects_of;
use crate::truth::{ground_atom, named_by};
use faults::NoMemory;
use std::alloc::Global;
use task::{Atom, Formula, ObjectId, Task};

/// A sure literal of a formula, about an atom or about two objects.
#[derive(Debug, Drop)]
pub enum Literal {
    /// The atom is true.
    IsTrue(Atom),
    /// The atom is false.
    IsFalse(Atom),
    /// Both are the same object.
    AreSame(ObjectId, ObjectId),
    /// They are different objects.
    AreDifferent(ObjectId, ObjectId),
}

/// The sure literals of the formula under this binding: the atoms, the equalities and their negations that are under nothing but
/// `and` and `forall`, for each object of a `forall`'s variable. The formula is well-typed for variables of some types that the
/// objects are of.
pub fn sure(
    alloc: Global,
    task: &Task,
    formula: &Formula,
    binding: &Binding,
) -> Result<Vec<Literal>, NoMemory>
    requires { FitsFormula (task_of task.now) (formula_of formula.now) (map object_of binding.now.items) }
    ensures { IfOk result (λ found. map literal_of found.items ≡ literals.sure (task_of task.now) (formula_of formula.now) (map object_of binding.now.items)) }
{
    let mut found = Vec::new(alloc);
    add_sure(task, formula, binding, &mut found)?;
    Ok(found)
}

/// Adds the sure literals of the formula.
fn add_sure(
    task: &Task,
    formula: &Formula,
    binding: &Binding,
    found: &mut Vec<Literal>,
) -> Result<(), NoMemory>
    requires { FitsFormula (task_of task.now) (formula_of formula.now) (map object_of binding.now.items) }
    ensures { OnOk result (map literal_of found.new.items ≡ map literal_of found.old.items ++ literals.sure (task_of task.now) (formula_of formula.now) (map object_of binding.now.items)) }
{
    match formula {
        Formula::Atom(atom) => found.push(Literal::IsTrue(ground_atom(atom, binding)))?,
        Formula::Equal(first, second) => found.push(Literal::AreSame(
            named_by(first, binding),
            named_by(second, binding),
        ))?,
        Formula::Not(part) => add_sure_not(task, part, binding, found)?,
        Formula::And(parts) => {
            for part in parts {
                add_sure(task, part, binding, found)?;
            }
        }
        Formula::Forall(types, part) => {
            for object in objects_of(task, types) {
                add_sure(task, part, &with_object(binding, object), found)?;
            }
        }
        Formula::Or(_) | Formula::Imply(_, _) | Formula::Exists(_, _) => {}
    }
    Ok(())
}

/// Adds the literal that says that the formula does not hold, if the formula is an atom or an equality.
fn add_sure_not(
    task: &Task,
    formula: &Formula,
    binding: &Binding,
    found: &mut Vec<Literal>,
) -> Result<(), NoMemory>
    requires { FitsFormula (task_of task.now) (formula_of formula.now) (map object_of binding.now.items) }
    ensures { OnOk result (map literal_of found.new.items ≡ map literal_of found.old.items ++ literals.sure_not (formula_of formula.now) (map object_of binding.now.items)) }
{
    match formula {
        Formula::Atom(atom) => found.push(Literal::IsFalse(ground_atom(atom, binding)))?,
        Formula::Equal(first, second) => found.push(Literal::AreDifferent(
            named_by(first, binding),
            named_by(second, binding),
        ))?,
        _ => {}
    }
    Ok(())
}

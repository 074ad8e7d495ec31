//! Atoms, resolved from names.
ghost use Rattle.std.specs.Prelude.{◌≡◌, ℕ, ◌≤◌, IfNone, IfSome, IsTrue, List, length, map};
ghost use Rattle.task.specs.Task.{task_of};
ghost use Rattle.task.specs.TaskParts.{atom_of, object_of};
ghost use Rattle.model.specs.Task as model;
ghost use Rattle.model.specs.WellTyped.{is_atom};
ghost use Rattle.model.specs.Fluents.{is_fluent};
ghost use Rattle.formulas.specs.FluentTable.{AreFluentsOf};
ghost use Rattle.model.specs.PlanText.{object_names};
ghost use Rattle.certificate_reader.specs.Lines.{name_of, named_atom_of};
ghost use Rattle.certificate_definitions.specs.CertificateNames.{AreNumbersOf, Names};
ghost use Rattle.certificate_definitions.specs.CertificateChecking.{NamesFluent};

use arrayvec::ArrayVec;
use certificate::NamedAtom;
use formulas::FluentPredicates;
use task::{Atom, MAX_ARGUMENTS, ObjectId, Task};

/// The atom of the task with these names, if it is well-typed and its predicate is among these fluent ones.
pub(crate) fn fluent_atom_named(
    task: &Task,
    fluents: &FluentPredicates,
    name: &NamedAtom,
) -> Option<Atom>
    requires { AreFluentsOf (task_of task.now) fluents.now }
    ensures names { IfSome result (λ a. Names (task_of task.now) (named_atom_of name.now) (atom_of a)) }
    ensures typed { IfSome result (λ a. IsTrue (is_atom (task_of task.now) (atom_of a))) }
    ensures fluent { IfSome result (λ a. IsTrue (is_fluent (task_of task.now) (atom_of a).predicate)) }
    ensures none { IfNone result (¬ NamesFluent (task_of task.now) (named_atom_of name.now)) }
{
    let Some(atom) = atom_named(task, name) else {
        return None;
    };
    if fluents.is_fluent(task, &atom) {
        Some(atom)
    } else {
        None
    }
}

/// The atom with these names; `None` if there is none, or if it would have too many objects.
fn atom_named(task: &Task, name: &NamedAtom) -> Option<Atom>
    ensures some { IfSome result (λ a. Names (task_of task.now) (named_atom_of name.now) (atom_of a)) }
    ensures none { IfNone result ((a : model.Atom) → Names (task_of task.now) (named_atom_of name.now) a → length a.objects ≤ 8 → ⊥) }
{
    let predicate = task.predicate_named(&name.predicate)?;
    let objects = objects_named(task, &name.objects)?;
    Some(Atom { predicate, objects })
}

/// The objects with these names, in order; `None` if a name is unknown, or there are too many for an atom.
fn objects_named(task: &Task, names: &[Vec<u8>]) -> Option<ArrayVec<ObjectId, MAX_ARGUMENTS>>
    ensures some { IfSome result (λ found. AreNumbersOf (object_names (task_of task.now)) (map name_of names.now) (map object_of found.items)) }
    ensures none { IfNone result ((numbers : List ℕ) → AreNumbersOf (object_names (task_of task.now)) (map name_of names.now) numbers
        → length numbers ≤ 8 → ⊥) }
{
    let mut objects = ArrayVec::new();
    for name in names {
        let Some(object) = task.object_named(name) else {
            return None;
        };
        if objects.try_push(object).is_err() {
            return None;
        }
    }
    Some(objects)
}

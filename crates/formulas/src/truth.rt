//! Truth: the atoms denoted by terms, and whether a formula holds.
ghost use Rattle.std.specs.Prelude.{◌≡◌, ◌≤◌, length, map};
ghost use Rattle.std.specs.List.{list_all, list_any};
ghost use Rattle.task.specs.TaskParts.{atom_of, object_of, formula_of, lifted_atom_of, term_of, union_of};
ghost use Rattle.task.specs.Task.{task_of};
ghost use Rattle.formulas.specs.State.{state_of, FitsFormula, FitsFormulas};
ghost use Rattle.model.specs.Task.{exists, forall};
ghost use Rattle.model.specs.Meaning as meaning;

use crate::instance::{Binding, copied};
use crate::objects::objects_of;
use crate::state::State;
use crate::valuation::Valuation;
use arrayvec::ArrayVec;
use task::{Atom, Formula, LiftedAtom, MAX_ARGUMENTS, ObjectId, Task, Term, TypeUnion};

/// Whether the formula holds in the state under this binding. The formula is well-typed for variables of some types that the
/// objects are of. Nothing is allocated, and evaluation short-circuits.
pub fn holds<V: Valuation>(task: &Task, formula: &Formula, binding: &Binding, state: &V) -> bool
    requires { FitsFormula (task_of task.now) (formula_of formula.now) (map object_of binding.now.items) }
    ensures { result ≡ meaning.holds (task_of task.now) (formula_of formula.now) (map object_of binding.now.items) (V.facts state.now) }
{
    Evaluation { task, state }.holds(formula, binding)
}

/// Evaluates the formulas of a task in one state.
#[derive(Drop)]
struct Evaluation<'a, V> {
    task: &'a Task,
    state: &'a V,
}

impl<V: Valuation> Evaluation<'_, V> {
    /// Whether the formula holds under this binding, as [`holds`] says.
    #[cycle(truth)]
    fn holds(&self, formula: &Formula, binding: &Binding) -> bool
        requires { FitsFormula (task_of self.now.task.now) (formula_of formula.now) (map object_of binding.now.items) }
        ensures { result ≡ meaning.holds (task_of self.now.task.now) (formula_of formula.now) (map object_of binding.now.items) (V.facts self.now.state.now) }
    {
        match formula {
            Formula::Atom(atom) => self.state.contains(&ground_atom(atom, binding)),
            Formula::Equal(first, second) => named_by(first, binding) == named_by(second, binding),
            Formula::And(parts) => self.all_hold(parts, binding),
            Formula::Or(parts) => self.some_holds(parts, binding),
            Formula::Not(part) => !self.holds(part, binding),
            Formula::Imply(premise, conclusion) => {
                !self.holds(premise, binding) || self.holds(conclusion, binding)
            }
            Formula::Exists(types, part) => self.holds_for_some(types, part, binding),
            Formula::Forall(types, part) => self.holds_for_all(types, part, binding),
        }
    }

    /// Whether each of the formulas holds.
    #[cycle(truth)]
    fn all_hold(&self, parts: &[Formula], binding: &Binding) -> bool
        requires { FitsFormulas (task_of self.now.task.now) (map formula_of parts.now) (map object_of binding.now.items) }
        ensures { result ≡ list_all (λ part. meaning.holds (task_of self.now.task.now) part (map object_of binding.now.items) (V.facts self.now.state.now)) (map formula_of parts.now) }
    {
        for part in parts {
            if !self.holds(part, binding) {
                return false;
            }
        }
        true
    }

    /// Whether some of the formulas holds.
    #[cycle(truth)]
    fn some_holds(&self, parts: &[Formula], binding: &Binding) -> bool
        requires { FitsFormulas (task_of self.now.task.now) (map formula_of parts.now) (map object_of binding.now.items) }
        ensures { result ≡ list_any (λ part. meaning.holds (task_of self.now.task.now) part (map object_of binding.now.items) (V.facts self.now.state.now)) (map formula_of parts.now) }
    {
        for part in parts {
            if self.holds(part, binding) {
                return true;
            }
        }
        false
    }

    /// Whether the formula holds for each object of these types as the next variable.
    #[cycle(truth)]
    fn holds_for_all(&self, types: &TypeUnion, part: &Formula, binding: &Binding) -> bool
        requires { FitsFormula (task_of self.now.task.now) (forall (union_of types.now) (formula_of part.now)) (map object_of binding.now.items) }
        ensures { result ≡ meaning.holds (task_of self.now.task.now) (forall (union_of types.now) (formula_of part.now)) (map object_of binding.now.items) (V.facts self.now.state.now) }
    {
        let mut extended = copied(binding);
        for object in objects_of(self.task, types) {
            extended.push(object);
            if !self.holds(part, &extended) {
                return false;
            }
            extended.pop();
        }
        true
    }

    /// Whether the formula holds for some object of these types as the next variable.
    #[cycle(truth)]
    fn holds_for_some(&self, types: &TypeUnion, part: &Formula, binding: &Binding) -> bool
        requires { FitsFormula (task_of self.now.task.now) (exists (union_of types.now) (formula_of part.now)) (map object_of binding.now.items) }
        ensures { result ≡ meaning.holds (task_of self.now.task.now) (exists (union_of types.now) (formula_of part.now)) (map object_of binding.now.items) (V.facts self.now.state.now) }
    {
        let mut tried = copied(binding);
        for candidate in objects_of(self.task, types) {
            tried.push(candidate);
            if self.holds(part, &tried) {
                return true;
            }
            tried.pop();
        }
        false
    }
}

/// Whether the goal holds in the state.
pub fn meets_goal(task: &Task, state: &State) -> bool
    ensures { result ≡ meaning.meets_goal (task_of task.now) (state_of state.now) }
{
    holds(task, task.goal(), &Binding::new(), state)
}

/// The atom that a predicate of terms becomes under this binding.
pub(crate) fn ground_atom(atom: &LiftedAtom, binding: &Binding) -> Atom
    requires { length atom.now.terms.items ≤ MAX_ARGUMENTS }
    ensures { atom_of result ≡ meaning.ground_atom (map object_of binding.now.items) (lifted_atom_of atom.now) }
{
    let mut objects = ArrayVec::new();
    for term in &atom.terms {
        objects.push(named_by(term, binding));
    }
    Atom {
        predicate: atom.predicate,
        objects,
    }
}

/// The object that the term denotes under this binding: the first object for an unbound variable.
pub fn named_by(term: &Term, binding: &Binding) -> ObjectId
    ensures { result.0 ≡ meaning.object_of (map object_of binding.now.items) (term_of term.now) }
{
    match term {
        Term::Variable(variable) => binding.get(variable.0).copied().unwrap_or_default(),
        Term::Object(object) => *object,
    }
}

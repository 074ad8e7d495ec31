//! A schema's parameters: their objects, and the literals of the precondition that become decided with each of them.
ghost use Rattle.std.specs.Prelude.{◌≡◌, ◌+◌, ◌<◌, ◌^◌, [], ◌∷◌, ◌++◌, map, filter, length, IfOk, OnOk};
ghost use Rattle.std.specs.List.{list_all};
ghost use Rattle.task.specs.Task.{task_of};
ghost use Rattle.task.specs.TaskParts.{object_of, formula_of, term_of, union_of};
ghost use Rattle.model.specs.Meaning as meaning;
ghost use Rattle.model.proofs.EnumerationLemmas as enumeration;
ghost use Rattle.grounding_instances.specs.Joins.{IsJoined, AreJoined, AreCandidates};
ghost use Rattle.grounding_instances.specs.Literals as literals;
ghost use Rattle.grounding_instances.specs.Parameters.{choice_of, choices_from, lent_formula};

use crate::joins::Join;
use crate::statics::Statics;
use faults::NoMemory;
use formulas::Binding;
use std::alloc::Global;
use task::{Formula, ObjectId, Schema, Task, Term, TypeUnion};

/// A parameter of a schema.
#[derive(Drop)]
pub(crate) struct Parameter<'t> {
    /// The objects of its types, in order.
    pub(crate) objects: Vec<ObjectId>,
    /// The literals of the precondition that are decided once it has an object, and not before.
    pub(crate) literals: Vec<&'t Formula>,
    /// The objects that the static atoms among those literals allow for it.
    join: Join<'t>,
}

impl Parameter<'_> {
    /// The objects that it may have, given those of the earlier parameters, in order: all of its types, except some that make one
    /// of the literals false.
    pub(crate) fn candidates(
        &self,
        alloc: Global,
        task: &Task,
        binding: &Binding,
    ) -> Result<Vec<ObjectId>, NoMemory>
        requires { IsJoined (task_of task.now) (length binding.now.items) self.now }
        ensures { IfOk result (λ candidates. AreCandidates (task_of task.now) (map object_of binding.now.items) (choice_of self.now) (map object_of candidates.items)) }
    {
        match self.join.candidates(alloc, task, binding)? {
            Some(candidates) => Ok(candidates),
            None => Ok(self.objects.clone()?),
        }
    }
}

/// The parameters of the schema, in order.
pub(crate) fn parameters_of<'t>(
    statics: &Statics<'_>,
    schema: &'t Schema,
) -> Result<Vec<Parameter<'t>>, NoMemory>
    ensures choices { IfOk result (λ parameters. map choice_of parameters.items
        ≡ choices_from (task_of statics.now.task.now) (formula_of schema.now.precondition) 0 (map union_of schema.now.parameters.items)) }
    ensures joined { IfOk result (λ parameters. AreJoined (task_of statics.now.task.now) 0 parameters.items) }
{
    let mut parameters = Vec::new(statics.alloc);
    for types in &schema.parameters {
        let number = parameters.len();
        let parameter = parameter_of(statics, &schema.precondition, types, number)?;
        parameters.push(parameter)?;
    }
    Ok(parameters)
}

/// The parameter with this number and these types, in a schema with this precondition.
fn parameter_of<'t>(
    statics: &Statics<'_>,
    precondition: &'t Formula,
    types: &'t TypeUnion,
    number: usize,
) -> Result<Parameter<'t>, NoMemory>
    requires { number < 2 ^ 63 }
    ensures objects { IfOk result (λ p. map object_of p.objects.items ≡ meaning.objects_of (task_of statics.now.task.now) (union_of types.now)) }
    ensures literals { IfOk result (λ p. map lent_formula p.literals.items ≡ literals.decided_literals (number + 1) (formula_of precondition.now)) }
    ensures joined { IfOk result (λ p. IsJoined (task_of statics.now.task.now) number p) }
{
    let objects = statics.task.objects_of(statics.alloc, types)?;
    let literals = decided_literals(statics.alloc, precondition, number + 1)?;
    let join = Join::of_literals(statics, types, literals.as_slice(), number)?;
    Ok(Parameter {
        objects,
        literals,
        join,
    })
}

/// The conjuncts of the formula, under no `forall`, that are decided once the first `count` variables have objects, and not
/// before.
pub(crate) fn decided_literals<'t>(
    alloc: Global,
    formula: &'t Formula,
    count: usize,
) -> Result<Vec<&'t Formula>, NoMemory>
    ensures { IfOk result (λ found. map lent_formula found.items ≡ literals.decided_literals count (formula_of formula.now)) }
{
    let mut found = Vec::new(alloc);
    add_decided(formula, count, &mut found)?;
    Ok(found)
}

/// Adds those of the formula's conjuncts that are decided once the first `count` variables have objects, and not before.
fn add_decided<'t>(
    formula: &'t Formula,
    count: usize,
    found: &mut Vec<&'t Formula>,
) -> Result<(), NoMemory>
    ensures { OnOk result (map lent_formula found.new.items ≡ map lent_formula found.old.items ++ literals.decided_literals count (formula_of formula.now)) }
{
    match formula {
        Formula::And(parts) => {
            for part in parts {
                add_decided(part, count, found)?;
            }
            Ok(())
        }
        _ => add_if_decided(formula, count, found),
    }
}

/// Adds the formula, if it is decided once the first `count` variables have objects, and not before.
fn add_if_decided<'t>(
    formula: &'t Formula,
    count: usize,
    found: &mut Vec<&'t Formula>,
) -> Result<(), NoMemory>
    ensures { OnOk result (map lent_formula found.new.items ≡ map lent_formula found.old.items ++ filter (literals.is_first_decided count) (formula_of formula.now ∷ [])) }
{
    if !is_first_decided(formula, count) {
        return Ok(());
    }
    found.push(formula)?;
    Ok(())
}

/// Whether the formula is decided once the first `count` variables have objects, and not before.
fn is_first_decided(formula: &Formula, count: usize) -> bool
    ensures { result ≡ literals.is_first_decided count (formula_of formula.now) }
{
    is_decided(formula, count) && (count == 0 || !is_decided(formula, count - 1))
}

/// Whether the formula is an atom, an equality, or the negation of one, with all variables among the first `count`.
fn is_decided(formula: &Formula, count: usize) -> bool
    ensures { result ≡ literals.is_decided count (formula_of formula.now) }
{
    match formula {
        Formula::Not(part) => are_bound(part, count),
        _ => are_bound(formula, count),
    }
}

/// Whether the formula is an atom or an equality with all variables among the first `count`.
fn are_bound(formula: &Formula, count: usize) -> bool
    ensures { result ≡ enumeration.are_bound count (formula_of formula.now) }
{
    match formula {
        Formula::Atom(atom) => all_bound(atom.terms.as_slice(), count),
        Formula::Equal(first, second) => is_bound(first, count) && is_bound(second, count),
        _ => false,
    }
}

/// Whether each variable in the terms is one of the first `count`.
fn all_bound(terms: &[Term], count: usize) -> bool
    ensures { result ≡ list_all (enumeration.is_bound count) (map term_of terms.now) }
{
    for term in terms {
        if !is_bound(term, count) {
            return false;
        }
    }
    true
}

/// Whether the term, if it is a variable, is one of the first `count`.
pub(crate) fn is_bound(term: &Term, count: usize) -> bool
    ensures { result ≡ enumeration.is_bound count (term_of term.now) }
{
    match term {
        Term::Variable(variable) => variable.0 < count,
        Term::Object(_) => true,
    }
}

//! Formulas: from names to numbers.
ghost use Rattle.std.specs.Prelude.{◌≡◌, ◌++◌, map, IfOk, OnOk};
ghost use Rattle.std.specs.List.{flat_map};
ghost use Rattle.task.specs.TaskParts as parts;
ghost use Rattle.typing.specs.Resolver.{file_in, known_to};
ghost use Rattle.typing.specs.QuantifiedNames.{declared_names, quantified_names};
ghost use Rattle.typing.specs.Scope.{BeginsWith, names_in};
ghost use Rattle.typing.specs.Walk.{Finds};
ghost use Rattle.pddl_tree.specs.Tree as read;
ghost use Rattle.model.specs.Task as task;
ghost use Rattle.model.specs.Typing as typing;

use crate::resolver::Resolver;
use crate::typed_lists::{Declared, collect};
use crate::variables::declare_variables;
use faults::NoMemory;
use pddl_tree as tree;
use pddl_tree::Group;
use std::alloc::Global;
use std::mem::replace;
use task::{Formula, TypeUnion};

/// An atom as a formula.
fn atom(resolver: &mut Resolver<'_>, atom: &tree::Atom<'_>) -> Result<Formula, NoMemory>
    ensures value { IfOk result (λ f. parts.formula_of f ≡ task.atom (typing.lifted_atom_in (known_to resolver.old) (read.atom_of atom.now))) }
    ensures finds { OnOk result (Finds resolver.old.walk resolver.new.walk (typing.atom_faults (file_in resolver.old) (known_to resolver.old) (read.atom_of atom.now))) }
    ensures globals { OnOk result (resolver.new.globals ≡ resolver.old.globals) }
    ensures variables { OnOk result (resolver.new.variables.entries ≡ resolver.old.variables.entries) }
    ensures names { OnOk result (resolver.new.names.items ≡ resolver.old.names.items) }
{
    let scope = resolver.globals.with(&resolver.variables);
    Ok(Formula::Atom(scope.lifted_atom(&mut resolver.walk, atom)?))
}

/// An equality.
fn equality(
    resolver: &mut Resolver<'_>,
    left: &tree::Term<'_>,
    right: &tree::Term<'_>,
) -> Result<Formula, NoMemory>
    ensures value { IfOk result (λ f. parts.formula_of f
        ≡ task.equal (typing.term_in (known_to resolver.old) (read.term_of left.now)) (typing.term_in (known_to resolver.old) (read.term_of right.now))) }
    ensures finds { OnOk result (Finds resolver.old.walk resolver.new.walk
        (typing.term_faults (file_in resolver.old) (known_to resolver.old) (read.term_of left.now)
        ++ typing.term_faults (file_in resolver.old) (known_to resolver.old) (read.term_of right.now))) }
    ensures globals { OnOk result (resolver.new.globals ≡ resolver.old.globals) }
    ensures variables { OnOk result (resolver.new.variables.entries ≡ resolver.old.variables.entries) }
    ensures names { OnOk result (resolver.new.names.items ≡ resolver.old.names.items) }
{
    let scope = resolver.globals.with(&resolver.variables);
    let left = scope.term(&mut resolver.walk, left)?;
    let right = scope.term(&mut resolver.walk, right)?;
    Ok(Formula::Equal(left, right))
}

/// An implication.
fn imply(alloc: Global, premise: Formula, conclusion: Formula) -> Result<Formula, NoMemory>
    ensures { IfOk result (λ f. parts.formula_of f ≡ task.imply (parts.formula_of premise) (parts.formula_of conclusion)) }
{
    let premise = Box::new(alloc, premise)?;
    let conclusion = Box::new(alloc, conclusion)?;
    Ok(Formula::Imply(premise, conclusion))
}

/// A negation.
fn negation(alloc: Global, part: Formula) -> Result<Formula, NoMemory>
    ensures { IfOk result (λ f. parts.formula_of f ≡ task.not (parts.formula_of part)) }
{
    Ok(Formula::Not(Box::new(alloc, part)?))
}

/// Nested `exists`, one for each variable of these types, the first outermost.
fn exists_each(alloc: Global, unions: Vec<TypeUnion>, part: Formula) -> Result<Formula, NoMemory>
    ensures { IfOk result (λ f. parts.formula_of f ≡ typing.exists_each (map parts.union_of unions.items) (parts.formula_of part)) }
{
    let mut left = unions;
    let mut formula = part;
    while let Some(types) = left.pop() {
        formula = Formula::Exists(types, Box::new(alloc, formula)?);
    }
    Ok(formula)
}

/// The `exists` of a file over variables of these types; over no variable, a disjunction of the single part.
fn exists_over(alloc: Global, unions: Vec<TypeUnion>, part: Formula) -> Result<Formula, NoMemory>
    ensures { IfOk result (λ f. parts.formula_of f ≡ typing.exists_over (map parts.union_of unions.items) (parts.formula_of part)) }
{
    if unions.is_empty() {
        Ok(Formula::Or(vec![in alloc; part]?))
    } else {
        exists_each(alloc, unions, part)
    }
}

/// Nested `forall`, one for each variable of these types, the first outermost.
fn forall_each(alloc: Global, unions: Vec<TypeUnion>, part: Formula) -> Result<Formula, NoMemory>
    ensures { IfOk result (λ f. parts.formula_of f ≡ typing.forall_each (map parts.union_of unions.items) (parts.formula_of part)) }
{
    let mut left = unions;
    let mut formula = part;
    while let Some(types) = left.pop() {
        formula = Formula::Forall(types, Box::new(alloc, formula)?);
    }
    Ok(formula)
}

/// The `forall` of a file over variables of these types; over no variable, a conjunction of the single part.
fn forall_over(alloc: Global, unions: Vec<TypeUnion>, part: Formula) -> Result<Formula, NoMemory>
    ensures { IfOk result (λ f. parts.formula_of f ≡ typing.forall_over (map parts.union_of unions.items) (parts.formula_of part)) }
{
    if unions.is_empty() {
        Ok(Formula::And(vec![in alloc; part]?))
    } else {
        forall_each(alloc, unions, part)
    }
}

/// Adds the names of the variables, as in the file.
fn add_names(
    alloc: Global,
    declared: &[Declared<'_>],
    names: &mut Vec<Vec<u8>>,
) -> Result<(), NoMemory>
    ensures { OnOk result (names_in names.new.items ≡ names_in names.old.items ++ map (λ d. d.placed.name.text.now) declared.now) }
{
    for one in declared {
        names.push(Vec::from_slice(alloc, one.placed.name.text)?)?;
    }
    Ok(())
}

/// Brings the variables of a quantifier or of an effect's `forall` into scope. Returns their types.
pub fn enter(
    resolver: &mut Resolver<'_>,
    groups: &Vec<Group<'_>>,
) -> Result<Vec<TypeUnion>, NoMemory>
    ensures unions { IfOk result (λ v. map parts.union_of v.items
        ≡ typing.unions_in (known_to resolver.old).type_names (typing.declared (file_in resolver.old) (read.groups_of groups.now))) }
    ensures known { OnOk result (known_to resolver.new
        ≡ typing.known_with (known_to resolver.old) (typing.declared (file_in resolver.old) (read.groups_of groups.now))) }
    ensures globals { OnOk result (resolver.new.globals ≡ resolver.old.globals) }
    ensures kept { OnOk result (BeginsWith resolver.old.variables.entries resolver.new.variables.entries) }
    ensures finds { OnOk result (Finds resolver.old.walk resolver.new.walk
        (typing.variable_faults (known_to resolver.old).type_names (known_to resolver.old).variables (typing.declared (file_in resolver.old) (read.groups_of groups.now)))) }
    ensures names { OnOk result (names_in resolver.new.names.items ≡ names_in resolver.old.names.items ++ declared_names (read.groups_of groups.now)) }
{
    let groups = groups.as_slice();
    let alloc = resolver.walk.alloc;
    let types = resolver.globals.types;
    let list = collect(alloc, resolver.globals.file, groups)?;
    let declared = list.as_slice();
    let unions = types.unions(alloc, &mut resolver.walk.folded, declared)?;
    declare_variables(&mut resolver.walk, types, &mut resolver.variables, declared)?;
    add_names(alloc, declared, &mut resolver.names)?;
    Ok(unions)
}

/// The types of a quantifier's variables, and its part, in which they are in scope.
#[derive(Drop)]
struct Quantified {
    unions: Vec<TypeUnion>,
    part: Formula,
}

/// The variables and the part of a quantifier. The variables are in scope only in the part.
#[cycle(formulas)]
fn quantifier(
    resolver: &mut Resolver<'_>,
    groups: &Vec<Group<'_>>,
    part: &tree::Formula<'_>,
) -> Result<Quantified, NoMemory>
    ensures unions { IfOk result (λ q. map parts.union_of q.unions.items
        ≡ typing.unions_in (known_to resolver.old).type_names (typing.declared (file_in resolver.old) (read.groups_of groups.now))) }
    ensures part { IfOk result (λ q. parts.formula_of q.part ≡ typing.formula_in (file_in resolver.old)
        (typing.known_with (known_to resolver.old) (typing.declared (file_in resolver.old) (read.groups_of groups.now))) (read.formula_of part.now)) }
    ensures finds { OnOk result (Finds resolver.old.walk resolver.new.walk
        (typing.variable_faults (known_to resolver.old).type_names (known_to resolver.old).variables (typing.declared (file_in resolver.old) (read.groups_of groups.now))
        ++ typing.formula_faults (file_in resolver.old)
        (typing.known_with (known_to resolver.old) (typing.declared (file_in resolver.old) (read.groups_of groups.now))) (read.formula_of part.now))) }
    ensures globals { OnOk result (resolver.new.globals ≡ resolver.old.globals) }
    ensures variables { OnOk result (resolver.new.variables.entries ≡ resolver.old.variables.entries) }
    ensures names { OnOk result (names_in resolver.new.names.items
        ≡ names_in resolver.old.names.items ++ (declared_names (read.groups_of groups.now) ++ quantified_names (read.formula_of part.now))) }
{
    let before = resolver.variables.len();
    let unions = enter(resolver, groups)?;
    let part = formula(resolver, part)?;
    resolver.variables.truncate(before);
    Ok(Quantified { unions, part })
}

/// The parts of a conjunction or a disjunction.
#[cycle(formulas)]
fn several(
    resolver: &mut Resolver<'_>,
    given: &[tree::Formula<'_>],
) -> Result<Vec<Formula>, NoMemory>
    ensures value { IfOk result (λ v. map parts.formula_of v.items
        ≡ map (λ x. typing.formula_in (file_in resolver.old) (known_to resolver.old) (read.formula_of x)) given.now) }
    ensures finds { OnOk result (Finds resolver.old.walk resolver.new.walk
        (flat_map (λ x. typing.formula_faults (file_in resolver.old) (known_to resolver.old) (read.formula_of x)) given.now)) }
    ensures globals { OnOk result (resolver.new.globals ≡ resolver.old.globals) }
    ensures variables { OnOk result (resolver.new.variables.entries ≡ resolver.old.variables.entries) }
    ensures names { OnOk result (names_in resolver.new.names.items
        ≡ names_in resolver.old.names.items ++ flat_map (λ x. quantified_names (read.formula_of x)) given.now) }
{
    let mut resolved = Vec::with_capacity(resolver.walk.alloc, given.len())?;
    for part in given {
        resolved.push(formula(resolver, part)?)?;
    }
    Ok(resolved)
}

/// A precondition or a goal, with the names of its quantified variables.
#[derive(Drop)]
pub struct FormulaWithNames {
    /// The formula.
    pub formula: Formula,
    /// The names of its quantified variables, as in the file, in textual order.
    pub names: Vec<Vec<u8>>,
}

/// A precondition or a goal, with the names of its quantified variables. Afterwards exactly the same variables are in scope again.
pub fn condition(
    resolver: &mut Resolver<'_>,
    given: &tree::Formula<'_>,
) -> Result<FormulaWithNames, NoMemory>
    ensures value { IfOk result (λ c. parts.formula_of c.formula
        ≡ typing.formula_in (file_in resolver.old) (known_to resolver.old) (read.formula_of given.now)) }
    ensures names { IfOk result (λ c. names_in c.names.items ≡ quantified_names (read.formula_of given.now)) }
    ensures finds { OnOk result (Finds resolver.old.walk resolver.new.walk
        (typing.formula_faults (file_in resolver.old) (known_to resolver.old) (read.formula_of given.now))) }
    ensures globals { OnOk result (resolver.new.globals ≡ resolver.old.globals) }
    ensures variables { OnOk result (resolver.new.variables.entries ≡ resolver.old.variables.entries) }
{
    resolver.names.clear();
    let formula = formula(resolver, given)?;
    let names = replace(&mut resolver.names, Vec::new(resolver.walk.alloc));
    Ok(FormulaWithNames { formula, names })
}

/// A formula. Afterwards exactly the same variables are in scope again.
#[cycle(formulas)]
pub fn formula(resolver: &mut Resolver<'_>, given: &tree::Formula<'_>) -> Result<Formula, NoMemory>
    ensures value { IfOk result (λ f. parts.formula_of f
        ≡ typing.formula_in (file_in resolver.old) (known_to resolver.old) (read.formula_of given.now)) }
    ensures finds { OnOk result (Finds resolver.old.walk resolver.new.walk
        (typing.formula_faults (file_in resolver.old) (known_to resolver.old) (read.formula_of given.now))) }
    ensures globals { OnOk result (resolver.new.globals ≡ resolver.old.globals) }
    ensures variables { OnOk result (resolver.new.variables.entries ≡ resolver.old.variables.entries) }
    ensures names { OnOk result (names_in resolver.new.names.items
        ≡ names_in resolver.old.names.items ++ quantified_names (read.formula_of given.now)) }
{
    match given {
        tree::Formula::Atom(given) => atom(resolver, given),
        tree::Formula::Equal(left, right) => equality(resolver, left, right),
        tree::Formula::And(parts) => {
            let parts = several(resolver, parts)?;
            Ok(Formula::And(parts))
        }
        tree::Formula::Or(parts) => {
            let parts = several(resolver, parts)?;
            Ok(Formula::Or(parts))
        }
        tree::Formula::Not(part) => {
            let part = formula(resolver, part)?;
            negation(resolver.walk.alloc, part)
        }
        tree::Formula::Imply(premise, conclusion) => {
            let premise = formula(resolver, premise)?;
            let conclusion = formula(resolver, conclusion)?;
            imply(resolver.walk.alloc, premise, conclusion)
        }
        tree::Formula::Exists(groups, part) => {
            let inner = quantifier(resolver, groups, part)?;
            exists_over(resolver.walk.alloc, inner.unions, inner.part)
        }
        tree::Formula::Forall(groups, part) => {
            let inner = quantifier(resolver, groups, part)?;
            forall_over(resolver.walk.alloc, inner.unions, inner.part)
        }
    }
}

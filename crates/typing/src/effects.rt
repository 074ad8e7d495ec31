//! Effects: from names to numbers.
ghost use Rattle.std.specs.Prelude.{◌≡◌, ◌++◌, map, IfOk, OnOk};
ghost use Rattle.std.specs.List.{flat_map};
ghost use Rattle.task.specs.TaskParts as parts;
ghost use Rattle.typing.specs.Resolver.{file_in, known_to};
ghost use Rattle.typing.specs.Scope.{known_of};
ghost use Rattle.typing.specs.Task.{file_of};
ghost use Rattle.typing.specs.Walk.{Finds};
ghost use Rattle.pddl_tree.specs.Tree as read;
ghost use Rattle.model.specs.Task as task;
ghost use Rattle.model.specs.Typing as typing;

use crate::formulas::{enter, formula};
use crate::resolver::Resolver;
use crate::scope::Scope;
use crate::walk::Walk;
use faults::NoMemory;
use pddl_tree as tree;
use pddl_tree::Group;
use std::alloc::Global;
use task::{Effect, EffectLiteral, TypeUnion};

/// A literal of an effect.
fn literal(
    walk: &mut Walk,
    scope: &Scope<'_>,
    given: &tree::EffectLiteral<'_>,
) -> Result<EffectLiteral, NoMemory>
    ensures value { IfOk result (λ l. parts.effect_literal_of l
        ≡ typing.effect_literal_in (known_of scope.now) (read.effect_literal_of given.now)) }
    ensures finds { OnOk result (Finds walk.old walk.new
        (typing.effect_literal_faults (file_of scope.now.globals.now.file) (known_of scope.now) (read.effect_literal_of given.now))) }
{
    match given {
        tree::EffectLiteral::Add(atom) => { Ok(EffectLiteral::Add(scope.lifted_atom(walk, atom)?)) }
        tree::EffectLiteral::Delete(atom) => {
            Ok(EffectLiteral::Delete(scope.lifted_atom(walk, atom)?))
        }
    }
}

/// A literal as an effect.
fn lone(resolver: &mut Resolver<'_>, given: &tree::EffectLiteral<'_>) -> Result<Effect, NoMemory>
    ensures value { IfOk result (λ e. parts.effect_of e
        ≡ task.literal (typing.effect_literal_in (known_to resolver.old) (read.effect_literal_of given.now))) }
    ensures finds { OnOk result (Finds resolver.old.walk resolver.new.walk
        (typing.effect_literal_faults (file_in resolver.old) (known_to resolver.old) (read.effect_literal_of given.now))) }
    ensures globals { OnOk result (resolver.new.globals ≡ resolver.old.globals) }
    ensures variables { OnOk result (resolver.new.variables.entries ≡ resolver.old.variables.entries) }
{
    let scope = resolver.globals.with(&resolver.variables);
    Ok(Effect::Literal(literal(&mut resolver.walk, &scope, given)?))
}

/// The literals under a condition.
fn literals(
    walk: &mut Walk,
    scope: &Scope<'_>,
    given: &[tree::EffectLiteral<'_>],
) -> Result<Vec<EffectLiteral>, NoMemory>
    ensures value { IfOk result (λ v. map parts.effect_literal_of v.items
        ≡ map (λ l. typing.effect_literal_in (known_of scope.now) (read.effect_literal_of l)) given.now) }
    ensures finds { OnOk result (Finds walk.old walk.new
        (flat_map (λ l. typing.effect_literal_faults (file_of scope.now.globals.now.file) (known_of scope.now) (read.effect_literal_of l)) given.now)) }
{
    let mut resolved = Vec::with_capacity(walk.alloc, given.len())?;
    for one in given {
        resolved.push(literal(walk, scope, one)?)?;
    }
    Ok(resolved)
}

/// Literals under a condition.
fn conditional(
    resolver: &mut Resolver<'_>,
    condition: &tree::Formula<'_>,
    given: &Vec<tree::EffectLiteral<'_>>,
) -> Result<Effect, NoMemory>
    ensures value { IfOk result (λ e. parts.effect_of e ≡ task.when
        (typing.formula_in (file_in resolver.old) (known_to resolver.old) (read.formula_of condition.now))
        (map (typing.effect_literal_in (known_to resolver.old)) (map read.effect_literal_of given.now.items))) }
    ensures finds { OnOk result (Finds resolver.old.walk resolver.new.walk
        (typing.formula_faults (file_in resolver.old) (known_to resolver.old) (read.formula_of condition.now)
        ++ flat_map (typing.effect_literal_faults (file_in resolver.old) (known_to resolver.old)) (map read.effect_literal_of given.now.items))) }
    ensures globals { OnOk result (resolver.new.globals ≡ resolver.old.globals) }
    ensures variables { OnOk result (resolver.new.variables.entries ≡ resolver.old.variables.entries) }
{
    let given = given.as_slice();
    let condition = formula(resolver, condition)?;
    let scope = resolver.globals.with(&resolver.variables);
    let literals = literals(&mut resolver.walk, &scope, given)?;
    Ok(Effect::When(condition, literals))
}

/// Nested `forall`, one for each variable of these types, the first outermost.
fn each_of(alloc: Global, unions: Vec<TypeUnion>, part: Effect) -> Result<Effect, NoMemory>
    ensures { IfOk result (λ e. parts.effect_of e ≡ typing.each_of (map parts.union_of unions.items) (parts.effect_of part)) }
{
    let mut left = unions;
    let mut effect = part;
    while let Some(types) = left.pop() {
        effect = Effect::Forall(types, Box::new(alloc, effect)?);
    }
    Ok(effect)
}

/// The types of a `forall`'s variables, and its part, in which they are in scope.
#[derive(Drop)]
struct Universal {
    unions: Vec<TypeUnion>,
    part: Effect,
}

/// The variables and the part of a `forall`. The variables are in scope only in the part.
#[cycle(effects)]
fn each(
    resolver: &mut Resolver<'_>,
    groups: &Vec<Group<'_>>,
    part: &tree::Effect<'_>,
) -> Result<Universal, NoMemory>
    ensures unions { IfOk result (λ q. map parts.union_of q.unions.items
        ≡ typing.unions_in (known_to resolver.old).type_names (typing.declared (file_in resolver.old) (read.groups_of groups.now))) }
    ensures part { IfOk result (λ q. parts.effect_of q.part ≡ typing.effect_in (file_in resolver.old)
        (typing.known_with (known_to resolver.old) (typing.declared (file_in resolver.old) (read.groups_of groups.now))) (read.effect_of part.now)) }
    ensures finds { OnOk result (Finds resolver.old.walk resolver.new.walk
        (typing.variable_faults (known_to resolver.old).type_names (known_to resolver.old).variables (typing.declared (file_in resolver.old) (read.groups_of groups.now))
        ++ typing.effect_faults (file_in resolver.old)
        (typing.known_with (known_to resolver.old) (typing.declared (file_in resolver.old) (read.groups_of groups.now))) (read.effect_of part.now))) }
    ensures globals { OnOk result (resolver.new.globals ≡ resolver.old.globals) }
    ensures variables { OnOk result (resolver.new.variables.entries ≡ resolver.old.variables.entries) }
{
    let before = resolver.variables.len();
    let unions = enter(resolver, groups)?;
    let part = effect(resolver, part)?;
    resolver.variables.truncate(before);
    Ok(Universal { unions, part })
}

/// Several effects together.
#[cycle(effects)]
fn several(resolver: &mut Resolver<'_>, given: &[tree::Effect<'_>]) -> Result<Vec<Effect>, NoMemory>
    ensures value { IfOk result (λ v. map parts.effect_of v.items
        ≡ map (λ x. typing.effect_in (file_in resolver.old) (known_to resolver.old) (read.effect_of x)) given.now) }
    ensures finds { OnOk result (Finds resolver.old.walk resolver.new.walk
        (flat_map (λ x. typing.effect_faults (file_in resolver.old) (known_to resolver.old) (read.effect_of x)) given.now)) }
    ensures globals { OnOk result (resolver.new.globals ≡ resolver.old.globals) }
    ensures variables { OnOk result (resolver.new.variables.entries ≡ resolver.old.variables.entries) }
{
    let mut resolved = Vec::with_capacity(resolver.walk.alloc, given.len())?;
    for part in given {
        resolved.push(effect(resolver, part)?)?;
    }
    Ok(resolved)
}

/// An effect. Afterwards exactly the same variables are in scope again.
#[cycle(effects)]
pub(crate) fn effect(
    resolver: &mut Resolver<'_>,
    given: &tree::Effect<'_>,
) -> Result<Effect, NoMemory>
    ensures value { IfOk result (λ e. parts.effect_of e
        ≡ typing.effect_in (file_in resolver.old) (known_to resolver.old) (read.effect_of given.now)) }
    ensures finds { OnOk result (Finds resolver.old.walk resolver.new.walk
        (typing.effect_faults (file_in resolver.old) (known_to resolver.old) (read.effect_of given.now))) }
    ensures globals { OnOk result (resolver.new.globals ≡ resolver.old.globals) }
    ensures variables { OnOk result (resolver.new.variables.entries ≡ resolver.old.variables.entries) }
{
    match given {
        tree::Effect::Literal(given) => lone(resolver, given),
        tree::Effect::And(parts) => {
            let parts = several(resolver, parts)?;
            Ok(Effect::And(parts))
        }
        tree::Effect::Forall(groups, part) => {
            let inner = each(resolver, groups, part)?;
            each_of(resolver.walk.alloc, inner.unions, inner.part)
        }
        tree::Effect::When(condition, given) => { conditional(resolver, condition, given) }
    }
}

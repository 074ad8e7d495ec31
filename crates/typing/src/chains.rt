//! The types of a domain and their chains of parents, up to `object`.
ghost use Rattle.std.specs.Prelude.{◌≡◌, ◌≤◌, ◌<◌, ◌+◌, [], if◌then◌else◌, length, map, slice_index, IfErr, IfOk, OnOk};
ghost use Rattle.task.specs.TaskParts as parts;
ghost use Rattle.typing.specs.TypedLists.{declared_of};
ghost use Rattle.typing.specs.Scope.{keys_in};
ghost use Rattle.typing.specs.Task.{ReportsAll};
ghost use Rattle.typing.specs.Chains.{AreTypes, cycles};
ghost use Rattle.typing.specs.Declarations.{type_faults_of, AreTypesOf};
ghost use Rattle.typing.specs.Walk.{Finds};
ghost use Rattle.pddl_tree.specs.Tree as read;
ghost use Rattle.model.specs.Typing as typing;

use crate::domain;
use crate::fault::PairFault;
use crate::type_names::TypeTable;
use crate::typed_lists::{Declared, collect};
use crate::walk::Walk;
use faults::{Code, NoMemory};
use indexmap::IndexMap;
use pddl_tree::{Domain, Problem, TaskFile};
use std::alloc::Global;
use task::TypeId;

/// The parent of a type; `object` if there is no such type.
fn parent(parents: &[TypeId], id: TypeId) -> TypeId
    ensures { result.0 ≡ slice_index (map parts.type_of parents.now) id.0 }
{
    match parents.get(id.0 as usize) {
        Some(parent) => *parent,
        None => TypeId(0),
    }
}

/// A type and its ancestors, up to `object`. A cyclic chain is cut off when its length is the number of types.
fn chain(alloc: Global, parents: &[TypeId], id: TypeId) -> Result<Vec<TypeId>, NoMemory>
    ensures { IfOk result (λ v. map parts.type_of v.items ≡ typing.whole_chain (map parts.type_of parents.now) id.0) }
{
    let mut chain = Vec::new(alloc);
    let mut next = id;
    for _ in 0..parents.len() {
        chain.push(next)?;
        if next.0 == 0 {
            return Ok(chain);
        }
        next = parent(parents, next);
    }
    Ok(chain)
}

/// Whether the type is on the chain of its own parent.
fn comes_back(alloc: Global, parents: &[TypeId], id: TypeId) -> Result<bool, NoMemory>
    ensures { IfOk result (λ b. b ≡ typing.comes_back (map parts.type_of parents.now) id.0) }
{
    let chain = chain(alloc, parents, parent(parents, id))?;
    Ok(chain.contains(&id))
}

/// Refuses a type that is its own ancestor.
fn check_cycle(
    walk: &mut Walk,
    parents: &[TypeId],
    id: TypeId,
    declared: &Declared<'_>,
) -> Result<(), NoMemory>
    ensures { OnOk result (Finds walk.old walk.new (if typing.comes_back (map parts.type_of parents.now) id.0 then typing.refused_word (declared_of declared.now).file 15 (declared_of declared.now).name else [])) }
{
    if comes_back(walk.alloc, parents, id)? {
        walk.refuse(declared.placed.file, Code::TypeCycle, &declared.placed.name);
    }
    Ok(())
}

/// Refuses the types that are their own ancestors.
fn check_cycles(
    walk: &mut Walk,
    parents: &[TypeId],
    declared: &[Declared<'_>],
) -> Result<(), NoMemory>
    requires { length declared.now ≤ 4095 }
    ensures { OnOk result (Finds walk.old walk.new (typing.cycle_faults_from (map parts.type_of parents.now) 1 (map declared_of declared.now))) }
{
    for index in 0..declared.len() {
        let id = TypeId((index + 1) as u16);
        check_cycle(walk, parents, id, &declared[index])?;
    }
    Ok(())
}

/// Fills in the supertypes of each type.
fn fill(
    alloc: Global,
    parents: &[TypeId],
    types: &mut IndexMap<Vec<u8>, Vec<TypeId>>,
) -> Result<(), NoMemory>
    requires { length types.old.entries ≤ 4096 }
    ensures names { OnOk result (keys_in types.new.entries ≡ keys_in types.old.entries) }
    ensures types { OnOk result (map parts.type_entry_of types.new.entries ≡ typing.types_from (map parts.type_of parents.now) 0 (keys_in types.old.entries)) }
{
    let count = types.len();
    for index in 0..count {
        let supertypes = chain(alloc, parents, TypeId(index as u16))?;
        types[index] = supertypes;
    }
    Ok(())
}

/// The types with these names, each with its supertypes, if no chain is cyclic.
fn filled(
    alloc: Global,
    names: TypeTable,
    declared: &[Declared<'_>],
) -> Result<TypeTable, PairFault>
    requires { length declared.now ≤ 4095 }
    ensures ok { IfOk result (λ t. AreTypes (keys_in names.by_name.entries) (map declared_of declared.now) t.by_name.entries) }
    ensures err { IfErr result (ReportsAll (cycles (keys_in names.by_name.entries) (map declared_of declared.now))) }
{
    let mut walk = Walk::new(alloc)?;
    let list = names.parents(alloc, &mut walk.folded, declared)?;
    let parents = list.as_slice();
    check_cycles(&mut walk, parents, declared)?;
    let mut by_name = names.by_name;
    fill(alloc, parents, &mut by_name)?;
    walk.finish(TypeTable { by_name })
}

/// The types that a domain declares, after checking that the problem is for this domain.
pub fn types(
    alloc: Global,
    domain: &Domain<'_>,
    problem: &Problem<'_>,
) -> Result<TypeTable, PairFault>
    ensures ok { IfOk result
        (λ t. (type_faults_of (read.domain_of domain.now) (read.problem_of problem.now) ≡ []) × AreTypesOf (read.domain_of domain.now) t) }
    ensures err { IfErr result (ReportsAll (type_faults_of (read.domain_of domain.now) (read.problem_of problem.now))) }
{
    let groups = domain.types.as_slice();
    let list = collect(alloc, TaskFile::Domain, groups)?;
    let declared = list.as_slice();
    let names = domain::names(alloc, domain, problem, declared)?;
    filled(alloc, names, declared)
}

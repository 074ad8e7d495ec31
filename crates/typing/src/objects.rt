//! The domain's constants and the problem's objects, and their types.
ghost use Rattle.std.specs.Prelude.{◌≡◌, ◌≤◌, [], ◌++◌, length, map, take, IfErr, IfOk, OnOk};
ghost use Rattle.task.specs.TaskParts as parts;
ghost use Rattle.typing.specs.TypedLists.{declared_of};
ghost use Rattle.typing.specs.DeclaredObjects.{AreMade, AreObjects};
ghost use Rattle.typing.specs.Scope.{keys_in};
ghost use Rattle.typing.specs.Task.{ReportsAll};
ghost use Rattle.typing.specs.Walk.{Finds};
ghost use Rattle.pddl_tree.specs.Tree as read;
ghost use Rattle.model.specs.Trees.{domain_file, problem_file};
ghost use Rattle.model.specs.Typing as typing;

use crate::domain::declare;
use crate::fault::PairFault;
use crate::names::DeclaredObjects;
use crate::type_names::TypeTable;
use crate::typed_lists::{Declared, add, limit};
use crate::types::check_all;
use crate::walk::Walk;
use faults::NoMemory;
use indexmap::IndexMap;
use pddl_tree::{Domain, Group, Problem, TaskFile};
use std::alloc::Global;
use task::{MAX_OBJECTS, TypeId};

/// The declared objects.
fn table(
    walk: &mut Walk,
    types: &TypeTable,
    declared: &[Declared<'_>],
) -> Result<IndexMap<Vec<u8>, TypeId>, NoMemory>
    ensures table { IfOk result (λ m. typing.repeated (typing.words_of (map declared_of declared.now)) ≡ []
        → map parts.object_entry_of m.entries ≡ map (typing.object_in (keys_in types.now.by_name.entries)) (map declared_of declared.now)) }
    ensures finds { OnOk result (Finds walk.old walk.new (typing.refused 16 (typing.repeated (typing.words_of (map declared_of declared.now))))) }
{
    let mut objects = IndexMap::new(walk.alloc);
    for one in declared {
        let of_type = types.declared_type(&mut walk.folded, one.types)?;
        declare(walk, &mut objects, one.placed, of_type)?;
    }
    Ok(objects)
}

/// All declared objects.
fn all(
    alloc: Global,
    types: &TypeTable,
    declared: &[Declared<'_>],
) -> Result<IndexMap<Vec<u8>, TypeId>, PairFault>
    ensures ok { IfOk result (λ m. (typing.objects_faults (keys_in types.now.by_name.entries) (map declared_of declared.now) ≡ [])
        × ((map parts.object_entry_of m.entries ≡ map (typing.object_in (keys_in types.now.by_name.entries)) (map declared_of declared.now)) × (length m.entries ≤ 65535))) }
    ensures err { IfErr result (ReportsAll (typing.objects_faults (keys_in types.now.by_name.entries) (map declared_of declared.now))) }
{
    let mut walk = Walk::new(alloc)?;
    check_all(&mut walk, &types.by_name, declared)?;
    let objects = table(&mut walk, types, declared)?;
    limit(&mut walk, declared, MAX_OBJECTS);
    walk.finish(objects)
}

/// The declared objects; the first `count` are the constants.
fn made(
    alloc: Global,
    types: &TypeTable,
    declared: &[Declared<'_>],
    count: usize,
) -> Result<DeclaredObjects, PairFault>
    requires { count ≤ length declared.now }
    ensures ok { IfOk result (AreMade (keys_in types.now.by_name.entries) (take count (map declared_of declared.now)) (map declared_of declared.now)) }
    ensures err { IfErr result (ReportsAll (typing.objects_faults (keys_in types.now.by_name.entries) (map declared_of declared.now))) }
{
    let all = all(alloc, types, declared)?;
    let (first, _) = declared.split_at(count);
    let constants = table(&mut Walk::new(alloc)?, types, first)?;
    Ok(DeclaredObjects { constants, all })
}

/// The constants and objects declared in these lists.
fn of_lists<'t>(
    alloc: Global,
    types: &TypeTable,
    constants: &'t [Group<'t>],
    objects: &'t [Group<'t>],
) -> Result<DeclaredObjects, PairFault>
    ensures ok { IfOk result (AreMade (keys_in types.now.by_name.entries) (typing.declared domain_file (map read.group_of constants.now))
        (typing.declared domain_file (map read.group_of constants.now) ++ typing.declared problem_file (map read.group_of objects.now))) }
    ensures err { IfErr result (ReportsAll (typing.objects_faults (keys_in types.now.by_name.entries)
        (typing.declared domain_file (map read.group_of constants.now) ++ typing.declared problem_file (map read.group_of objects.now)))) }
{
    let mut list = Vec::new(alloc);
    add(&mut list, TaskFile::Domain, constants)?;
    let count = list.len();
    add(&mut list, TaskFile::Problem, objects)?;
    made(alloc, types, list.as_slice(), count)
}

/// The constants and the objects of a domain and a problem.
pub fn of_pair(
    alloc: Global,
    types: &TypeTable,
    domain: &Domain<'_>,
    problem: &Problem<'_>,
) -> Result<DeclaredObjects, PairFault>
    ensures ok { IfOk result (AreObjects (keys_in types.now.by_name.entries) (read.domain_of domain.now) (read.problem_of problem.now)) }
    ensures err { IfErr result (ReportsAll (typing.objects_faults (keys_in types.now.by_name.entries) (typing.declared_objects (read.domain_of domain.now) (read.problem_of problem.now)))) }
{
    let constants = domain.constants.as_slice();
    let objects = problem.objects.as_slice();
    of_lists(alloc, types, constants, objects)
}

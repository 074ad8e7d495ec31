//! The domain's declarations of names with arguments: predicates and functions.
ghost use Rattle.std.specs.Prelude.{◌≡◌, [], fold, map, IfErr, IfOk, OnOk};
ghost use Rattle.task.specs.TaskParts as parts;
ghost use Rattle.typing.specs.Scope.{keys_in};
ghost use Rattle.typing.specs.Task.{ReportsAll};
ghost use Rattle.typing.specs.Walk.{Finds};
ghost use Rattle.pddl_tree.specs.Tree as read;
ghost use Rattle.model.specs.Trees.{domain_file};
ghost use Rattle.model.specs.Typing as typing;
ghost use Rattle.std.specs.List.{flat_map};

use crate::domain::declare;
use crate::fault::PairFault;
use crate::type_names::TypeTable;
use crate::typed_lists::{Placed, collect, limit};
use crate::types::check_all;
use crate::walk::Walk;
use faults::NoMemory;
use indexmap::IndexMap;
use pddl_tree::{Domain, Predicate as Declaration, TaskFile};
use std::alloc::Global;
use task::{MAX_ARGUMENTS, Predicate, TypeUnion};

/// The types of each argument of a declaration.
fn arguments(
    alloc: Global,
    room: &mut Vec<u8>,
    types: &TypeTable,
    declaration: &Declaration<'_>,
) -> Result<Vec<TypeUnion>, NoMemory>
    ensures { IfOk result (λ v. map parts.union_of v.items ≡ (typing.predicate_in (keys_in types.now.by_name.entries) (read.predicate_of declaration.now)).arguments) }
{
    let groups = declaration.parameters.as_slice();
    let list = collect(alloc, TaskFile::Domain, groups)?;
    let declared = list.as_slice();
    types.unions(alloc, room, declared)
}

/// The predicates, or functions, declared in a list.
fn table(
    walk: &mut Walk,
    types: &TypeTable,
    declarations: &[Declaration<'_>],
) -> Result<IndexMap<Vec<u8>, Predicate>, NoMemory>
    ensures names { IfOk result (λ m. keys_in m.entries ≡ fold typing.with_name [] (map (λ q. read.name_of q.name) declarations.now)) }
    ensures table { IfOk result (λ m. typing.repeated (map (λ q. typing.placed domain_file (read.name_of q.name)) declarations.now) ≡ []
        → map parts.predicate_of m.entries ≡ map (λ q. typing.predicate_in (keys_in types.now.by_name.entries) (read.predicate_of q)) declarations.now) }
    ensures finds { OnOk result (Finds walk.old walk.new (typing.refused 16 (typing.repeated (map (λ q. typing.placed domain_file (read.name_of q.name)) declarations.now)))) }
{
    let mut predicates = IndexMap::new(walk.alloc);
    for declaration in declarations {
        let placed = Placed {
            file: TaskFile::Domain,
            name: declaration.name,
        };
        let arguments = arguments(walk.alloc, &mut walk.folded, types, declaration)?;
        declare(walk, &mut predicates, placed, Predicate { arguments })?;
    }
    Ok(predicates)
}

/// Refuses the unknown types of a declaration's arguments, and the first argument beyond the limit.
fn check_arguments(
    walk: &mut Walk,
    types: &TypeTable,
    declaration: &Declaration<'_>,
) -> Result<(), NoMemory>
    ensures { OnOk result (Finds walk.old walk.new (typing.argument_faults (keys_in types.now.by_name.entries) (read.predicate_of declaration.now))) }
{
    let groups = declaration.parameters.as_slice();
    let list = collect(walk.alloc, TaskFile::Domain, groups)?;
    let declared = list.as_slice();
    check_all(walk, &types.by_name, declared)?;
    limit(walk, declared, MAX_ARGUMENTS);
    Ok(())
}

/// The same for all declarations.
fn check_declarations(
    walk: &mut Walk,
    types: &TypeTable,
    declarations: &[Declaration<'_>],
) -> Result<(), NoMemory>
    ensures { OnOk result (Finds walk.old walk.new (flat_map (λ q. typing.argument_faults (keys_in types.now.by_name.entries) (read.predicate_of q)) declarations.now)) }
{
    for declaration in declarations {
        check_arguments(walk, types, declaration)?;
    }
    Ok(())
}

/// The predicates, or functions, declared in a list. Their faults are recorded in the walk.
pub(crate) fn declared(
    walk: &mut Walk,
    types: &TypeTable,
    declarations: &[Declaration<'_>],
) -> Result<IndexMap<Vec<u8>, Predicate>, NoMemory>
    ensures names { IfOk result (λ m. typing.names_of_predicates (map parts.predicate_of m.entries) ≡ fold typing.with_name [] (map (λ q. q.name) (map read.predicate_of declarations.now))) }
    ensures table { IfOk result (λ m. typing.declaration_faults (keys_in types.now.by_name.entries) (map read.predicate_of declarations.now) ≡ []
        → map parts.predicate_of m.entries ≡ map (typing.predicate_in (keys_in types.now.by_name.entries)) (map read.predicate_of declarations.now)) }
    ensures finds { OnOk result (Finds walk.old walk.new (typing.declaration_faults (keys_in types.now.by_name.entries) (map read.predicate_of declarations.now))) }
{
    let table = table(walk, types, declarations)?;
    check_declarations(walk, types, declarations)?;
    Ok(table)
}

/// The domain's predicates.
pub fn predicates(
    alloc: Global,
    types: &TypeTable,
    domain: &Domain<'_>,
) -> Result<IndexMap<Vec<u8>, Predicate>, PairFault>
    ensures ok { IfOk result
        (λ m. (typing.declaration_faults (keys_in types.now.by_name.entries) (read.domain_of domain.now).predicates ≡ [])
        × (map parts.predicate_of m.entries ≡ map (typing.predicate_in (keys_in types.now.by_name.entries)) (read.domain_of domain.now).predicates)) }
    ensures err { IfErr result (ReportsAll (typing.declaration_faults (keys_in types.now.by_name.entries) (read.domain_of domain.now).predicates)) }
{
    let mut walk = Walk::new(alloc)?;
    let predicates = declared(&mut walk, types, &domain.predicates)?;
    walk.finish(predicates)
}

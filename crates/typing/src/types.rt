//! The check for unknown types.
ghost use Rattle.std.specs.Prelude.{◌≡◌, map, OnOk};
ghost use Rattle.typing.specs.TypedLists.{declared_of};
ghost use Rattle.typing.specs.Scope.{keys_in};
ghost use Rattle.pddl_tree.specs.Tree.{file_of};
ghost use Rattle.typing.specs.Walk.{Finds};
ghost use Rattle.pddl_tree.specs.Tree as read;
ghost use Rattle.model.specs.Typing as typing;
ghost use Rattle.std.specs.List.{flat_map};

use crate::typed_lists::Declared;
use crate::walk::Walk;
use faults::{Code, NoMemory};
use indexmap::IndexMap;
use pddl_tree::{Name, TaskFile};
use task::TypeId;

/// Refuses a type that is unknown.
fn check_type(
    walk: &mut Walk,
    names: &IndexMap<Vec<u8>, Vec<TypeId>>,
    file: TaskFile,
    name: &Name<'_>,
) -> Result<(), NoMemory>
    ensures { OnOk result (Finds walk.old walk.new (typing.unknown_faults (file_of file) 14 (keys_in names.now.entries) (read.name_of name.now))) }
{
    walk.fold(name)?;
    if !names.contains_key(walk.folded.as_slice()) {
        walk.refuse(file, Code::UnknownType, name);
    }
    Ok(())
}

/// Refuses the unknown types of a declaration.
fn check_types(
    walk: &mut Walk,
    names: &IndexMap<Vec<u8>, Vec<TypeId>>,
    file: TaskFile,
    types: &[Name<'_>],
) -> Result<(), NoMemory>
    ensures { OnOk result (Finds walk.old walk.new (flat_map (typing.unknown_faults (file_of file) 14 (keys_in names.now.entries)) (map read.name_of types.now))) }
{
    for name in types {
        check_type(walk, names, file, name)?;
    }
    Ok(())
}

/// Refuses the unknown types of declarations.
pub fn check_all(
    walk: &mut Walk,
    names: &IndexMap<Vec<u8>, Vec<TypeId>>,
    declared: &[Declared<'_>],
) -> Result<(), NoMemory>
    ensures { OnOk result (Finds walk.old walk.new (typing.type_faults (keys_in names.now.entries) (map declared_of declared.now))) }
{
    for one in declared {
        check_types(walk, names, one.placed.file, one.types)?;
    }
    Ok(())
}

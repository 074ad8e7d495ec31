//! The declarations of typed lists, name by name.
ghost use Rattle.std.specs.Prelude.{◌≡◌, ◌++◌, map, IfOk, OnOk};
ghost use Rattle.typing.specs.TypedLists.{declared_by, declared_of};
ghost use Rattle.pddl_tree.specs.Tree.{file_of};
ghost use Rattle.typing.specs.Walk.{Finds};
ghost use Rattle.pddl_tree.specs.Tree as read;
ghost use Rattle.model.specs.Typing as typing;

use crate::walk::Walk;
use faults::{Code, NoMemory};
use pddl_tree::{Group, Name, TaskFile};
use std::alloc::Global;

/// A name in a file.
#[derive(Clone, Copy)]
pub struct Placed<'t> {
    /// The file.
    pub file: TaskFile,
    /// The name.
    pub name: Name<'t>,
}

/// A name declared in a typed list, with the types after its `-`.
#[derive(Drop)]
pub struct Declared<'t> {
    /// The name.
    pub placed: Placed<'t>,
    /// The types after its `-`; empty if there is no `-`.
    pub types: &'t [Name<'t>],
}

/// The declaration of a name in a group with these types.
fn one<'t>(file: TaskFile, name: &Name<'t>, types: &'t [Name<'t>]) -> Declared<'t>
    ensures { declared_of result ≡ declared_by (file_of file) (map read.name_of types.now) name.now }
{
    Declared {
        placed: Placed { file, name: *name },
        types,
    }
}

/// Appends the declarations of a group.
fn add_group<'t>(
    declared: &mut Vec<Declared<'t>>,
    file: TaskFile,
    names: &'t [Name<'t>],
    types: &'t [Name<'t>],
) -> Result<(), NoMemory>
    ensures { OnOk result (map declared_of declared.new.items ≡ map declared_of declared.old.items ++ map (declared_by (file_of file) (map read.name_of types.now)) names.now) }
{
    for name in names {
        declared.push(one(file, name, types))?;
    }
    Ok(())
}

/// Appends the declarations of a typed list, in order.
pub fn add<'t>(
    declared: &mut Vec<Declared<'t>>,
    file: TaskFile,
    groups: &'t [Group<'t>],
) -> Result<(), NoMemory>
    ensures { OnOk result (map declared_of declared.new.items ≡ map declared_of declared.old.items ++ typing.declared (file_of file) (map read.group_of groups.now)) }
{
    for group in groups {
        add_group(declared, file, &group.names, &group.types)?;
    }
    Ok(())
}

/// The declarations of a typed list, in order.
pub fn collect<'t>(
    alloc: Global,
    file: TaskFile,
    groups: &'t [Group<'t>],
) -> Result<Vec<Declared<'t>>, NoMemory>
    ensures { IfOk result (λ v. map declared_of v.items ≡ typing.declared (file_of file) (map read.group_of groups.now)) }
{
    let mut declared = Vec::new(alloc);
    add(&mut declared, file, groups)?;
    Ok(declared)
}

/// Refuses the first name beyond this limit.
pub fn limit(walk: &mut Walk, declared: &[Declared<'_>], most: usize)
    ensures { Finds walk.old walk.new (typing.refused 25 (typing.one_after most (typing.words_of (map declared_of declared.now)))) }
{
    if let Some(declared) = declared.get(most) {
        walk.refuse(declared.placed.file, Code::TooMany, &declared.placed.name);
    }
}

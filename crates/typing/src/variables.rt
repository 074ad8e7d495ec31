//! Variables that come into scope: the parameters of an action, and those of a quantifier.
ghost use Rattle.std.specs.Prelude.{◌≡◌, [], if◌then◌else◌, map, OnOk};
ghost use Rattle.typing.specs.TypedLists.{declared_of};
ghost use Rattle.typing.specs.Scope.{keys_in, variable_entry_of, BeginsWith};
ghost use Rattle.typing.specs.Walk.{found_by, Finds};
ghost use Rattle.model.specs.Typing as typing;

use crate::domain::{declare, put};
use crate::type_names::TypeTable;
use crate::typed_lists::{Declared, limit};
use crate::types::check_all;
use crate::walk::Walk;
use faults::{Code, NoMemory};
use indexmap::IndexMap;
use task::{MAX_VARIABLES, TypeUnion};

/// Refuses variables that occur earlier in their list.
fn check_repeated(walk: &mut Walk, declared: &[Declared<'_>]) -> Result<(), NoMemory>
    ensures { OnOk result (Finds walk.old walk.new (typing.refused 16 (typing.repeated (typing.words_of (map declared_of declared.now))))) }
{
    let mut names = IndexMap::new(walk.alloc);
    for one in declared {
        declare(walk, &mut names, one.placed, ())?;
    }
    Ok(())
}

/// Refuses a variable whose name is in scope already.
fn check_shadow(
    walk: &mut Walk,
    variables: &IndexMap<Vec<u8>, TypeUnion>,
    one: &Declared<'_>,
) -> Result<(), NoMemory>
    ensures { OnOk result (Finds walk.old walk.new
        (if typing.is_known (typing.names_of_variables (map variable_entry_of variables.now.entries)) (declared_of one.now).name then typing.refused_word (declared_of one.now).file 20 (declared_of one.now).name else [])) }
{
    walk.fold(&one.placed.name)?;
    if variables.contains_key(walk.folded.as_slice()) {
        walk.refuse(one.placed.file, Code::Shadowed, &one.placed.name);
    }
    Ok(())
}

/// Refuses the variables whose names are in scope already.
fn check_shadows(
    walk: &mut Walk,
    variables: &IndexMap<Vec<u8>, TypeUnion>,
    declared: &[Declared<'_>],
) -> Result<(), NoMemory>
    ensures { OnOk result (Finds walk.old walk.new
        (typing.refused 20 (typing.known_among (typing.names_of_variables (map variable_entry_of variables.now.entries)) (typing.words_of (map declared_of declared.now))))) }
{
    for one in declared {
        check_shadow(walk, variables, one)?;
    }
    Ok(())
}

/// Refuses the 17th variable in scope, given the number already in scope.
fn limit_scope(walk: &mut Walk, count: usize, declared: &[Declared<'_>])
    ensures { Finds walk.old walk.new (typing.refused 25 (typing.one_too_many count (typing.words_of (map declared_of declared.now)))) }
{
    if count <= MAX_VARIABLES {
        limit(walk, declared, MAX_VARIABLES - count);
    }
}

/// Reports the faults of a list of variables, given those already in scope.
fn check_variables(
    walk: &mut Walk,
    types: &TypeTable,
    variables: &IndexMap<Vec<u8>, TypeUnion>,
    declared: &[Declared<'_>],
) -> Result<(), NoMemory>
    ensures { OnOk result (Finds walk.old walk.new
        (typing.variable_faults (keys_in types.now.by_name.entries) (map variable_entry_of variables.now.entries) (map declared_of declared.now))) }
{
    check_all(walk, &types.by_name, declared)?;
    check_repeated(walk, declared)?;
    check_shadows(walk, variables, declared)?;
    limit_scope(walk, variables.len(), declared);
    Ok(())
}

/// Brings a variable into scope, unless its name is there already.
fn add_variable(
    walk: &mut Walk,
    types: &TypeTable,
    variables: &mut IndexMap<Vec<u8>, TypeUnion>,
    declared: &Declared<'_>,
) -> Result<(), NoMemory>
    ensures variables { OnOk result (map variable_entry_of variables.new.entries
        ≡ typing.with_variable (map variable_entry_of variables.old.entries) (typing.variable_in (keys_in types.now.by_name.entries) (declared_of declared.now))) }
    ensures kept { OnOk result (BeginsWith variables.old.entries variables.new.entries) }
    ensures found { OnOk result (found_by walk.new ≡ found_by walk.old) }
{
    walk.fold(&declared.placed.name)?;
    if variables.contains_key(walk.folded.as_slice()) {
        return Ok(());
    }
    let union = types.union(walk.alloc, &mut walk.folded, declared.types)?;
    put(walk.alloc, variables, &declared.placed.name, union)?;
    Ok(())
}

/// Brings the variables of a list into scope, without repetition.
fn add_variables(
    walk: &mut Walk,
    types: &TypeTable,
    variables: &mut IndexMap<Vec<u8>, TypeUnion>,
    declared: &[Declared<'_>],
) -> Result<(), NoMemory>
    ensures variables { OnOk result (map variable_entry_of variables.new.entries
        ≡ typing.variables_after (keys_in types.now.by_name.entries) (map variable_entry_of variables.old.entries) (map declared_of declared.now)) }
    ensures kept { OnOk result (BeginsWith variables.old.entries variables.new.entries) }
    ensures found { OnOk result (found_by walk.new ≡ found_by walk.old) }
{
    for one in declared {
        add_variable(walk, types, variables, one)?;
    }
    Ok(())
}

/// Brings the variables of a list into scope, without repetition, and reports their faults.
pub fn declare_variables(
    walk: &mut Walk,
    types: &TypeTable,
    variables: &mut IndexMap<Vec<u8>, TypeUnion>,
    declared: &[Declared<'_>],
) -> Result<(), NoMemory>
    ensures variables { OnOk result (map variable_entry_of variables.new.entries
        ≡ typing.variables_after (keys_in types.now.by_name.entries) (map variable_entry_of variables.old.entries) (map declared_of declared.now)) }
    ensures kept { OnOk result (BeginsWith variables.old.entries variables.new.entries) }
    ensures finds { OnOk result (Finds walk.old walk.new
        (typing.variable_faults (keys_in types.now.by_name.entries) (map variable_entry_of variables.old.entries) (map declared_of declared.now))) }
{
    check_variables(walk, types, variables, declared)?;
    add_variables(walk, types, variables, declared)
}

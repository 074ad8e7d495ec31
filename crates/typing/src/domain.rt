//! The names of the domain and its types.
ghost use Rattle.std.specs.Prelude.{◌≡◌, ◌≤◌, [], ◌∷◌, ◌++◌, codes, false, fold, if◌then◌else◌, length, map, IfErr, IfOk, OnOk};
ghost use Rattle.typing.specs.TypedLists.{declared_of, placed_in};
ghost use Rattle.typing.specs.Scope.{keys_in, IsAdded};
ghost use Rattle.typing.specs.Refusals.{ReportsAll};
ghost use Rattle.typing.specs.Walk.{Finds};
ghost use Rattle.pddl_tree.specs.Tree as read;
ghost use Rattle.model.specs.Trees.{problem_file};
ghost use Rattle.model.specs.Typing as typing;

use crate::fault::PairFault;
use crate::type_names::TypeTable;
use crate::typed_lists::{Declared, Placed, limit};
use crate::types::check_all;
use crate::walk::Walk;
use faults::{Code, NoMemory};
use indexmap::IndexMap;
use pddl_tree::{Domain, Name, Problem, TaskFile};
use std::alloc::Global;
use task::TypeId;

/// The maximum number of types that a domain may declare.
const MAX_TYPES: usize = 4095;

/// Refuses a problem whose `:domain` is not the name of this domain.
fn compare(walk: &mut Walk, domain: &Name<'_>, required: &Name<'_>)
    ensures { Finds walk.old walk.new (if typing.is_same (typing.folded (read.name_of required.now)) (typing.folded (read.name_of domain.now)) then [] else typing.refused_word problem_file 21 (read.name_of required.now)) }
{
    if !required.text.eq_ignore_ascii_case(domain.text) {
        walk.refuse(TaskFile::Problem, Code::DomainMismatch, required);
    }
}

/// Enters a name and its meaning into a table. Returns whether the name was there before.
pub fn put<V: Drop>(
    alloc: Global,
    table: &mut IndexMap<Vec<u8>, V>,
    name: &Name<'_>,
    value: V,
) -> Result<bool, NoMemory>
    ensures names { OnOk result (keys_in table.new.entries ≡ typing.with_name (keys_in table.old.entries) (read.name_of name.now)) }
    ensures added { OnOk result (typing.is_known (keys_in table.old.entries) (read.name_of name.now) ≡ false → IsAdded table.old.entries table.new.entries (read.name_of name.now) value) }
    ensures again { IfOk result (λ again. again ≡ typing.is_known (keys_in table.old.entries) (read.name_of name.now)) }
{
    let key = name.text.to_ascii_lowercase(alloc)?;
    let before = table.insert(key, value)?;
    Ok(before.is_some())
}

/// Declares a name with its meaning. Refuses a name declared before.
pub fn declare<V: Drop>(
    walk: &mut Walk,
    table: &mut IndexMap<Vec<u8>, V>,
    placed: Placed<'_>,
    value: V,
) -> Result<(), NoMemory>
    ensures names { OnOk result (keys_in table.new.entries ≡ typing.with_name (keys_in table.old.entries) (read.name_of placed.entry.name)) }
    ensures added { OnOk result (typing.is_known (keys_in table.old.entries) (read.name_of placed.entry.name) ≡ false → IsAdded table.old.entries table.new.entries (read.name_of placed.entry.name) value) }
    ensures finds { OnOk result (Finds walk.old walk.new (typing.refused 16 (if typing.is_known (keys_in table.old.entries) (read.name_of placed.entry.name) then placed_in placed.entry ∷ [] else []))) }
{
    if put(walk.alloc, table, &placed.name, value)? {
        walk.refuse(placed.file, Code::Duplicate, &placed.name);
    }
    Ok(())
}

/// A table with the name `object` only.
fn root(alloc: Global) -> Result<IndexMap<Vec<u8>, Vec<TypeId>>, NoMemory>
    ensures { IfOk result (λ m. keys_in m.entries ≡ codes "object" ∷ []) }
{
    let mut types = IndexMap::new(alloc);
    types.insert(b"object".to_vec(alloc)?, Vec::new(alloc))?;
    Ok(types)
}

/// The names of the types, without repetition, `object` first.
fn type_names(
    walk: &mut Walk,
    declared: &[Declared<'_>],
) -> Result<IndexMap<Vec<u8>, Vec<TypeId>>, NoMemory>
    ensures names { IfOk result (λ m. keys_in m.entries ≡ fold typing.with_name (codes "object" ∷ []) (typing.names_of (map declared_of declared.now))) }
    ensures finds { OnOk result (Finds walk.old walk.new (typing.refused 16 (typing.repeated_after (codes "object" ∷ []) (typing.words_of (map declared_of declared.now))))) }
{
    let mut names = root(walk.alloc)?;
    for one in declared {
        let none = Vec::new(walk.alloc);
        declare(walk, &mut names, one.placed, none)?;
    }
    Ok(names)
}

/// The names of a domain's types, after checking that the problem is for this domain.
fn checked_names(
    alloc: Global,
    domain: &Domain<'_>,
    problem: &Problem<'_>,
    declared: &[Declared<'_>],
) -> Result<IndexMap<Vec<u8>, Vec<TypeId>>, PairFault>
    requires { map declared_of declared.now ≡ typing.declared_types (read.domain_of domain.now) }
    ensures ok { IfOk result (λ m.
        (typing.domain_name_faults (read.domain_of domain.now) (read.problem_of problem.now) ++ typing.type_declaration_faults (read.domain_of domain.now) ≡ [])
        × ((keys_in m.entries ≡ typing.type_names (read.domain_of domain.now)) × (length m.entries ≤ 4096))) }
    ensures err { IfErr result (ReportsAll (typing.domain_name_faults (read.domain_of domain.now) (read.problem_of problem.now) ++ typing.type_declaration_faults (read.domain_of domain.now))) }
{
    let mut walk = Walk::new(alloc)?;
    compare(&mut walk, &domain.name, &problem.domain);
    let names = type_names(&mut walk, declared)?;
    check_all(&mut walk, &names, declared)?;
    limit(&mut walk, declared, MAX_TYPES);
    walk.finish(names)
}

/// The table of a domain's type names, after checking that the problem is for this domain. The supertypes are not filled in yet.
/// `declared`: the flattened `:types` list.
///
/// # Errors
/// The least fault of the first phase: a problem for another domain, a type that is declared again (`object` is predeclared), an
/// unknown parent type, or the first type beyond the limit; [`PairFault::NoMemory`] if an allocation failed.
pub fn names(
    alloc: Global,
    domain: &Domain<'_>,
    problem: &Problem<'_>,
    declared: &[Declared<'_>],
) -> Result<TypeTable, PairFault>
    requires { map declared_of declared.now ≡ typing.declared_types (read.domain_of domain.now) }
    ensures ok { IfOk result (λ t.
        (typing.domain_name_faults (read.domain_of domain.now) (read.problem_of problem.now) ++ typing.type_declaration_faults (read.domain_of domain.now) ≡ [])
        × (keys_in t.by_name.entries ≡ typing.type_names (read.domain_of domain.now))) }
    ensures err { IfErr result (ReportsAll (typing.domain_name_faults (read.domain_of domain.now) (read.problem_of problem.now) ++ typing.type_declaration_faults (read.domain_of domain.now))) }
{
    let by_name = checked_names(alloc, domain, problem, declared)?;
    Ok(TypeTable { by_name })
}

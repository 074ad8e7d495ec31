//! Types: from names to numbers.
ghost use Rattle.std.specs.Prelude.{◌≡◌, ◌≤◌, [], ◌∷◌, length, map, IfOk};
ghost use Rattle.task.specs.TaskParts as parts;

use crate::typed_lists::Declared;
use crate::walk::fold;
use faults::NoMemory;
use indexmap::IndexMap;
use pddl_tree::Name;
use std::alloc::Global;
use task::{TypeId, TypeUnion};

/// The types by name, `object` first, each at the index of its number.
#[derive(Drop)]
pub struct TypeTable {
    /// The names, in lower case, each with its supertypes; empty until they are computed.
    pub by_name: IndexMap<Vec<u8>, Vec<TypeId>>,
    ghost few: { length by_name.entries ≤ 4096 },
}

/// The type `object` alone.
fn object_alone(alloc: Global) -> Result<Vec<TypeId>, NoMemory>
    ensures { IfOk result (λ v. map parts.type_of v.items ≡ 0 ∷ []) }
{
    let mut alone = Vec::with_capacity(alloc, 1)?;
    alone.push(TypeId(0))?;
    Ok(alone)
}

impl TypeTable {
    ghost use Rattle.typing.specs.TypedLists.{declared_of};
    ghost use Rattle.typing.specs.Scope.{keys_in};
    ghost use Rattle.pddl_tree.specs.Tree as read;
    ghost use Rattle.model.specs.Typing as typing;

    /// The number of a name: its place, or the number of names if it has none.
    fn number(&self, room: &mut Vec<u8>, name: &Name<'_>) -> Result<TypeId, NoMemory>
        ensures { IfOk result (λ t. t.0 ≡ typing.number_in (keys_in self.now.by_name.entries) (read.name_of name.now)) }
    {
        fold(room, name)?;
        match self.by_name.get_index_of(room.as_slice()) {
            Some(number) => Ok(TypeId(number as u16)),
            None => Ok(TypeId(self.by_name.len() as u16)),
        }
    }

    /// The type after a `-`, or `object` if there is none.
    pub fn declared_type(&self, room: &mut Vec<u8>, types: &[Name<'_>]) -> Result<TypeId, NoMemory>
        ensures { IfOk result (λ t. t.0 ≡ typing.type_in (keys_in self.now.by_name.entries) (map read.name_of types.now)) }
    {
        match types.first() {
            Some(name) => self.number(room, name),
            None => Ok(TypeId(0)),
        }
    }

    /// The numbers of the names.
    fn numbers(
        &self,
        alloc: Global,
        room: &mut Vec<u8>,
        types: &[Name<'_>],
    ) -> Result<Vec<TypeId>, NoMemory>
        ensures { IfOk result (λ v. map parts.type_of v.items ≡ map (λ n. typing.number_in (keys_in self.now.by_name.entries) (read.name_of n)) types.now) }
    {
        let mut numbers = Vec::with_capacity(alloc, types.len())?;
        for name in types {
            numbers.push(self.number(room, name)?)?;
        }
        Ok(numbers)
    }

    /// The types after a `-`, or `object` if there are none.
    pub(crate) fn union(
        &self,
        alloc: Global,
        room: &mut Vec<u8>,
        types: &[Name<'_>],
    ) -> Result<TypeUnion, NoMemory>
        ensures { IfOk result (λ u. parts.union_of u ≡ typing.union_in (keys_in self.now.by_name.entries) (map read.name_of types.now)) }
    {
        if types.is_empty() {
            Ok(TypeUnion(object_alone(alloc)?))
        } else {
            Ok(TypeUnion(self.numbers(alloc, room, types)?))
        }
    }

    /// The types of each declared name.
    pub fn unions(
        &self,
        alloc: Global,
        room: &mut Vec<u8>,
        declared: &[Declared<'_>],
    ) -> Result<Vec<TypeUnion>, NoMemory>
        ensures { IfOk result (λ v. map parts.union_of v.items ≡ typing.unions_in (keys_in self.now.by_name.entries) (map declared_of declared.now)) }
    {
        let mut unions = Vec::with_capacity(alloc, declared.len())?;
        for one in declared {
            unions.push(self.union(alloc, room, one.types)?)?;
        }
        Ok(unions)
    }

    /// The parents of the types. `object` is its own parent.
    pub fn parents(
        &self,
        alloc: Global,
        room: &mut Vec<u8>,
        declared: &[Declared<'_>],
    ) -> Result<Vec<TypeId>, NoMemory>
        ensures { IfOk result (λ v. map parts.type_of v.items ≡ typing.parents_in (keys_in self.now.by_name.entries) (map declared_of declared.now)) }
    {
        let mut parents = object_alone(alloc)?;
        for one in declared {
            parents.push(self.declared_type(room, one.types)?)?;
        }
        Ok(parents)
    }
}

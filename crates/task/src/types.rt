//! The order of types: subtypes and supertypes.
ghost use Rattle.std.specs.Prelude.{◌≡◌, map};
ghost use Rattle.std.specs.List.{list_all};
ghost use Rattle.task.specs.TaskParts.{type_entry_of, type_of, union_of};
ghost use Rattle.model.specs.Meaning.{is_below_in, supertypes_in};

use crate::atoms::TypeId;
use crate::schemas::TypeUnion;
use indexmap::IndexMap;

/// All supertypes of a type: itself and its ancestors, up to `object`. Empty if the number is out of range.
pub fn supertypes(types: &IndexMap<Vec<u8>, Vec<TypeId>>, id: TypeId) -> &[TypeId]
    ensures { map type_of result.now ≡ supertypes_in (map type_entry_of types.now.entries) id.0 }
{
    match types.get_index(id.0 as usize) {
        Some((_, supertypes)) => supertypes.as_slice(),
        None => &[],
    }
}

/// Whether the type is one of these or a subtype of one of them.
pub fn is_below(
    types: &IndexMap<Vec<u8>, Vec<TypeId>>,
    required_types: &TypeUnion,
    id: TypeId,
) -> bool
    ensures { result ≡ is_below_in (map type_entry_of types.now.entries) (union_of required_types.now) id.0 }
{
    supertypes(types, id)
        .iter()
        .any(|above| required_types.has(*above))
}

/// Whether each of some types is one of these or a subtype of one of them.
pub fn all_below(
    types: &IndexMap<Vec<u8>, Vec<TypeId>>,
    required_types: &TypeUnion,
    some: &[TypeId],
) -> bool
    ensures { result ≡ list_all (is_below_in (map type_entry_of types.now.entries) (union_of required_types.now)) (map type_of some.now) }
{
    some.iter().all(|id| is_below(types, required_types, *id))
}

//! Names by number, where a number without a name has the empty one, and names and atoms in a text.
ghost use Rattle.std.specs.Prelude.{◌≡◌, ◌++◌, map, OnOk};
ghost use Rattle.std.specs.List.{flat_map};
ghost use Rattle.task.specs.Task.{task_of};
ghost use Rattle.task.specs.TaskParts.{atom_of, object_of};
ghost use Rattle.task.specs.NumberedNames.{form_text, function_name, ground_text, predicate_name, type_name};
ghost use Rattle.model.specs.PlanWriting.{object_name, object_text, schema_name};

use crate::atoms::{Atom, ObjectId, PredicateId, SchemaId, TypeId};
use crate::task::Task;
use std::alloc::AllocError;

impl Task {
    /// The type's name, in lower case; empty if the number is out of range.
    pub fn name_of_type(&self, id: TypeId) -> &[u8]
        ensures { result.now ≡ type_name (task_of self.now) id.0 }
    {
        self.type_name(id).unwrap_or_default()
    }

    /// The object's name, in lower case; empty if the number is out of range.
    pub fn name_of_object(&self, id: ObjectId) -> &[u8]
        ensures { result.now ≡ object_name (task_of self.now) id.0 }
    {
        self.object_name(id).unwrap_or_default()
    }

    /// The predicate's name, in lower case; empty if the number is out of range.
    pub fn name_of_predicate(&self, id: PredicateId) -> &[u8]
        ensures { result.now ≡ predicate_name (task_of self.now) id.0 }
    {
        self.predicate_name(id).unwrap_or_default()
    }

    /// The function's name, in lower case; empty if the number is out of range.
    pub fn name_of_function(&self, id: PredicateId) -> &[u8]
        ensures { result.now ≡ function_name (task_of self.now) id.0 }
    {
        self.function_name(id).unwrap_or_default()
    }

    /// The schema's name, in lower case; empty if the number is out of range.
    pub fn name_of_schema(&self, id: SchemaId) -> &[u8]
        ensures { result.now ≡ schema_name (task_of self.now) id.0 }
    {
        self.schema_name(id).unwrap_or_default()
    }

    /// Adds the atom to the text, such as `(at truck depot)`.
    ///
    /// # Errors
    /// An allocation failed.
    pub fn add_atom(&self, atom: &Atom, text: &mut Vec<u8>) -> Result<(), AllocError>
        ensures { OnOk result (text.new.items ≡ text.old.items ++ ground_text (task_of self.now) (atom_of atom.now)) }
    {
        let name = self.name_of_predicate(atom.predicate);
        self.add_form(name, atom.objects.as_slice(), text)
    }

    /// Adds this name and the names of these objects to the text, in parentheses.
    ///
    /// # Errors
    /// An allocation failed.
    pub fn add_form(
        &self,
        name: &[u8],
        objects: &[ObjectId],
        text: &mut Vec<u8>,
    ) -> Result<(), AllocError>
        ensures { OnOk result (text.new.items ≡ text.old.items ++ form_text (task_of self.now) name.now (map object_of objects.now)) }
    {
        text.extend_from_slice(b"(")?;
        text.extend_from_slice(name)?;
        self.add_names(objects, text)?;
        text.extend_from_slice(b")")
    }

    /// Adds the names of these objects to the text, with a blank before each.
    ///
    /// # Errors
    /// An allocation failed.
    pub fn add_names(&self, objects: &[ObjectId], text: &mut Vec<u8>) -> Result<(), AllocError>
        ensures { OnOk result (text.new.items ≡ text.old.items ++ flat_map (object_text (task_of self.now)) (map object_of objects.now)) }
    {
        for object in objects {
            self.add_name(*object, text)?;
        }
        Ok(())
    }

    /// Adds the object's name to the text, with a blank before it.
    ///
    /// # Errors
    /// An allocation failed.
    pub fn add_name(&self, object: ObjectId, text: &mut Vec<u8>) -> Result<(), AllocError>
        ensures { OnOk result (text.new.items ≡ text.old.items ++ object_text (task_of self.now) object.0) }
    {
        text.extend_from_slice(b" ")?;
        text.extend_from_slice(self.name_of_object(object))
    }
}

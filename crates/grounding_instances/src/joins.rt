//! Which objects the static initial atoms allow for a parameter.
//!
//! The instances of a schema are a join of relations: each static atom of its precondition is a relation, consisting of the
//! initial atoms of its predicate. An index of the relation groups the objects at the parameter's position by the object at
//! another position. The parameters take their objects from the smallest group, one after another, and the other literals are
//! then tested, as in worst-case optimal joins (Ngo, Ré & Rudra 2013, "Skew Strikes Back: New Developments in the Theory of Join
//! Algorithms"). Grounding by joins follows Helmert 2009, "Concise finite-domain representations for PDDL planning tasks".
ghost use Rattle.std.specs.Prelude.{◌≡◌, ◌⊎◌, false, length, map, filter, slice_get, Some, IfOk, IfSome, OnOk};
ghost use Rattle.std.specs.Option.{option_map, option_map_or};
ghost use Rattle.std.specs.List.Sorted.{IsStrictlySortedBy};
ghost use Rattle.task.specs.contracts.atoms.ObjectIdOrd.TheImpl as object_ord;
ghost use Rattle.task.specs.Task.{task_of};
ghost use Rattle.task.specs.TaskParts.{atom_of, object_of, formula_of, lifted_atom_of, term_of, union_of};
ghost use Rattle.model.specs.Task as model_task;
ghost use Rattle.model.specs.Meaning as meaning;
ghost use Rattle.model.proofs.EnumerationLemmas as enumeration;
ghost use Rattle.grounding_instances.specs.Parameters.{lent_formula};
ghost use Rattle.grounding_instances.specs.Joins.{IsJoint, AreIndexes, AddsIndexes, IsPlaced, ArePlaced, IsGroupAmong, IsGroup, Grows, HasAt, key_in, key_number};

use crate::parameters::is_bound;
use crate::statics::Statics;
use faults::NoMemory;
use formulas::{Binding, named_by};
use std::alloc::Global;
use std::collections::BTreeSet;
use task::{Atom, Formula, LiftedAtom, ObjectId, Task, Term, TypeUnion};

/// A static atom, the parameter's position, and that of an already bound term.
#[derive(Drop)]
pub(crate) struct Joint<'t> {
    atom: &'t LiftedAtom,
    place: usize,
    key: Option<usize>,
}

/// The objects at the parameter's position in the initial atoms, grouped by the object at the key's position. Without a key they
/// form one group.
#[derive(Drop)]
pub(crate) struct Index<'t> {
    joint: Joint<'t>,
    groups: Vec<BTreeSet<ObjectId>>,
}

/// The indexes that restrict a parameter's objects: one for each known term of each static atom that the parameter occurs in.
#[derive(Drop)]
pub(crate) struct Join<'t> {
    types: &'t TypeUnion,
    indexes: Vec<Index<'t>>,
}

impl<'t> Join<'t> {
    /// The join for the parameter with this number and these types, from these literals.
    pub(crate) fn of_literals(
        statics: &Statics<'_>,
        types: &'t TypeUnion,
        literals: &[&'t Formula],
        number: usize,
    ) -> Result<Join<'t>, NoMemory>
        ensures types { IfOk result (λ j. j.types.now ≡ types.now) }
        ensures indexes { IfOk result (λ j. AreIndexes (task_of statics.now.task.now) (map lent_formula literals.now) number j.indexes.items) }
    {
        let indexer = Indexer { statics, number };
        let mut indexes = Vec::new(statics.alloc);
        for literal in literals {
            indexer.add_indexes(literal, &mut indexes)?;
        }
        Ok(Join { types, indexes })
    }

    /// The objects of the parameter's types, in order, in the smallest group for the earlier objects; `None` if there is no
    /// group.
    pub(crate) fn candidates(
        &self,
        alloc: Global,
        task: &Task,
        binding: &Binding,
    ) -> Result<Option<Vec<ObjectId>>, NoMemory>
        ensures { IfOk result (λ o. IfSome o (λ found. IsGroup (task_of task.now) self.now (map object_of binding.now.items) found.items)) }
    {
        let Some(group) = self.smallest_group(binding) else {
            return Ok(None);
        };
        Ok(Some(objects_in(alloc, task, group, self.types)?))
    }

    /// The smallest of the groups for the earlier objects.
    fn smallest_group(&self, binding: &Binding) -> Option<&BTreeSet<ObjectId>>
        ensures { IfSome result (λ group. IsGroupAmong self.now.indexes.items (map object_of binding.now.items) group.now) }
    {
        let mut smallest = None;
        for index in &self.indexes {
            smallest = smaller(smallest, index.group(binding));
        }
        smallest
    }
}

/// The smaller set; if one is missing, the other.
fn smaller<'a>(
    first: Option<&'a BTreeSet<ObjectId>>,
    second: Option<&'a BTreeSet<ObjectId>>,
) -> Option<&'a BTreeSet<ObjectId>>
    ensures { (result ≡ first.entry) ⊎ (result ≡ second.entry) }
{
    let Some(one) = first else {
        return second;
    };
    let Some(other) = second else {
        return first;
    };
    if other.len() < one.len() {
        return second;
    }
    first
}

impl<'t> Index<'t> {
    /// The index of the task's initial atoms for the joint.
    fn new(alloc: Global, task: &Task, joint: Joint<'t>) -> Result<Index<'t>, NoMemory>
        ensures joint { IfOk result (λ index. index.joint ≡ joint.entry) }
        ensures placed { IfOk result (λ index. ArePlaced index.joint index.groups.items (task_of task.now).init (length (task_of task.now).init)) }
    {
        let groups = groups_of(alloc, task, &joint)?;
        Ok(Index { joint, groups })
    }

    /// The group for the earlier objects.
    fn group(&self, binding: &Binding) -> Option<&BTreeSet<ObjectId>>
        ensures { IfSome result (λ group. slice_get self.now.groups.items (key_number self.now.joint (map object_of binding.now.items)) ≡ Some group.now) }
    {
        let key = self.joint.key_named(binding)?;
        self.groups.get(key.0 as usize)
    }
}

impl Joint<'_> {
    /// The object that the key denotes, given the objects of the earlier parameters; the first object without a key.
    fn key_named(&self, binding: &Binding) -> Option<ObjectId>
        ensures { IfSome result (λ key. key.0 ≡ key_number self.now (map object_of binding.now.items)) }
    {
        match self.key {
            Some(place) => Some(named_by(self.atom.terms.get(place)?, binding)),
            None => Some(ObjectId(0)),
        }
    }
}

/// The objects that are of these types, in order.
fn objects_in(
    alloc: Global,
    task: &Task,
    group: &BTreeSet<ObjectId>,
    types: &TypeUnion,
) -> Result<Vec<ObjectId>, NoMemory>
    ensures ordered { IfOk result (λ _. IsStrictlySortedBy (object_ord.ghosts).cmp group.now.keys) }
    ensures are { IfOk result (λ found. found.items ≡ filter (λ o. meaning.is_of (task_of task.now) (union_of types.now) o.0) group.now.keys) }
{
    let mut found = Vec::new(alloc);
    for object in group {
        if task.is_of(*object, types) {
            found.push(*object)?;
        }
    }
    Ok(found)
}

/// Makes the indexes that restrict the objects of one parameter.
#[derive(Drop)]
struct Indexer<'a, 's> {
    statics: &'a Statics<'s>,
    /// The parameter's number, from 0.
    number: usize,
}

impl Indexer<'_, '_> {
    /// Adds the literal's indexes for the parameter, if the literal is an atom of a static predicate that the
    /// parameter occurs in: one for each position of an object or an earlier parameter, or one without a key if there is none.
    fn add_indexes<'t>(
        &self,
        literal: &'t Formula,
        indexes: &mut Vec<Index<'t>>,
    ) -> Result<(), NoMemory>
        ensures { OnOk result (AddsIndexes (task_of self.now.statics.now.task.now) (formula_of literal.now) self.now.number indexes.old.items indexes.new.items) }
    {
        let Some(joint) = self.joint_in(literal) else {
            return Ok(());
        };
        let before = indexes.len();
        for key in 0..joint.atom.terms.len() {
            self.add_keyed(&joint, key, indexes)?;
        }
        if indexes.len() > before {
            return Ok(());
        }
        self.add_index(joint, indexes)?;
        Ok(())
    }

    /// Adds the index with this position as the key, if an object or an earlier parameter is there.
    fn add_keyed<'t>(
        &self,
        joint: &Joint<'t>,
        key: usize,
        indexes: &mut Vec<Index<'t>>,
    ) -> Result<(), NoMemory>
        requires { IsJoint (task_of self.now.statics.now.task.now) self.now.number joint.now }
        ensures { OnOk result (AddsIndexes (task_of self.now.statics.now.task.now) (model_task.atom (lifted_atom_of joint.now.atom.now)) self.now.number indexes.old.items indexes.new.items) }
    {
        if !is_known(joint.atom.terms.as_slice(), key, self.number) {
            return Ok(());
        }
        let keyed = Joint {
            atom: joint.atom,
            place: joint.place,
            key: Some(key),
        };
        self.add_index(keyed, indexes)
    }

    /// Adds the index of the joint.
    fn add_index<'t>(&self, joint: Joint<'t>, indexes: &mut Vec<Index<'t>>) -> Result<(), NoMemory>
        requires { IsJoint (task_of self.now.statics.now.task.now) self.now.number joint }
        ensures { OnOk result (AddsIndexes (task_of self.now.statics.now.task.now) (model_task.atom (lifted_atom_of joint.entry.atom.now)) self.now.number indexes.old.items indexes.new.items) }
    {
        let index = Index::new(self.statics.alloc, self.statics.task, joint)?;
        indexes.push(index)?;
        Ok(())
    }

    /// The literal with the position of the parameter, without a key, if it is an atom of a static predicate that
    /// the parameter occurs in.
    fn joint_in<'t>(&self, literal: &'t Formula) -> Option<Joint<'t>>
        ensures literal { IfSome result (λ j. formula_of literal.now ≡ model_task.atom (lifted_atom_of j.atom.now)) }
        ensures joint { IfSome result (IsJoint (task_of self.now.statics.now.task.now) self.now.number) }
    {
        let Formula::Atom(atom) = literal else {
            return None;
        };
        if self.statics.is_fluent(atom.predicate) {
            return None;
        }
        let place = place_of(atom.terms.as_slice(), self.number)?;
        Some(Joint {
            atom,
            place,
            key: None,
        })
    }
}

/// Whether an object is at this position, or a variable before the one with this number.
fn is_known(terms: &[Term], place: usize, number: usize) -> bool
    ensures { result ≡ option_map_or (enumeration.is_bound number) (slice_get (map term_of terms.now) place) false }
{
    match terms.get(place) {
        Some(term) => is_bound(term, number),
        None => false,
    }
}

/// The first position of the variable with this number.
fn place_of(terms: &[Term], number: usize) -> Option<usize>
    ensures { IfSome result (λ place. slice_get (map term_of terms.now) place ≡ Some (model_task.variable number)) }
{
    for place in 0..terms.len() {
        if let Term::Variable(variable) = terms[place] {
            if variable.0 == number {
                return Some(place);
            }
        }
    }
    None
}

/// A group for each object as the key: the objects at the joint's position in the initial atoms.
fn groups_of(
    alloc: Global,
    task: &Task,
    joint: &Joint<'_>,
) -> Result<Vec<BTreeSet<ObjectId>>, NoMemory>
    ensures { IfOk result (λ groups. ArePlaced joint.now groups.items (task_of task.now).init (length (task_of task.now).init)) }
{
    let mut groups = Vec::new(alloc);
    for _ in 0..task.object_count() {
        groups.push(BTreeSet::new(alloc))?;
    }
    for atom in task.init() {
        add_atom(joint, atom, &mut groups)?;
    }
    Ok(groups)
}

/// Adds the object at the joint's position to the group of its key, if the atom has the joint's predicate.
fn add_atom(
    joint: &Joint<'_>,
    atom: &Atom,
    groups: &mut Vec<BTreeSet<ObjectId>>,
) -> Result<(), NoMemory>
    ensures placed { OnOk result (IsPlaced joint.now groups.new.items (atom_of atom.now)) }
    ensures grows { OnOk result (Grows groups.old.items groups.new.items) }
{
    if atom.predicate != joint.atom.predicate {
        return Ok(());
    }
    let Some(object) = atom.objects.get(joint.place) else {
        return Ok(());
    };
    let Some(key) = key_at(joint.key, atom) else {
        return Ok(());
    };
    add_object(key.0 as usize, *object, groups)
}

/// The atom's object at the key's position; the first object without a key.
fn key_at(key: Option<usize>, atom: &Atom) -> Option<ObjectId>
    ensures { option_map object_of result ≡ key_in key (atom_of atom.now).objects }
{
    match key {
        Some(place) => atom.objects.get(place).copied(),
        None => Some(ObjectId(0)),
    }
}

/// Adds the object to the group with this number, if there is one.
fn add_object(
    number: usize,
    object: ObjectId,
    groups: &mut Vec<BTreeSet<ObjectId>>,
) -> Result<(), NoMemory>
    ensures has { OnOk result (HasAt groups.new.items number object.0) }
    ensures grows { OnOk result (Grows groups.old.items groups.new.items) }
{
    if number >= groups.len() {
        return Ok(());
    }
    groups[number].insert(object)?;
    Ok(())
}

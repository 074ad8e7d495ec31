//! Exchanges of objects of a task: products of disjoint transpositions.
ghost use Rattle.std.specs.Prelude.{◌≡◌, ℕ, true, map, IfOk};
ghost use Rattle.std.specs.List.{list_all};
ghost use Rattle.std.specs.Option.{option_map};
ghost use Rattle.std.proofs.Props.{props};
ghost use Rattle.task.specs.Task.{task_of};
ghost use Rattle.task.specs.TaskParts.{object_of};
ghost use Rattle.symmetries.specs.ObjectPairs.{image_in, pairs_in, two_by_two};
ghost use Rattle.symmetries.specs.ObjectPairs as defined;
ghost use Rattle.symmetries_definitions.specs.Exchanges as exchanges;
ghost use Rattle.symmetries_definitions.specs.Exchanges.{image_of_object, objects_in};

use faults::NoMemory;
use indexmap::{IndexMap, IndexSet};
use std::alloc::Global;
use task::{ObjectId, Task};

/// Pairs of objects that change places. All objects are different.
pub struct Exchange {
    pairs: Vec<(ObjectId, ObjectId)>,
    /// The image of each of these objects.
    images: IndexMap<ObjectId, ObjectId>,
    ghost different: { exchanges.are_different (objects_in (pairs_in pairs.items)) ≡ true } by { Prim.hlevel props },
    ghost imaged: { (o : ℕ) → image_in images.entries o ≡ image_of_object (pairs_in pairs.items) o } by { Prim.hlevel props },
}

impl Drop for Exchange {
    fn drop(self) {
        let Self {
            pairs: _,
            images: _,
        } = self;
    }
}

impl Exchange {
    ghost use Rattle.symmetries.specs.Exchange.{exchange_of, image};

    /// The exchange that swaps the first object with the second, the third with the fourth, and so on. `None` unless they are
    /// different objects of the task and their number is even.
    ///
    /// # Errors
    /// An allocation failed, which says nothing about the objects.
    pub fn new(
        alloc: Global,
        task: &Task,
        objects: &[ObjectId],
    ) -> Result<Option<Exchange>, NoMemory>
        ensures { IfOk result (λ made. option_map exchange_of made ≡ defined.exchange_among (task_of task.now) (map object_of objects.now)) }
    {
        if !are_objects(task, objects) {
            return Ok(None);
        }
        let different = are_different(alloc, objects)?;
        if !different {
            return Ok(None);
        }
        let Some(pairs) = pairs_of(alloc, objects)? else {
            return Ok(None);
        };
        let images = images_of(alloc, pairs.as_slice())?;
        Ok(Some(Exchange { pairs, images }))
    }

    /// The transpositions: pairs of objects that change places.
    pub fn pairs(&self) -> &[(ObjectId, ObjectId)]
        ensures { pairs_in result.now ≡ exchange_of self.now }
    {
        self.pairs.as_slice()
    }

    /// The image of this object: the object itself if it is in no pair.
    pub fn image(&self, object: ObjectId) -> ObjectId
        ensures { result.0 ≡ image self.now object.0 }
    {
        match self.images.get(&object) {
            Some(image) => *image,
            None => object,
        }
    }
}

/// Whether all of these are objects of the task.
fn are_objects(task: &Task, objects: &[ObjectId]) -> bool
    ensures { result ≡ list_all (defined.is_object (task_of task.now)) (map object_of objects.now) }
{
    for object in objects {
        if object.0 as usize >= task.object_count() {
            return false;
        }
    }
    true
}

/// Whether all objects are different.
fn are_different(alloc: Global, objects: &[ObjectId]) -> Result<bool, NoMemory>
    ensures { IfOk result (λ different. different ≡ exchanges.are_different (map object_of objects.now)) }
{
    let mut seen = IndexSet::new(alloc);
    for object in objects {
        let is_new = seen.insert(*object)?;
        if !is_new {
            return Ok(false);
        }
    }
    Ok(true)
}

/// The objects in pairs; `None` if one is left over.
fn pairs_of(
    alloc: Global,
    objects: &[ObjectId],
) -> Result<Option<Vec<(ObjectId, ObjectId)>>, NoMemory>
    ensures { IfOk result (λ made. option_map (λ pairs. pairs_in pairs.items) made ≡ two_by_two (map object_of objects.now)) }
{
    let mut pairs = Vec::new(alloc);
    let mut left = objects;
    while let [first, second, others @ ..] = left {
        pairs.push((*first, *second))?;
        left = others;
    }
    if left.is_empty() {
        Ok(Some(pairs))
    } else {
        Ok(None)
    }
}

/// The image of each object in the pairs. They are entered last to first: if two pairs share an object, the earlier pair decides.
fn images_of(
    alloc: Global,
    pairs: &[(ObjectId, ObjectId)],
) -> Result<IndexMap<ObjectId, ObjectId>, NoMemory>
    ensures { IfOk result (λ images. (o : ℕ) → image_in images.entries o ≡ image_of_object (pairs_in pairs.now) o) }
{
    let mut images = IndexMap::new(alloc);
    for place in 0..pairs.len() {
        let (first, second) = pairs[pairs.len() - 1 - place];
        images.insert(second, first)?;
        images.insert(first, second)?;
    }
    Ok(images)
}

//! Exchanges of objects, resolved from names.
ghost use Rattle.std.specs.Prelude.{◌≡◌, ◌++◌, ◌∷◌, [], IfOk, OnOk, map};
ghost use Rattle.task.specs.Task.{task_of};
ghost use Rattle.task.specs.TaskParts.{object_of};
ghost use Rattle.symmetries.specs.ObjectPairs.{pairs_in};
ghost use Rattle.certificate_reader.specs.Lines.{name_of};
ghost use Rattle.certificate.specs.CertificateParts.{exchange_in};
ghost use Rattle.certificate_definitions.specs.CertificateNames as names;

use faults::NoMemory;
use std::alloc::Global;
use task::{ObjectId, Task};

/// The objects with these names, in pairs.
fn exchange_said(
    alloc: Global,
    task: &Task,
    objects: &[Vec<u8>],
) -> Result<Vec<(ObjectId, ObjectId)>, NoMemory>
    ensures { IfOk result (λ pairs. pairs_in pairs.items ≡ names.exchange_said (task_of task.now) (map name_of objects.now)) }
{
    let mut pairs = Vec::new(alloc);
    let mut left = objects;
    while let [first, second, others @ ..] = left {
        let pair = (object_said(task, first), object_said(task, second));
        pairs.push(pair)?;
        left = others;
    }
    Ok(pairs)
}

/// Appends the exchange of the objects with these names.
pub(crate) fn take_exchange(
    alloc: Global,
    task: &Task,
    exchanges: &mut Vec<Vec<(ObjectId, ObjectId)>>,
    objects: &[Vec<u8>],
) -> Result<(), NoMemory>
    ensures { OnOk result (map exchange_in exchanges.new.items ≡ map exchange_in exchanges.old.items ++ names.exchange_said (task_of task.now) (map name_of objects.now) ∷ []) }
{
    let exchange = exchange_said(alloc, task, objects)?;
    exchanges.push(exchange)?;
    Ok(())
}

/// The object with this name. An unknown name gives the number of objects, which is not an object of the task.
fn object_said(task: &Task, name: &[u8]) -> ObjectId
    ensures { object_of result ≡ names.object_said (task_of task.now) name.now }
{
    match task.object_named(name) {
        Some(object) => object,
        None => ObjectId(task.object_count() as u32),
    }
}

//! The exchanges of objects modulo which a task is searched.
ghost use Rattle.std.specs.Prelude.{◌≡◌, ◌<◌, ◌&&◌, IfOk, IsTrue, OnOk, length, map, nat_le, nat_lt};
ghost use Rattle.std.specs.List.{list_all};
ghost use Rattle.grounding.specs.Ground.{task_in};
ghost use Rattle.task.specs.Task.{task_of};
ghost use Rattle.symmetries.specs.ObjectPairs.{pairs_in};
ghost use Rattle.symmetries_definitions.specs.Exchanges.{objects_in};
ghost use Rattle.symmetries_definitions.specs.Symmetries.{is_symmetry};
ghost use Rattle.certificate.specs.CertificateParts.{exchange_in};
ghost use Rattle.symmetries.specs.Exchange.{exchange_of};
ghost use Rattle.search_spaces.specs.Exchanges.{AreExchangesFor, most_pairs};

use faults::NoMemory;
use grounding::Ground;
use std::alloc::Global;
use symmetries::{Exchange, exchanged_numbers};
use symmetries_drafted::{MAX_EXCHANGES, drafted_exchanges};
use task::{ObjectId, Task};

/// Up to this number of atoms a task is searched without exchanges: sixteen states cost less than finding one.
const FEW_ATOMS: usize = 4;

/// Budget: atoms times exchanges. Exchanges beyond it are left out.
const MAX_LOOKS: usize = 4_194_304;

/// Pairs of objects that fit one line of a certificate, whatever their names.
const MAX_PAIRS: usize = 32_767;

/// Exchanges of objects that are symmetries of the task, map numbered atoms to numbered ones, and can be named in a certificate.
///
/// # Errors
/// Memory was refused.
pub fn exchanges_of(alloc: Global, ground: &Ground<'_>) -> Result<Vec<Exchange>, NoMemory>
    ensures { IfOk result (λ kept. AreExchangesFor ground.now (map exchange_of kept.items)) }
{
    if ground.atoms().len() <= FEW_ATOMS {
        return Ok(Vec::new(alloc));
    }
    let drafts = drafted_exchanges(alloc, ground.task())?;
    let most = MAX_EXCHANGES.min(MAX_LOOKS / (ground.atoms().len() + 1));
    let mut kept = Vec::new(alloc);
    for exchange in drafts {
        if kept.len() < most {
            keep(alloc, ground, exchange, &mut kept)?;
        }
    }
    Ok(kept)
}

/// Keeps the exchange if a certificate can name it and it maps numbered atoms to numbered ones.
fn keep(
    alloc: Global,
    ground: &Ground<'_>,
    exchange: Exchange,
    kept: &mut Vec<Exchange>,
) -> Result<(), NoMemory>
    requires symmetry { IsTrue (is_symmetry (task_in ground.now) (exchange_of exchange)) }
    requires room { length kept.old.items < 1048576 }
    ensures { OnOk result (AreExchangesFor ground.now (map exchange_of kept.old.items) → AreExchangesFor ground.now (map exchange_of kept.new.items)) }
{
    if !can_be_named(ground.task(), exchange.pairs()) {
        return Ok(());
    }
    if exchanged_numbers(alloc, ground.atoms(), &exchange)?.is_some() {
        kept.push(exchange)?;
    }
    Ok(())
}

/// Whether a line of a certificate can name these pairs.
fn can_be_named(task: &Task, pairs: &[(ObjectId, ObjectId)]) -> bool
    ensures { result ≡ (nat_le 1 (length (pairs_in pairs.now)) && nat_le (length (pairs_in pairs.now)) most_pairs && list_all (λ o. nat_lt o (length (task_of task.now).objects)) (objects_in (pairs_in pairs.now))) }
{
    let count = task.object_count();
    !pairs.is_empty()
        && pairs.len() <= MAX_PAIRS
        && pairs.iter().all(|(first, second)| (first.0 as usize) < count
            && (second.0 as usize) < count)
}

/// The pairs of objects of each exchange, in order.
///
/// # Errors
/// Memory was refused.
pub(crate) fn written_exchanges(
    alloc: Global,
    exchanges: &[Exchange],
) -> Result<Vec<Vec<(ObjectId, ObjectId)>>, NoMemory>
    ensures { IfOk result (λ written. map exchange_in written.items ≡ map exchange_of exchanges.now) }
{
    let mut written = Vec::with_capacity(alloc, exchanges.len())?;
    for exchange in exchanges {
        written.push(Vec::from_slice(alloc, exchange.pairs())?)?;
    }
    Ok(written)
}

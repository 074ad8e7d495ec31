//! Tests of certificates against the plain store of states: a search with the certificate's potentials that keeps its states in
//! that store finds what the certificate claims and lists. The listing, the claim, the atoms and the potentials are everything
//! that a certificate's text contains.
ghost use Rattle.std.specs.Prelude.{◌≡◌};
ghost use Rattle.potentials_improved.specs.FairPotentials.{ground_in};

use crate::plain_tasks::TASKS;
use certificate::{Basis, Cert, Claim, Listed, Mark};
use faults::NoMemory;
use grounding::{Ground, GroundFault};
use packed_state::{Packed, PlainStore, StateStore};
use potentials_improved::{DeadFair, Fair, Potentials};
use search::{DeadEnd, EstimateWithDeadEnds, FoundStates, MAX_STATES, Node, Outcome, best_first};
use search_spaces::GroundSystem;
use solver::{Answer, Exceeded, Limits, solve};
use std::alloc::Global;
use std::test::Fail;
use task::Task;
use test_support::on_task;

/// Potentials with this constant and these weights.
fn weighing(alloc: Global, constant: i64, weights: &[i64]) -> Result<Option<Potentials>, NoMemory> {
    Ok(Potentials::new(constant, weights.to_vec(alloc)?))
}

/// The states that were found.
fn states_of<S>(outcome: &Outcome<S>) -> Option<&FoundStates<S>> {
    match outcome {
        Outcome::Found { states, .. } => Some(states),
        Outcome::Exhausted { states } => Some(states),
        Outcome::States { states, .. } => Some(states),
    }
}

/// Copies the state at this index, if there is one and it has this width.
fn got<S: StateStore>(store: &S, place: u32, into: &mut Packed) -> bool {
    if into.width() != store.width() || place as usize >= store.len() {
        return false;
    }
    store.get(place, into);
    true
}

/// Whether the stores have the same states of this width, in the same order.
fn have_same<A: StateStore, B: StateStore>(
    alloc: Global,
    width: u32,
    some: &A,
    others: &B,
) -> Result<bool, NoMemory> {
    let mut state = Packed::empty(alloc, width)?;
    let mut other = Packed::empty(alloc, width)?;
    for (_, place) in (0..some.len()).zip(0..u32::MAX) {
        let are_there = got(some, place, &mut state) && got(others, place, &mut other);
        if !are_there || state != other {
            return Ok(false);
        }
    }
    Ok(some.len() == others.len())
}

/// The claim of a certificate for this outcome of a search.
fn claim_of<S>(outcome: &Outcome<S>) -> Claim {
    match outcome {
        Outcome::Found { cost, .. } => Claim::Bound(*cost),
        Outcome::Exhausted { .. } => Claim::Unsolvable,
        Outcome::States { bound, .. } => Claim::Bound(*bound),
    }
}

/// The line of a state reached like this, if it is a state of the potentials' task.
fn listed(
    fair: &Fair<'_, '_>,
    dead_ends: &DeadFair<'_, '_>,
    state: &Packed,
    node: Node,
) -> Option<Listed> {
    let width = state.width();
    if fair.ground().width() != width || dead_ends.ground().width() != width {
        return None;
    }
    let mark = if node.is_expanded() {
        Mark::Expanded
    } else if dead_ends.dead(state) {
        Mark::Dead { by: Basis::OfAll }
    } else {
        Mark::Cut {
            by: Basis::OfAll,
            rest: fair.estimate(state),
        }
    };
    Some(Listed {
        cost: node.cost,
        mark,
    })
}

/// Whether each state that was found has its line's role and cost, in order.
fn have_marks<S: StateStore>(
    alloc: Global,
    fair: &Fair<'_, '_>,
    dead_ends: &DeadFair<'_, '_>,
    found: &FoundStates<S>,
    marks: &[Listed],
) -> Result<bool, NoMemory> {
    let mut state = Packed::empty(alloc, found.store.width())?;
    for ((node, mark), place) in found.nodes.iter().zip(marks).zip(0..u32::MAX) {
        let is_there = got(&found.store, place, &mut state);
        if !is_there || listed(fair, dead_ends, &state, *node) != Some(*mark) {
            return Ok(false);
        }
    }
    Ok(found.nodes.len() == marks.len())
}

/// Whether the certificate claims the result, and lists the states that were found.
fn is_of<S: StateStore>(
    alloc: Global,
    fair: &Fair<'_, '_>,
    dead_ends: &DeadFair<'_, '_>,
    outcome: &Outcome<S>,
    cert: &Cert,
) -> Result<bool, NoMemory> {
    let Some(found) = states_of(outcome) else {
        return Ok(false);
    };
    let width = found.store.width();
    Ok(
        claim_of(outcome) == cert.claim()
            && have_same(alloc, width, &found.store, cert.sets())?
            && have_marks(alloc, fair, dead_ends, found, cert.marks())?,
    )
}

/// Whether the certificate matches what a search over the plain store finds with these potentials.
fn is_found(
    alloc: Global,
    ground: &Ground<'_>,
    fair: &Fair<'_, '_>,
    dead_ends: &DeadFair<'_, '_>,
    most: u32,
    cert: &Cert,
) -> Result<bool, NoMemory>
    requires fair { ground_in fair.now ≡ ground.now }
    requires dead_ends { ground_in dead_ends.now ≡ ground.now }
{
    let system = GroundSystem(ground);
    let store = PlainStore::new(alloc, ground.width())?;
    let most = most.clamp(1, MAX_STATES);
    let guide = EstimateWithDeadEnds::new(fair, dead_ends);
    let outcome = best_first(alloc, &system, &guide, store, most)?;
    is_of(alloc, fair, dead_ends, &outcome, cert)
}

/// The same, with the certificate's potentials for dead ends.
fn is_found_by(
    alloc: Global,
    ground: &Ground<'_>,
    fair: &Fair<'_, '_>,
    most: u32,
    cert: &Cert,
) -> Result<bool, NoMemory>
    requires { ground_in fair.now ≡ ground.now }
{
    let said = &cert.evidence().dead_ends;
    let Some(potentials) = weighing(alloc, said.constant, &said.weights)? else {
        return Ok(false);
    };
    if potentials.weights().len() != ground.width() as usize {
        return Ok(false);
    }
    match DeadFair::new(alloc, potentials, ground)? {
        Some(dead_ends) => is_found(alloc, ground, fair, &dead_ends, most, cert),
        None => Ok(false),
    }
}

/// The same, with both of its potentials.
fn is_found_by_both(
    alloc: Global,
    ground: &Ground<'_>,
    most: u32,
    cert: &Cert,
) -> Result<bool, NoMemory> {
    let [value] = cert.evidence().values.as_slice() else {
        return Ok(false);
    };
    let Some(potentials) = weighing(alloc, value.constant, &value.weights)? else {
        return Ok(false);
    };
    if potentials.weights().len() != ground.width() as usize {
        return Ok(false);
    }
    match Fair::new(alloc, potentials, ground)? {
        Some(fair) => is_found_by(alloc, ground, &fair, most, cert),
        None => Ok(false),
    }
}

/// Whether the certificate, which has the task's numbered atoms, matches what the search over the plain store finds.
fn is_same(alloc: Global, task: &Task, limits: Limits, cert: &Cert) -> Result<bool, NoMemory> {
    match &Ground::new(alloc, task, &[], limits.instances()) {
        Ok(ground) if ground.atoms().as_slice() == cert.atoms() => {
            is_found_by_both(alloc, ground, limits.states(), cert)
        }
        Ok(_) | Err(GroundFault::At(_)) => Ok(false),
        Err(GroundFault::NoMemory) => Err(NoMemory),
    }
}

/// The certificate of an answer, if it has one.
fn cert_of(answer: &Answer) -> Option<&Cert> {
    match answer {
        Answer::Plan { cert, .. } => Some(cert),
        Answer::Unsolvable { cert } => Some(cert),
        Answer::Unknown(Exceeded::States { cert, .. }) => Some(cert),
        Answer::Unknown(_) => None,
    }
}

/// Whether the answer has a certificate, and it matches what the search over the plain store finds.
fn has_same(alloc: Global, task: &Task, limits: Limits, answer: &Answer) -> Result<bool, NoMemory> {
    match cert_of(answer) {
        Some(cert) => is_same(alloc, task, limits, cert),
        None => Ok(false),
    }
}

/// The same for the answer to the task.
fn answer_has_same(alloc: Global, task: &Task, limits: Limits) -> Result<bool, NoMemory> {
    let answer = solve(alloc, task, limits)?;
    has_same(alloc, task, limits, &answer)
}

#[test]
fn stores_give_the_same_certificate(rt: HostRuntime) -> Result<(), Fail> {
    for (texts, states) in &TASKS {
        let limits = Limits::new(*states, 1000).ok_or("no limits")?;
        on_task(&rt, rt.alloc(), texts, |rt, alloc, task| {
            assert!(rt; answer_has_same(alloc, task, limits)?, "{states}");
            Ok(())
        })?;
    }
    Ok(())
}

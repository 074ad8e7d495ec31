//! Tests of ground tasks: the applicable instances of states in memory, and the successor states.
ghost use Rattle.std.specs.Prelude.{◌≡◌, length, IfOk};
ghost use Rattle.packed_state.specs.Packed.{bits_of};
ghost use Rattle.grounding.specs.Ground.{atoms_in};

use faults::NoMemory;
use grounding::Ground;
use packed_state::Packed;
use std::alloc::Global;
use std::process::Abort;
use std::test::Fail;
use test_support::{Texts, on_task};

/// A lamp, and a way from the first place to the second that is visible when the lamp is lit.
const LAMP: Texts = [
    "(define (domain lamp) (:requirements :conditional-effects) (:predicates (link ?x ?y) (at ?x) (lit) (seen ?x))
 (:action light :parameters () :effect (lit))
 (:action go :parameters (?x ?y) :precondition (and (link ?x ?y) (at ?x))
  :effect (and (at ?y) (not (at ?x)) (when (lit) (seen ?y)))))",
    "(define (problem p) (:domain lamp) (:objects a b) (:init (link a b) (at a)) (:goal (and (at b) (seen b))))",
];

/// The atoms of a state, by number, and those after `light` and after `go`; `None` where the instance is not applicable.
type Line = (
    &'static [u32],
    (Option<&'static [u32]>, Option<&'static [u32]>),
);

/// States of the lamp. The atoms are: at the first place, the lamp is lit, at the second place, the second place was seen.
#[rattlefmt::skip]
static LINES: [Line; 6] = [
    (&[0], (Some(&[0, 1]), Some(&[2]))),
    (&[], (Some(&[1]), None)),
    (&[2], (Some(&[1, 2]), None)),
    (&[0, 1], (Some(&[0, 1]), Some(&[1, 2, 3]))),
    (&[0, 2, 3], (Some(&[0, 1, 2, 3]), Some(&[2, 3]))),
    (&[1, 2, 3], (Some(&[1, 2, 3]), None)),
];

/// The state with these atoms, by number.
fn state(alloc: Global, ground: &Ground<'_>, numbers: &[u32]) -> Result<Packed, NoMemory>
    ensures { IfOk result (λ set. length (bits_of set) ≡ length (atoms_in ground.now)) }
{
    let mut state = Packed::empty(alloc, ground.width())?;
    for &number in numbers {
        if number < state.width() {
            state.insert(number);
        }
    }
    Ok(state)
}

/// The true atoms, by number, after applying the instance with this number, if it is applicable.
fn next(
    alloc: Global,
    ground: &Ground<'_>,
    numbers: &[u32],
    instance: u32,
) -> Result<Option<Vec<u32>>, NoMemory> {
    let state = state(alloc, ground, numbers)?;
    let found = ground.applicable(alloc, &state)?;
    if !found.contains(&instance) {
        return Ok(None);
    }
    let next = ground.successor(alloc, instance, &state)?;
    Ok(Some(next.numbers(alloc)?))
}

/// Whether the instances lead from the state to these.
fn leads(alloc: Global, ground: &Ground<'_>, line: &Line) -> Result<bool, NoMemory> {
    let light = next(alloc, ground, line.0, 0)?;
    let go = next(alloc, ground, line.0, 1)?;
    Ok((light.as_deref(), go.as_deref()) == line.1)
}

fn are_led(rt: &impl Abort, alloc: Global, ground: &Ground<'_>) -> Result<(), Fail> {
    for (number, line) in LINES.iter().enumerate() {
        assert!(rt; leads(alloc, ground, line)?, "line {number}");
    }
    Ok(())
}

#[test]
fn instances_lead_from_state_to_state(rt: HostRuntime) -> Result<(), Fail> {
    on_task(&rt, rt.alloc(), &LAMP, |rt, alloc, task| {
        let ground = Ground::new(alloc, task, &[], 10)?;
        are_led(rt, alloc, &ground)
    })
}

//! States sampled by random walks from the initial state.
use faults::{DraftMemory, NoMemory};
use grounding::{Ground, instance_count};
use packed_state::Packed;
use std::alloc::Global;
use std::num::nearest_usize_to_f64;

/// The maximum number of steps of a walk.
const MAX_STEPS: u32 = 64;

/// Work limit of a walk, in instances.
const MAX_LOOKS: u32 = 65_536;

/// The resolution of random fractions.
const PARTS: usize = 65_536;

/// A random generator with a fixed seed.
#[derive(Drop)]
pub struct RandomGenerator {
    state: u64,
}

/// A random walk: its current state, and scratch for successors.
#[derive(Drop)]
struct RandomWalk {
    state: Packed,
    next: Packed,
    applicable: Vec<u32>,
    random: RandomGenerator,
}

/// The initial state and then the end states of this many random walks from it, each given by its true atoms; no end states if
/// there are too many instances for a walk to take a step.
pub(crate) fn sampled(
    memory: &DraftMemory,
    ground: &Ground<'_>,
    initial: &Packed,
    walks: u32,
) -> Vec<Vec<u32>> {
    let mut samples = memory.list();
    add(memory, initial, &mut samples);
    let most = most_steps(instance_count(ground));
    if most > 0 {
        if let Some(mut walk) = memory.kept(RandomWalk::new(memory.alloc(), ground.width())) {
            for _ in 0..walks {
                walk.start(initial);
                walk.go(memory, ground, most);
                add(memory, &walk.state, &mut samples);
            }
        }
    }
    samples
}

/// Adds the true atoms of the state, by number.
fn add(memory: &DraftMemory, state: &Packed, samples: &mut Vec<Vec<u32>>) {
    let mut atoms = memory.list();
    memory.kept(state.list_numbers(&mut atoms));
    memory.push(samples, atoms);
}

/// The maximum number of steps of a walk, given the number of instances.
fn most_steps(instances: u32) -> u32 {
    if instances == 0 {
        return 0;
    }
    (MAX_LOOKS / instances).min(MAX_STEPS)
}

impl RandomGenerator {
    /// The generator with its fixed seed.
    pub fn new() -> RandomGenerator {
        RandomGenerator { state: 1 }
    }

    /// The next random number from 0 to 1.
    pub(crate) fn part(&mut self) -> f64 {
        nearest_usize_to_f64(self.below(PARTS)) / nearest_usize_to_f64(PARTS)
    }

    /// The next random number below the bound, or 0 for bound 0, by the linear congruential generator of Knuth's MMIX.
    pub fn below(&mut self, bound: usize) -> usize {
        self.state = self
            .state
            .wrapping_mul(6_364_136_223_846_793_005)
            .wrapping_add(1_442_695_040_888_963_407);
        if bound == 0 {
            return 0;
        }
        (self.state >> 33) as usize % bound
    }
}

impl RandomWalk {
    /// A walk that has not started.
    fn new(alloc: Global, width: u32) -> Result<RandomWalk, NoMemory> {
        Ok(RandomWalk {
            state: Packed::empty(alloc, width)?,
            next: Packed::empty(alloc, width)?,
            applicable: Vec::new(alloc),
            random: RandomGenerator::new(),
        })
    }

    /// Returns to the initial state.
    fn start(&mut self, initial: &Packed) {
        if self.state.width() == initial.width() {
            self.state.copy_from(initial);
        }
    }

    /// Takes a random number of steps, at most `most`, and fewer if no instance is applicable any more.
    fn go(&mut self, memory: &DraftMemory, ground: &Ground<'_>, most: u32) {
        let steps = self.random.below(most as usize + 1);
        for _ in 0..steps {
            let is_taken = memory.kept(self.step(ground)).unwrap_or(false);
            if !is_taken {
                return;
            }
        }
    }

    /// Applies a random applicable instance, if there is one. Returns whether there was one.
    fn step(&mut self, ground: &Ground<'_>) -> Result<bool, NoMemory> {
        if self.state.width() != ground.width() || self.next.width() != ground.width() {
            return Ok(false);
        }
        ground.list_applicable(&self.state, &mut self.applicable)?;
        let place = self.random.below(self.applicable.len());
        let Some(number) = self.applicable.get(place) else {
            return Ok(false);
        };
        ground.step_into(*number, &self.state, &mut self.next);
        std::mem::swap(&mut self.state, &mut self.next);
        Ok(true)
    }
}

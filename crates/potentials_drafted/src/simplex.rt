//! The simplex algorithm (Dantzig 1951), for fair potentials whose weights need not be whole numbers.
//!
//! It moves from vertex to vertex of the polyhedron of fair potentials, starting where all weights are 0, so that the current
//! point is fair whenever it stops. If all allowances are 0, unbounded rays are what matters: along them no instance loses. At a
//! vertex as many constraints are tight as there are variables, and each has an edge along which it alone loosens. The next edge
//! is the steepest one (Goldfarb & Reid 1977). To avoid degenerate vertices, each cost is increased by a small random amount
//! (Charnes 1952).
use crate::aims::Aims;
use crate::linear_program::LinearProgram;
use crate::samples::RandomGenerator;
use faults::DraftMemory;
use potentials::Allowance;
use std::num::nearest_i64_to_f64;

/// The maximum number of pivots.
const MAX_PIVOTS: u32 = 65_536;

/// Gains and rates up to this size count as 0.
const NOTHING: f64 = 1e-9;

/// Numbers up to this size are rounding errors.
const ERROR: f64 = 1e-12;

/// The perturbation of the constraints, relative to the greatest cost.
const RISE: f64 = 1e-6;

/// The slack of a tight constraint: it cannot block until it has loosened.
const TIGHT: f64 = f64::INFINITY;

/// A tight constraint and the edge along which it alone loosens: the growth of each variable along it, the gain of the states,
/// and the square of its length.
#[derive(Drop)]
struct Edge {
    constraint: usize,
    /// The only variable that grows, as long as the edge was never updated and `along` is empty.
    alone: usize,
    along: Vec<f64>,
    gain: f64,
    square: f64,
}

/// A constraint: a variable is at least 0, or the instance at an index loses no more than allowed.
#[derive(Clone, Copy)]
enum Constraint {
    Variable(usize),
    Instance(usize),
}

/// A constraint that blocks an edge, its distance, and the rate at which it approaches.
#[derive(Clone, Copy)]
struct BlockingConstraint {
    constraint: usize,
    far: f64,
    rate: f64,
}

/// The result of a pivot.
#[derive(Clone, Copy, PartialEq, Eq)]
enum Pivot {
    /// The next vertex was reached.
    Made,
    /// No edge has a positive gain.
    Optimal,
    /// There is an unbounded ray: the last edge.
    Unbounded,
}

/// A vertex. Its constraints are first those of the instances, which lose no more than allowed, and then those of the variables,
/// which are at least 0.
#[derive(Drop)]
pub(crate) struct Vertex {
    edges: Vec<Edge>,
    instances: usize,
    variables: usize,
    /// The slack of each constraint.
    slacks: Vec<f64>,
    /// The rate at which each constraint approaches along the current edge, and the constraints that do approach.
    rates: Vec<f64>,
    nearing: Vec<usize>,
    /// Work counter, and its limit, after which no further step is taken.
    work: u64,
    max_work: u64,
}

/// The amount that an instance with this cost may lose.
fn allowed(allowance: Allowance, cost: i64) -> i64 {
    match allowance {
        Allowance::Cost => cost,
        Allowance::Nothing => 0,
    }
}

impl Vertex {
    /// The vertex with all weights 0, for this allowance and this work limit.
    pub(crate) fn new(program: &LinearProgram<'_>, allowance: Allowance, max_work: u64) -> Vertex {
        let memory = program.memory();
        let input = program.input();
        let instances = input.costs().len();
        let variables = program.variables().len();
        let mut vertex = Vertex {
            edges: memory.list(),
            instances,
            variables,
            slacks: memory.list(),
            rates: memory.filled(0.0, instances.saturating_add(variables)),
            nearing: memory.list(),
            work: 0,
            max_work,
        };
        vertex.fill_slacks(memory, input.costs(), allowance);
        for variable in 0..variables {
            vertex.add_edge(memory, variable);
        }
        vertex
    }

    /// Sets the slacks of the instances' constraints, slightly perturbed.
    fn fill_slacks(&mut self, memory: &DraftMemory, costs: &[i64], allowance: Allowance) {
        let mut most = 1;
        for cost in costs {
            most = most.max(allowed(allowance, *cost));
        }
        let rise = RISE * nearest_i64_to_f64(most);
        let mut random = RandomGenerator::new();
        for cost in costs {
            let more = rise * (1.0 + random.part());
            let slack = nearest_i64_to_f64(allowed(allowance, *cost)) + more;
            memory.push(&mut self.slacks, slack);
        }
    }

    /// Adds the constraint of a variable, and the edge along which only this variable grows.
    fn add_edge(&mut self, memory: &DraftMemory, variable: usize) {
        memory.push(&mut self.slacks, TIGHT);
        let edge = Edge {
            constraint: self.instances.saturating_add(variable),
            alone: variable,
            along: memory.list(),
            gain: 0.0,
            square: 1.0,
        };
        memory.push(&mut self.edges, edge);
    }

    /// Pivots as long as the objective improves: the initial state's gain, plus `share` times that of the sampled states. Returns
    /// whether a step was taken.
    pub(crate) fn climb(&mut self, program: &LinearProgram<'_>, aims: &Aims, share: f64) -> bool {
        self.aim_at(program, aims, share);
        let before = self.work;
        for _ in 0..MAX_PIVOTS {
            if self.is_done(program) || self.pivot(program) != Pivot::Made {
                return self.work > before;
            }
        }
        true
    }

    /// Pivots until it finds an unbounded ray along which the initial state gains. Returns the growth of each variable along it.
    pub(crate) fn unbounded_ray(
        &mut self,
        program: &LinearProgram<'_>,
        aims: &Aims,
    ) -> Option<&[f64]> {
        self.aim_at(program, aims, 0.0);
        for _ in 0..MAX_PIVOTS {
            if self.is_done(program) {
                return None;
            }
            match self.pivot(program) {
                Pivot::Made => {}
                Pivot::Optimal => return None,
                Pivot::Unbounded => {
                    return match self.edges.last() {
                        Some(edge) => Some(edge.along.as_slice()),
                        None => None,
                    };
                }
            }
        }
        None
    }

    /// Whether the work limit is reached, or memory was refused.
    fn is_done(&self, program: &LinearProgram<'_>) -> bool {
        self.work > self.max_work || program.memory().is_refused()
    }

    /// Limits the further work to this amount.
    pub(crate) fn limit_work(&mut self, more: u64) {
        self.max_work = self.max_work.min(self.work.saturating_add(more));
    }

    /// Computes the gain along each edge.
    fn aim_at(&mut self, program: &LinearProgram<'_>, aims: &Aims, share: f64) {
        let mut read = self.edges.len();
        for edge in self.edges.iter_mut() {
            edge.aim_at(program, aims, share);
            read = read.saturating_add(edge.along.len());
        }
        self.count(read);
    }

    /// Moves to the next vertex, if there is one.
    fn pivot(&mut self, program: &LinearProgram<'_>) -> Pivot {
        let Some(place) = self.steepest_edge() else {
            return Pivot::Optimal;
        };
        if place >= self.edges.len() {
            return Pivot::Optimal;
        }
        let memory = program.memory();
        let mut edge = self.edges.swap_remove(place);
        edge.fill(memory, self.variables);
        self.fill_rates(program, &edge);
        let blocking = self.blocking_constraint();
        self.advance(blocking);
        let mut pivot = Pivot::Unbounded;
        if let Some(blocking) = blocking {
            self.set_slack(edge.constraint, blocking.far);
            self.set_slack(blocking.constraint, TIGHT);
            edge.exchange(blocking);
            self.update_edges(program, &edge);
            pivot = Pivot::Made;
        }
        memory.push(&mut self.edges, edge);
        pivot
    }

    /// The index of the edge with the greatest gain relative to its length.
    fn steepest_edge(&self) -> Option<usize> {
        let mut best = None;
        let mut most = 0.0;
        for (place, edge) in self.edges.iter().enumerate() {
            let gain = edge.gain * edge.gain;
            if edge.gain > NOTHING && gain > most * edge.square {
                most = gain / edge.square;
                best = Some(place);
            }
        }
        best
    }

    /// Computes the rate at which each constraint approaches along the edge.
    fn fill_rates(&mut self, program: &LinearProgram<'_>, edge: &Edge) {
        let memory = program.memory();
        let input = program.input();
        let mut constraint = self.instances;
        for (step, far) in program.variables().iter().zip(&edge.along) {
            if *far != 0.0 {
                self.add_rate(memory, constraint, -*far);
                for touch in input.instances_of(step.atom) {
                    let loss = touch.loss(step.by);
                    if loss != 0 {
                        let more = nearest_i64_to_f64(loss) * *far;
                        self.add_rate(memory, touch.number as usize, more);
                    }
                }
            }
            constraint = constraint.saturating_add(1);
        }
        self.count(edge.along.len());
    }

    /// Increases the rate of the constraint by this amount.
    fn add_rate(&mut self, memory: &DraftMemory, constraint: usize, more: f64) {
        self.count(1);
        if constraint < self.rates.len() {
            if self.rates[constraint] == 0.0 {
                memory.push(&mut self.nearing, constraint);
            }
            self.rates[constraint] += more;
        }
    }

    /// The first constraint that blocks the edge.
    fn blocking_constraint(&self) -> Option<BlockingConstraint> {
        let mut first = None;
        for constraint in &self.nearing {
            let rate = at(&self.rates, *constraint);
            let slack = at(&self.slacks, *constraint);
            if rate > NOTHING && slack < TIGHT {
                let far = slack.max(0.0) / rate;
                let blocking = BlockingConstraint {
                    constraint: *constraint,
                    far,
                    rate,
                };
                first = Some(blocking.or_earlier(first));
            }
        }
        first
    }

    /// Moves along the edge up to the blocking constraint, if there is one, and removes the edge.
    fn advance(&mut self, blocking: Option<BlockingConstraint>) {
        let far = match blocking {
            Some(blocking) => blocking.far,
            None => 0.0,
        };
        for constraint in &self.nearing {
            if *constraint < self.slacks.len() && *constraint < self.rates.len() {
                self.slacks[*constraint] -= far * self.rates[*constraint];
                self.rates[*constraint] = 0.0;
            }
        }
        self.nearing.clear();
    }

    /// Updates the other edges so that the new constraint stays tight along them.
    fn update_edges(&mut self, program: &LinearProgram<'_>, by: &Edge) {
        let constraint = match by.constraint.checked_sub(self.instances) {
            Some(variable) => Constraint::Variable(variable),
            None => Constraint::Instance(by.constraint),
        };
        let mut updated = 0usize;
        for edge in self.edges.iter_mut() {
            let rate = edge.rate(program, constraint);
            if rate.abs() > ERROR {
                edge.fill(program.memory(), by.along.len());
                edge.add(rate, by);
                updated = updated.saturating_add(1);
            }
        }
        let read = program
            .input()
            .atoms_at(by.constraint)
            .len()
            .saturating_add(1);
        let edges = self.edges.len();
        self.count(read.saturating_mul(edges));
        self.count(updated.saturating_mul(by.along.len()));
    }

    /// The value of each variable, for the unperturbed costs.
    pub(crate) fn grown(&self, program: &LinearProgram<'_>) -> Vec<f64> {
        let costs = program.input().costs();
        let mut grown = program.memory().filled(0.0, self.variables);
        for edge in &self.edges {
            if let Some(cost) = costs.get(edge.constraint) {
                let back = nearest_i64_to_f64(*cost);
                for (sum, far) in grown.iter_mut().zip(&edge.along) {
                    *sum -= back * *far;
                }
            }
        }
        grown
    }

    /// Counts this much work.
    fn count(&mut self, more: usize) {
        self.work = self.work.saturating_add(more as u64);
    }

    /// Sets the slack of the constraint.
    fn set_slack(&mut self, constraint: usize, slack: f64) {
        if constraint < self.slacks.len() {
            self.slacks[constraint] = slack;
        }
    }
}

impl Edge {
    /// Computes the gain along the edge.
    fn aim_at(&mut self, program: &LinearProgram<'_>, aims: &Aims, share: f64) {
        self.gain = match program.variables().get(self.alone) {
            Some(step) if self.along.is_empty() => aims.shared_gain(program.input(), *step, share),
            _ => 0.0,
        };
        for (step, far) in program.variables().iter().zip(&self.along) {
            if *far != 0.0 {
                self.gain += *far * aims.shared_gain(program.input(), *step, share);
            }
        }
    }

    /// Assigns the edge to the blocking constraint.
    fn exchange(&mut self, blocking: BlockingConstraint) {
        self.constraint = blocking.constraint;
        self.gain /= -blocking.rate;
        self.square /= blocking.rate * blocking.rate;
        for far in self.along.iter_mut() {
            *far /= -blocking.rate;
        }
    }

    /// The rate at which the constraint approaches along the edge.
    fn rate(&self, program: &LinearProgram<'_>, constraint: Constraint) -> f64 {
        match constraint {
            Constraint::Variable(variable) => -self.growth(variable),
            Constraint::Instance(place) => self.rate_of_instance(program, place),
        }
    }

    /// The rate at which the loss of the instance at this index grows along the edge.
    fn rate_of_instance(&self, program: &LinearProgram<'_>, place: usize) -> f64 {
        let mut rate = 0.0;
        for touch in program.input().atoms_at(place) {
            for by in [-1, 1] {
                if let Some(variable) = program.variable(touch.number, by) {
                    rate += nearest_i64_to_f64(touch.loss(by)) * self.growth(variable);
                }
            }
        }
        rate
    }

    /// The growth of the variable along the edge.
    fn growth(&self, variable: usize) -> f64 {
        if self.along.is_empty() {
            return if variable == self.alone { 1.0 } else { 0.0 };
        }
        at(&self.along, variable)
    }

    /// Fills `along` with the growth of each of this many variables.
    fn fill(&mut self, memory: &DraftMemory, variables: usize) {
        if self.along.is_empty() {
            for variable in 0..variables {
                let far = if variable == self.alone { 1.0 } else { 0.0 };
                memory.push(&mut self.along, far);
            }
        }
    }

    /// Adds a multiple of the other edge.
    fn add(&mut self, times: f64, other: &Edge) {
        self.gain += times * other.gain;
        let mut square = NOTHING;
        for (far, more) in self.along.iter_mut().zip(&other.along) {
            *far += times * *more;
            if far.abs() < ERROR {
                *far = 0.0;
            }
            square += *far * *far;
        }
        self.square = square;
    }
}

impl BlockingConstraint {
    /// The earlier of this constraint and the first one so far; at the same distance, the one that approaches faster.
    fn or_earlier(self, first: Option<BlockingConstraint>) -> BlockingConstraint {
        match first {
            Some(first) => {
                if self.far < first.far || self.far == first.far && self.rate > first.rate {
                    self
                } else {
                    first
                }
            }
            None => self,
        }
    }
}

/// The number at this index.
fn at(numbers: &[f64], place: usize) -> f64 {
    match numbers.get(place) {
        Some(number) => *number,
        None => 0.0,
    }
}

//! The operators of a delete relaxation, made instance by instance.
use crate::facts::{ALWAYS, Facts, GOAL};
use crate::rows::{Rows, number_of};
use faults::DraftMemory;
use grounding::{CountingChange, NumberedLiteral};

/// An instance of the ground task, by its parts.
#[derive(Clone, Copy)]
pub(crate) struct InstanceParts<'a, 't> {
    /// The sure literals of its precondition.
    pub(crate) literals: &'a [NumberedLiteral],
    /// Its changes that count.
    pub(crate) changes: &'a [CountingChange<'t>],
}

/// The operators. Each reaches some facts where all facts that it needs are reached. An instance has one for all its unconditional
/// changes, and one for each change under a `when`.
#[derive(Drop)]
pub(crate) struct Operators {
    /// What each needs.
    pub(crate) needs: Rows,
    /// What each reaches.
    pub(crate) reaches: Rows,
    /// The instance of each; one past the last for the operator that reaches the goal.
    pub(crate) instances: Vec<u32>,
    /// The first operator of each instance, one after another.
    pub(crate) firsts: Vec<u32>,
    /// What the operator that is being made needs, and what it reaches.
    needed: Vec<u32>,
    reached: Vec<u32>,
}

impl Operators {
    /// No operators.
    pub(crate) fn none(memory: &DraftMemory) -> Operators {
        Operators {
            needs: Rows::none(memory),
            reaches: Rows::none(memory),
            instances: memory.list(),
            firsts: memory.list(),
            needed: memory.list(),
            reached: memory.list(),
        }
    }

    /// Adds the operators of the next instance.
    pub(crate) fn add_instance(
        &mut self,
        memory: &DraftMemory,
        facts: &Facts,
        instance: InstanceParts<'_, '_>,
    ) {
        self.begin_instance(memory);
        let InstanceParts { literals, changes } = instance;
        self.begin(memory, facts, literals);
        for change in changes {
            if change.is_unconditional() && counts(change, changes) {
                self.reach(memory, facts, change);
            }
        }
        self.end(memory);
        for change in changes {
            if is_possible(change) && counts(change, changes) {
                self.begin(memory, facts, literals);
                self.need(memory, facts, change.condition());
                self.reach(memory, facts, change);
                self.end(memory);
            }
        }
    }

    /// Adds an instance that is never applicable.
    pub(crate) fn add_none(&mut self, memory: &DraftMemory) {
        self.begin_instance(memory);
    }

    /// Adds the operator that reaches the goal, which has these sure literals, after all instances.
    pub(crate) fn add_goal(
        &mut self,
        memory: &DraftMemory,
        facts: &Facts,
        literals: &[NumberedLiteral],
    ) {
        self.begin_instance(memory);
        self.begin(memory, facts, literals);
        memory.push(&mut self.reached, GOAL);
        self.end(memory);
        self.begin_instance(memory);
    }

    /// Begins the next instance.
    fn begin_instance(&mut self, memory: &DraftMemory) {
        let first = self.needs.count();
        memory.push(&mut self.firsts, first);
    }

    /// Begins an operator that needs the facts of these literals.
    fn begin(&mut self, memory: &DraftMemory, facts: &Facts, literals: &[NumberedLiteral]) {
        self.needed.clear();
        self.reached.clear();
        self.need(memory, facts, literals);
    }

    /// Adds the facts of these literals to what the operator needs.
    fn need(&mut self, memory: &DraftMemory, facts: &Facts, literals: &[NumberedLiteral]) {
        for literal in literals {
            if let Some(fact) = facts.of(*literal) {
                memory.push(&mut self.needed, fact);
            }
        }
    }

    /// Adds the fact of the literal that the change makes true to what the operator reaches, if it does not need it.
    fn reach(&mut self, memory: &DraftMemory, facts: &Facts, change: &CountingChange<'_>) {
        let literal = NumberedLiteral {
            atom: change.atom,
            value: change.value,
        };
        if let Some(fact) = facts.of(literal) {
            if !self.needed.contains(&fact) {
                memory.push(&mut self.reached, fact);
            }
        }
    }

    /// Ends the operator, which is one of the last instance. One that reaches nothing is left out.
    fn end(&mut self, memory: &DraftMemory) {
        if self.reached.is_empty() {
            return;
        }
        if self.needed.is_empty() {
            memory.push(&mut self.needed, ALWAYS);
        }
        put_in_order(&mut self.needed);
        put_in_order(&mut self.reached);
        self.needs.push(memory, &self.needed);
        self.reaches.push(memory, &self.reached);
        let instance = number_of(self.firsts.len()).saturating_sub(1);
        memory.push(&mut self.instances, instance);
    }
}

/// Puts the facts in ascending order, without repetition.
fn put_in_order(facts: &mut Vec<u32>) {
    facts.sort_unstable();
    facts.dedup();
}

/// Whether the change is under a `when` that may hold.
fn is_possible(change: &CountingChange<'_>) -> bool {
    !change.is_unconditional() && !change.requires_unnumbered()
}

/// Whether the change, which is one of these, may make its literal true. A delete does not count if an unconditional change adds
/// the atom.
fn counts(change: &CountingChange<'_>, changes: &[CountingChange<'_>]) -> bool {
    change.value || !surely_adds(changes, change.atom)
}

/// Whether one of the changes adds the atom unconditionally.
fn surely_adds(changes: &[CountingChange<'_>], atom: u32) -> bool {
    changes.iter().any(|change| change.atom == atom && change.value && change.is_unconditional())
}

//! The delete relaxation of a ground task (Bonet & Geffner 2001, "Planning as Heuristic Search"), in which what is reached stays
//! reached.
//!
//! A negated literal is a fact of its own, so deletes of atoms reach facts too. Parts of preconditions and conditions that are no
//! sure literals are left out: then more is reached, and the costs of the goal are still lower bounds.
use crate::facts::Facts;
use crate::operators::{InstanceParts, Operators};
use crate::rows::Rows;
use faults::DraftMemory;
use grounding::{Ground, instance_count};
use std::ops::Range;

/// A delete relaxation, over the kept instances: those that some state reaches and the others.
#[derive(Drop)]
pub(crate) struct RelaxedTask {
    pub(crate) facts: Facts,
    operators: Operators,
    /// What each instance costs, and that the goal's operator costs nothing.
    costs: Vec<u32>,
    /// For each fact, the operators that need it.
    needed_by: Rows,
    /// For each fact, the operators that reach it.
    reached_by: Rows,
}

impl RelaxedTask {
    /// The relaxation of the ground task.
    pub(crate) fn new(memory: &DraftMemory, ground: &Ground<'_>) -> RelaxedTask {
        let facts = facts_of(memory, ground);
        let operators = operators_of(memory, ground, &facts);
        let needed_by = operators.needs.turned(memory, facts.count());
        let reached_by = operators.reaches.turned(memory, facts.count());
        RelaxedTask {
            facts,
            operators,
            costs: costs_of(memory, ground),
            needed_by,
            reached_by,
        }
    }

    /// The number of operators.
    pub(crate) fn operator_count(&self) -> u32 {
        self.operators.needs.count()
    }

    /// The facts that the operator needs, at least one.
    pub(crate) fn needs(&self, operator: u32) -> &[u32] {
        self.operators.needs.of(operator)
    }

    /// The facts that the operator reaches, at least one. It needs none of them.
    pub(crate) fn reaches(&self, operator: u32) -> &[u32] {
        self.operators.reaches.of(operator)
    }

    /// The operators that need the fact.
    pub(crate) fn needed_by(&self, fact: u32) -> &[u32] {
        self.needed_by.of(fact)
    }

    /// The operators that reach the fact.
    pub(crate) fn reached_by(&self, fact: u32) -> &[u32] {
        self.reached_by.of(fact)
    }

    /// The instance of the operator.
    pub(crate) fn instance_of(&self, operator: u32) -> u32 {
        match self.operators.instances.get(operator as usize) {
            Some(instance) => *instance,
            None => 0,
        }
    }

    /// The operators of the instance.
    pub(crate) fn operators_of(&self, instance: u32) -> Range<u32> {
        let place = instance as usize;
        let firsts = &self.operators.firsts;
        if place + 1 < firsts.len() {
            firsts[place]..firsts[place + 1]
        } else {
            0..0
        }
    }

    /// What the operator's instance costs.
    pub(crate) fn cost(&self, operator: u32) -> u32 {
        match self.costs.get(self.instance_of(operator) as usize) {
            Some(cost) => *cost,
            None => 0,
        }
    }
}

/// The literals that the goal, an instance or a change's condition needs. Instances that are never applicable are left out.
fn facts_of(memory: &DraftMemory, ground: &Ground<'_>) -> Facts {
    let mut facts = Facts::none(memory, ground.width());
    facts.add_all(memory, ground.goal_literals());
    for number in 0..instance_count(ground) {
        if !ground.requires_unnumbered(number) {
            facts.add_all(memory, ground.literals(number));
            for change in ground.counting(number) {
                facts.add_all(memory, change.condition());
            }
        }
    }
    facts
}

/// The operators of all instances, and the one that reaches the goal.
fn operators_of(memory: &DraftMemory, ground: &Ground<'_>, facts: &Facts) -> Operators {
    let mut operators = Operators::none(memory);
    for number in 0..instance_count(ground) {
        if ground.requires_unnumbered(number) {
            operators.add_none(memory);
        } else {
            let literals = ground.literals(number);
            let changes = ground.counting(number);
            operators.add_instance(memory, facts, InstanceParts { literals, changes });
        }
    }
    operators.add_goal(memory, facts, ground.goal_literals());
    operators
}

/// What each instance costs, and 0 for the goal's operator.
fn costs_of(memory: &DraftMemory, ground: &Ground<'_>) -> Vec<u32> {
    let mut costs = memory.list();
    for number in 0..instance_count(ground) {
        memory.push(&mut costs, ground.cost(number));
    }
    memory.push(&mut costs, 0);
    costs
}

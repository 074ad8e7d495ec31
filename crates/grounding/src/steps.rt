//! The steps of a ground task.
ghost use Rattle.std.specs.Prelude.{◌≡◌, ◌+◌, ◌<◌, ◌≤◌, ◌^◌, ◌∷◌, ◌++◌, [], if◌then◌else◌, All, filter, length, slice_get, slice_set, is_some, IfOk, OnOk, OnErr, IsTrue};
ghost use Rattle.std.specs.Vec.{vec_capacity};
ghost use Rattle.packed_state.specs.Packed.{bits_of};
ghost use Rattle.model.specs.StaticallyFalse.{kept_instances};
ghost use Rattle.model.specs.NumberedLiterals as model_literals;
ghost use Rattle.model.specs.Grounding.{state_of_bits, ground_step, ground_system, applicable_numbers};
ghost use Rattle.grounding_instances.specs.Numbers.{numbered_of};
ghost use Rattle.grounding.specs.ChangedBits.{with_bits};
ghost use Rattle.grounding.specs.MatchNodes.{met, left_out, found, IsWithin, IsMet};
ghost use Rattle.grounding.specs.NumberedEffects.{is_met, numbers_made, numbers_set};
ghost use Rattle.grounding.specs.Changes.{guard_in, effect_in, GuardFits, IsCompiled};
ghost use Rattle.grounding.specs.Ground.{task_in, atoms_in};

use crate::changes::CountingChange;
use crate::condition::{agrees, evaluate, holds_in};
use crate::ground::Ground;
use crate::match_tree::Node;
use faults::NoMemory;
use formulas::Binding;
use grounding_instances::NumberedLiteral;
use packed_state::Packed;
use std::alloc::Global;

impl Ground<'_> {
    /// The initial state.
    pub fn initial(&self, alloc: Global) -> Result<Packed, NoMemory>
        ensures { IfOk result (λ p. bits_of p ≡ (ground_system (task_in self.now) (atoms_in self.now)).initial) }
    {
        let mut state = Packed::empty(alloc, self.width())?;
        for number in 0..self.width() {
            if self.is_initial(number) {
                state.insert(number);
            }
        }
        Ok(state)
    }

    /// Whether the atom with this number is in the initial state.
    fn is_initial(&self, number: u32) -> bool
        requires { number < length (atoms_in self.now) }
        ensures { Some result ≡ slice_get (ground_system (task_in self.now) (atoms_in self.now)).initial number }
    {
        match self.numbering.atoms().get_index(number as usize) {
            Some(atom) => self.numbering.is_initial(atom),
            None => unreachable!(),
        }
    }

    /// Whether the state satisfies the goal.
    pub fn meets_goal(&self, state: &Packed) -> bool
        requires { length (bits_of state.now) ≡ length (atoms_in self.now) }
        ensures { result ≡ (ground_system (task_in self.now) (atoms_in self.now)).meets_goal (bits_of state.now) }
    {
        let goal = self.numbering.task().goal();
        holds_in(&self.goal, &self.numbering, goal, &Binding::new(), state)
    }

    /// The numbers of the applicable instances, in ascending order, as a list of their own. A search calls `list_applicable`, which
    /// reuses one list.
    pub fn applicable(&self, alloc: Global, state: &Packed) -> Result<Vec<u32>, NoMemory>
        requires { length (bits_of state.now) ≡ length (atoms_in self.now) }
        ensures { IfOk result (λ found. found.items ≡ applicable_numbers (task_in self.now) (atoms_in self.now) (bits_of state.now)) }
    {
        let mut found = Vec::new(alloc);
        self.list_applicable(state, &mut found)?;
        Ok(found)
    }

    /// Replaces the contents of `into` by the numbers of the applicable instances, in ascending order. The list gets room for
    /// all instances, so that no later call takes memory.
    ///
    /// # Errors
    /// Memory was refused: `into` is as it was.
    pub fn list_applicable(&self, state: &Packed, into: &mut Vec<u32>) -> Result<(), NoMemory>
        requires { length (bits_of state.now) ≡ length (atoms_in self.now) }
        ensures ok { OnOk result (into.new.items ≡ applicable_numbers (task_in self.now) (atoms_in self.now) (bits_of state.now)) }
        ensures err { OnErr result (into.new.items ≡ into.old.items) }
    {
        let count = self.conditions.len();
        into.reserve(count.saturating_sub(into.len()))?;
        into.clear();
        let mut atom = state.next(0);
        'lists: while atom < self.width() {
            self.add_from_tree(self.tree.of(atom), state, into);
            atom = state.next(atom + 1);
        }
        self.add_from_tree(&self.tree.unwatched, state, into);
        into.sort_unstable();
        Ok(())
    }

    /// Appends the applicable instances in the tree of these nodes.
    fn add_from_tree(&self, nodes: &[Node], state: &Packed, into: &mut Vec<u32>)
        requires width { length (bits_of state.now) ≡ length (atoms_in self.now) }
        requires within { All (IsWithin (length (atoms_in self.now))) nodes.now }
        requires agreed { All (IsMet self.now.conditions.items (bits_of state.now)) (found (bits_of state.now) 0 nodes.now) }
        requires room { length into.old.items + length (found (bits_of state.now) 0 nodes.now) ≤ vec_capacity into.old }
        ensures items { into.new.items ≡ into.old.items ++ filter (λ number. is_some (ground_step (task_in self.now) (atoms_in self.now) (bits_of state.now) number)) (found (bits_of state.now) 0 nodes.now) }
        ensures capacity { vec_capacity into.new ≡ vec_capacity into.old }
    {
        let mut place = 0;
        'nodes: while place < nodes.len() {
            place += self.visit(&nodes[place], state, into);
        }
    }

    /// Visits the node, and appends its instance if it is applicable. Answers the distance to the next node to visit.
    fn visit(&self, node: &Node, state: &Packed, into: &mut Vec<u32>) -> usize
        requires width { length (bits_of state.now) ≡ length (atoms_in self.now) }
        requires within { IsWithin (length (atoms_in self.now)) node.now }
        requires agreed { All (IsMet self.now.conditions.items (bits_of state.now)) (met node.now) }
        requires room { length into.old.items + length (met node.now) ≤ vec_capacity into.old }
        ensures next { result ≡ 1 + left_out (bits_of state.now) node.now }
        ensures items { into.new.items ≡ into.old.items ++ filter (λ number. is_some (ground_step (task_in self.now) (atoms_in self.now) (bits_of state.now) number)) (met node.now) }
        ensures capacity { vec_capacity into.new ≡ vec_capacity into.old }
    {
        match node {
            Node::Test(literal, below) => pass(literal, *below, state),
            Node::Instance(number) => {
                self.add_if_applicable(*number, state, into);
                1
            }
        }
    }

    /// Appends the instance, whose literals are true in the state, if it is applicable.
    fn add_if_applicable(&self, number: u32, state: &Packed, into: &mut Vec<u32>)
        requires width { length (bits_of state.now) ≡ length (atoms_in self.now) }
        requires agreed { IsMet self.now.conditions.items (bits_of state.now) number }
        requires room { length into.old.items < vec_capacity into.old }
        ensures items { into.new.items ≡ into.old.items ++ filter (λ number. is_some (ground_step (task_in self.now) (atoms_in self.now) (bits_of state.now) number)) (number ∷ []) }
        ensures capacity { vec_capacity into.new ≡ vec_capacity into.old }
    {
        if !self.is_applicable(number, state) {
            return;
        }
        into.push_reserved(number);
    }

    /// Whether the instance, whose literals are true in the state, is applicable.
    fn is_applicable(&self, number: u32, state: &Packed) -> bool
        requires width { length (bits_of state.now) ≡ length (atoms_in self.now) }
        requires agreed { IsMet self.now.conditions.items (bits_of state.now) number }
        ensures { result ≡ is_some (ground_step (task_in self.now) (atoms_in self.now) (bits_of state.now) number) }
    {
        match self.conditions[number as usize].decides_beyond() {
            Some(decided) => decided,
            None => self.precondition_holds(number, state),
        }
    }

    /// Whether the instance is applicable, by evaluating its precondition.
    fn precondition_holds(&self, number: u32, state: &Packed) -> bool
        requires within { number < length (kept_instances (task_in self.now)) }
        requires width { length (bits_of state.now) ≡ length (atoms_in self.now) }
        ensures { result ≡ is_some (ground_step (task_in self.now) (atoms_in self.now) (bits_of state.now) number) }
    {
        let instance = &self.numbering.instances()[number as usize];
        match self.numbering.task().schema(instance.schema) {
            Some(schema) => evaluate(
                &self.numbering,
                &schema.precondition,
                &instance.objects,
                state,
            ),
            None => unreachable!(),
        }
    }

    /// The successor of the state by the instance with this number, as a state of its own. A search calls `step_into`, which reuses
    /// one state.
    pub fn successor(&self, alloc: Global, number: u32, state: &Packed) -> Result<Packed, NoMemory>
        requires width { length (bits_of state.now) ≡ length (atoms_in self.now) }
        requires applicable { IsTrue (is_some (ground_step (task_in self.now) (atoms_in self.now) (bits_of state.now) number)) }
        ensures { IfOk result (λ next. ground_step (task_in self.now) (atoms_in self.now) (bits_of state.now) number ≡ Some (bits_of next)) }
    {
        let mut next = Packed::empty(alloc, self.width())?;
        self.step_into(number, state, &mut next);
        Ok(next)
    }

    /// Replaces `into` by the successor of the state: the changes whose conditions hold in the state are made, deletes before
    /// adds. No memory is taken.
    pub fn step_into(&self, number: u32, state: &Packed, into: &mut Packed)
        requires width { length (bits_of state.now) ≡ length (atoms_in self.now) }
        requires into_width { length (bits_of into.old) ≡ length (atoms_in self.now) }
        requires applicable { IsTrue (is_some (ground_step (task_in self.now) (atoms_in self.now) (bits_of state.now) number)) }
        ensures { ground_step (task_in self.now) (atoms_in self.now) (bits_of state.now) number ≡ Some (bits_of into.new) }
    {
        into.copy_from(state);
        self.make(number, state, false, into);
        self.make(number, state, true, into);
    }

    /// Makes the changes of the instance that set atoms to `value` and whose conditions hold in the state before.
    fn make(&self, number: u32, before: &Packed, value: bool, into: &mut Packed)
        requires within { number < length (kept_instances (task_in self.now)) }
        requires width { length (bits_of before.now) ≡ length (atoms_in self.now) }
        requires into_width { length (bits_of into.old) ≡ length (atoms_in self.now) }
        ensures { bits_of into.new ≡ with_bits value (bits_of into.old) (numbers_set (task_in self.now) (atoms_in self.now) (bits_of before.now) value number) }
    {
        let changes = self.changes[number as usize].as_slice();
        for change in changes {
            self.make_one(change, before, value, into);
        }
    }

    /// Makes the change if it sets its atom to `value` and its condition holds in the state before.
    fn make_one(&self, change: &CountingChange<'_>, before: &Packed, value: bool, into: &mut Packed)
        requires fits { GuardFits (task_in self.now) (guard_in change.now.condition) }
        requires compiled { IsCompiled (task_in self.now) (atoms_in self.now) change.now.condition }
        requires within { change.now.atom < length (bits_of into.old) }
        requires width { length (bits_of before.now) ≡ length (atoms_in self.now) }
        ensures { bits_of into.new ≡ with_bits value (bits_of into.old)
            (numbers_made (task_in self.now) (state_of_bits (task_in self.now) (atoms_in self.now) (bits_of before.now)) value (effect_in change.now ∷ [])) }
    {
        if change.value != value {
            return;
        }
        if self.is_met(change, before) {
            set(into, change.atom, value);
        }
    }

    /// Whether the change's condition holds in the state.
    fn is_met(&self, change: &CountingChange<'_>, state: &Packed) -> bool
        requires fits { GuardFits (task_in self.now) (guard_in change.now.condition) }
        requires compiled { IsCompiled (task_in self.now) (atoms_in self.now) change.now.condition }
        requires width { length (bits_of state.now) ≡ length (atoms_in self.now) }
        ensures { result ≡ is_met (task_in self.now) (state_of_bits (task_in self.now) (atoms_in self.now) (bits_of state.now)) (guard_in change.now.condition) }
    {
        match &change.condition {
            Some(under) => holds_in(
                &under.condition,
                &self.numbering,
                under.formula,
                &under.binding,
                state,
            ),
            None => true,
        }
    }
}

/// Adds the number if `value` is true; otherwise removes it.
fn set(into: &mut Packed, number: u32, value: bool)
    requires { number < length (bits_of into.old) }
    ensures { bits_of into.new ≡ slice_set (bits_of into.old) number value }
{
    if value {
        into.insert(number);
    } else {
        into.remove(number);
    }
}

/// The distance from a test of the literal to the next node to visit: past those below it if the literal is false.
fn pass(literal: &NumberedLiteral, below: usize, state: &Packed) -> usize
    requires within { literal.now.atom < length (bits_of state.now) }
    requires below { below < 2 ^ 63 }
    ensures { result ≡ 1 + (if model_literals.agrees (bits_of state.now) (numbered_of literal.now) then 0 else below) }
{
    if agrees(literal, state) { 1 } else { 1 + below }
}

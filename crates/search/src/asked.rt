//! The turn of a state: its value is asked for, and it is expanded unless it waits again or is dead.
ghost use Rattle.std.specs.Prelude.{◌≡◌, ◌≤◌, ◌+◌, ◌-◌, ◌^◌, ◌<◌, false, true, Some, MatchBool, IfOk, OnOk, length, slice_get, slice_set};
ghost use Rattle.packed_state.specs.Packed.{bits_of};
ghost use Rattle.search.specs.Nodes.{AreClosed};
ghost use Rattle.search.specs.OnDemand.{IsNoted};
ghost use Rattle.search.specs.OpenList.{JoinsBy};
ghost use Rattle.search.specs.Outcome.{AreClassesOf};
ghost use Rattle.search.specs.Progress.{AreWide, Defers, HoldsIn, IsAtTurn, IsStopped, TurnsOver, nodes_in};

use crate::bases::Rest;
use crate::best::MAX_STATES;
use crate::buffers::Buffers;
use crate::guide::Guide;
use crate::listing::StateListing;
use crate::nodes::{NodeStatus, StateId};
use crate::on_demand::{Answer, Basis, ValuesOnDemand};
use crate::problem::Problem;
use crate::progress::Progress;
use crate::transitions::TransitionSystem;
use crate::turns::Turn;
use faults::NoMemory;
use std::alloc::Global;

impl<L: StateListing> Progress<L> {
    /// The turn of the state in the buffers: its value is asked for, and it is expanded unless it waits again or is dead. `false`: the
    /// limit does not allow it, and the state waits again, but is not in the open list.
    pub(crate) fn take_turn<T: TransitionSystem, G: Guide, V: ValuesOnDemand>(
        &mut self,
        problem: &Problem<'_, T, G>,
        values: &mut V,
        buffers: &mut Buffers<G::Scratch>,
        turn: Turn,
    ) -> Result<bool, NoMemory>
        requires made_for { G.system_of problem.now.guide.now ≡ T.means problem.now.system.now }
        requires values_for { V.system_of values.old ≡ T.means problem.now.system.now }
        requires guide_width { G.width_of problem.now.guide.now ≡ T.width_of problem.now.system.now }
        requires values_width { V.width_of values.old ≡ T.width_of problem.now.system.now }
        requires turn { HoldsIn (T.means problem.now.system.now) (G.estimate_of problem.now.guide.now) (G.is_dead problem.now.guide.now) V.answers L.states self.old
            (λ value is_dead. IsAtTurn (T.means problem.now.system.now) (L.class_of self.old.store) value is_dead L.states self.old turn) }
        requires classes { AreClassesOf (T.means problem.now.system.now) (L.class_of self.old.store) }
        requires scratch { G.fits problem.now.guide.now buffers.old.scratch }
        requires open { AreClosed (T.means problem.now.system.now) (L.class_of self.old.store) (nodes_in L.states self.old) }
        requires state { slice_get (L.states self.old.store) turn.id.0 ≡ Some (bits_of buffers.old.state) }
        requires no_goal { (T.means problem.now.system.now).meets_goal (bits_of buffers.old.state) ≡ false }
        requires width { L.width_of self.old.store ≡ T.width_of problem.now.system.now }
        requires buffers { AreWide (T.width_of problem.now.system.now) buffers.old }
        requires within { length (L.states self.old.store) ≤ problem.now.max_states }
        requires limit { problem.now.max_states ≤ MAX_STATES }
        ensures width { IfOk result (λ _. L.width_of self.new.store ≡ T.width_of problem.now.system.now) }
        ensures class { IfOk result (λ _. L.class_of self.new.store ≡ L.class_of self.old.store) }
        ensures buffers { IfOk result (λ _. AreWide (T.width_of problem.now.system.now) buffers.new) }
        ensures scratch { IfOk result (λ _. G.fits problem.now.guide.now buffers.new.scratch) }
        ensures values_for { V.system_of values.new ≡ V.system_of values.old }
        ensures values_width { V.width_of values.new ≡ V.width_of values.old }
        ensures over { IfOk result (λ is_over. MatchBool is_over
            (HoldsIn (T.means problem.now.system.now) (G.estimate_of problem.now.guide.now) (G.is_dead problem.now.guide.now) V.answers L.states self.new
            (λ value is_dead. TurnsOver (T.means problem.now.system.now) (L.class_of self.old.store) value is_dead L.states self.old self.new buffers.old buffers.new problem.now.max_states))
            (HoldsIn (T.means problem.now.system.now) (G.estimate_of problem.now.guide.now) (G.is_dead problem.now.guide.now) V.answers L.states self.new
            (λ value is_dead. IsStopped (T.means problem.now.system.now) (L.class_of self.old.store) value is_dead L.states self.new turn problem.now.max_states))) }
    {
        self.make_room(problem.alloc, values)?;
        if self.defer(problem.guide, values, buffers, turn)? {
            return Ok(true);
        }
        self.expand(problem, values, buffers, turn)
    }

    /// Has bases forgotten that no state needs that waits or is dead, if they take too much memory.
    fn make_room<V: ValuesOnDemand>(&self, alloc: Global, values: &mut V) -> Result<(), NoMemory>
        ensures width { V.width_of values.new ≡ V.width_of values.old }
        ensures system { V.system_of values.new ≡ V.system_of values.old }
    {
        if values.is_full() {
            let used = self.bases.used(alloc, &self.nodes)?;
            values.forget(&used);
        }
        Ok(())
    }

    /// Asks for the value of the state in the buffers, whose turn it is, if it was never expanded. `true`: the value is raised, and the
    /// state waits again; or it is dead, and is marked so.
    fn defer<G: Guide, V: ValuesOnDemand>(
        &mut self,
        guide: &G,
        values: &mut V,
        buffers: &mut Buffers<G::Scratch>,
        turn: Turn,
    ) -> Result<bool, NoMemory>
        requires values_for { V.system_of values.old ≡ G.system_of guide.now }
        requires values_width { length (bits_of buffers.old.state) ≡ V.width_of values.old }
        requires turn { HoldsIn (G.system_of guide.now) (G.estimate_of guide.now) (G.is_dead guide.now) V.answers L.states self.old
            (λ value is_dead. IsAtTurn (G.system_of guide.now) (L.class_of self.old.store) value is_dead L.states self.old turn) }
        requires open { AreClosed (G.system_of guide.now) (L.class_of self.old.store) (nodes_in L.states self.old) }
        requires state { slice_get (L.states self.old.store) turn.id.0 ≡ Some (bits_of buffers.old.state) }
        requires within { length (L.states self.old.store) ≤ MAX_STATES }
        ensures store { self.new.store ≡ self.old.store }
        ensures state { buffers.new.state ≡ buffers.old.state }
        ensures next { buffers.new.next ≡ buffers.old.next }
        ensures scratch { buffers.new.scratch ≡ buffers.old.scratch }
        ensures values_for { V.system_of values.new ≡ V.system_of values.old }
        ensures values_width { V.width_of values.new ≡ V.width_of values.old }
        ensures asks { IfOk result (λ is_deferred. MatchBool is_deferred (buffers.new.asks < buffers.old.asks) (buffers.new.asks ≡ buffers.old.asks)) }
        ensures deferred { IfOk result (λ is_deferred. MatchBool is_deferred
            (HoldsIn (G.system_of guide.now) (G.estimate_of guide.now) (G.is_dead guide.now) V.answers L.states self.new
            (λ value is_dead. Defers (G.system_of guide.now) (L.class_of self.old.store) value is_dead L.states self.old self.new))
            (self.new ≡ self.old)) }
    {
        if buffers.asks == 0 {
            return Ok(false);
        }
        if self.nodes[turn.id.0 as usize].status.has_been_expanded() {
            return Ok(false);
        }
        let basis = self.bases.at(turn.id.0);
        let answer = values.ask(&buffers.state, turn.id.0, turn.estimate, basis)?;
        match answer {
            Answer::Nothing => Ok(false),
            Answer::Raised(basis, value) => {
                buffers.asks -= 1;
                self.raise(turn, basis, value)?;
                Ok(true)
            }
            Answer::Dead(basis) => {
                buffers.asks -= 1;
                self.bury(turn.id, basis)?;
                Ok(true)
            }
        }
    }

    /// The state whose turn it is has this value, from this basis, and waits again.
    fn raise(&mut self, turn: Turn, basis: Basis, value: u64) -> Result<(), NoMemory>
        requires sum { turn.estimate ≤ turn.sum }
        requires fits { turn.sum - turn.estimate + value < 2 ^ 64 }
        requires place { turn.id.0 < MAX_STATES }
        ensures store { self.new.store ≡ self.old.store }
        ensures nodes { self.new.nodes.items ≡ self.old.nodes.items }
        ensures bases { OnOk result (IsNoted self.old.bases self.new.bases turn.id.0 value) }
        ensures open_list { OnOk result (JoinsBy self.old.open_list self.new.open_list (turn.sum - turn.estimate) turn.id.0 (Some value)) }
    {
        self.enqueue(turn.id, turn.sum - turn.estimate, Some(value))?;
        let rest = Rest {
            basis: Some(basis),
            value,
        };
        self.bases.set(turn.id, rest)
    }

    /// The state at this place is dead, which comes from this basis.
    fn bury(&mut self, id: StateId, basis: Basis) -> Result<(), NoMemory>
        requires { id.0 < length self.old.nodes.items }
        ensures store { self.new.store ≡ self.old.store }
        ensures nodes { (node : _) → slice_get self.old.nodes.items id.0 ≡ Some node
            → self.new.nodes.items ≡ slice_set self.old.nodes.items id.0 (record node { status = NodeStatus.Dead }) }
        ensures bases { OnOk result (IsNoted self.old.bases self.new.bases id.0 0) }
        ensures open_list { self.new.open_list ≡ self.old.open_list }
    {
        self.mark(id, NodeStatus::Dead);
        let rest = Rest {
            basis: Some(basis),
            value: 0,
        };
        self.bases.set(id, rest)
    }
}

//! The progress of a search: the found states, and which of them wait.
ghost use Rattle.std.specs.Prelude.{◌≡◌, ◌≢◌, ℕ, ◌+◌, ◌<◌, ◌≤◌, ◌^◌, Bool, true, false, List, [], ◌∷◌, ◌++◌, length, slice_get, slice_set, Contains, All, MatchBool, IfOk, IfNone, IfSome, None, OnOk, OnSome, Some};
ghost use Rattle.packed_state.specs.Packed.{bits_of};
ghost use Rattle.search.specs.Outcome.{AreClassesOf};
ghost use Rattle.search.specs.Nodes.{Waiting, IsEntry, IsCurrent, AreClosed, IsPath, IsReachedIn};
ghost use Rattle.search.specs.OnDemand.{noted_at, IsNoted};
ghost use Rattle.search.specs.Standing.{rest_value, IsStandingAt};
ghost use Rattle.search.specs.OpenList.{waiting_in, IsOpenList, JoinsBy};
ghost use Rattle.search.specs.Progress.{AreNotedWith, HoldsIn, TakesNext, IsLeastWith, nodes_in, IsSearch, IsAtTurn, IsStopped, IsExpanding, IsPlaceAmong, IsReachedWithin, IsReachedCheaper, IsFreeFor, TakesPlace, IsLeftOut, Reaches, IsFull, Expands, AreWide};

use crate::bases::Bases;
use crate::best::MAX_STATES;
use crate::buffers::Buffers;
use crate::guide::Guide;
use crate::listing::{Place, StateListing};
use crate::nodes::{FoundStates, Node, NodeStatus, ShortId, StateId, steps_to};
use crate::on_demand::ValuesOnDemand;
use crate::open_list::OpenList;
use crate::problem::Problem;
use crate::transitions::TransitionSystem;
use crate::turns::{Reached, Standing, Successor, Turn, rest_by};
use faults::NoMemory;
use std::alloc::Global;
use std::cmp::Reverse;

/// The progress of a search.
#[derive(Drop)]
pub(crate) struct Progress<L> {
    pub(crate) store: L,
    pub(crate) nodes: Vec<Node>,
    /// The values that are kept for states beside the guide's, by place.
    pub(crate) bases: Bases,
    /// An entry for each waiting state, and stale ones: the state was expanded at this cost, or was reached at a lower cost since, or
    /// another took its place.
    pub(crate) open_list: OpenList,
}

impl<L: StateListing> Progress<L> {
    /// The progress in which the initial state alone is found. It waits unless it is reported dead.
    pub(crate) fn start<T: TransitionSystem, G: Guide>(
        alloc: Global,
        system: &T,
        guide: &G,
        scratch: &mut G::Scratch,
        mut store: L,
    ) -> Result<Progress<L>, NoMemory>
        requires guide_width { G.width_of guide.now ≡ T.width_of system.now }
        requires scratch { G.fits guide.now scratch.old }
        requires empty { L.states store ≡ [] }
        requires width { L.width_of store ≡ T.width_of system.now }
        ensures scratch { IfOk result (λ _. G.fits guide.now scratch.new) }
        ensures search { IfOk result (λ p. IsSearch (T.means system.now) (L.class_of store) (G.estimate_of guide.now) (G.is_dead guide.now) L.states p) }
        ensures open { IfOk result (λ p. AreClosed (T.means system.now) (L.class_of store) (nodes_in L.states p)) }
        ensures one { IfOk result (λ p. length (L.states p.store) ≡ 1) }
        ensures bases { IfOk result (λ p. (place : ℕ) → noted_at p.bases place ≡ 0) }
        ensures width { IfOk result (λ p. L.width_of p.store ≡ T.width_of system.now) }
        ensures class { IfOk result (λ p. L.class_of p.store ≡ L.class_of store) }
    {
        let initial = system.initial(alloc)?;
        store.place(&initial, 1)?;
        let mut progress = Progress {
            store,
            nodes: Vec::new(alloc),
            bases: Bases::new(alloc),
            open_list: OpenList::new(alloc),
        };
        let value = guide.value(&initial, scratch);
        let node = Node {
            cost: 0,
            status: NodeStatus::of_reached(value),
            parent: ShortId::new(StateId(0)),
            action: 0,
        };
        progress.add(StateId(0), node, value)?;
        Ok(progress)
    }

    /// Removes the next waiting state from the open list: that of the least sum of cost and estimate, of these the least estimate, and
    /// of these the one found first.
    pub(crate) fn next_waiting(&mut self) -> Option<Turn>
        requires heap { IsOpenList self.old.open_list }
        requires entries { All (IsEntry (length self.old.nodes.items)) (waiting_in self.old.open_list) }
        ensures store { self.new.store ≡ self.old.store }
        ensures nodes { self.new.nodes.items ≡ self.old.nodes.items }
        ensures bases { self.new.bases ≡ self.old.bases }
        ensures heap { OnSome result (IsOpenList self.new.open_list) }
        ensures kept { OnSome result ((w : Waiting) →
            Contains (waiting_in self.new.open_list) w → Contains (waiting_in self.old.open_list) w) }
        ensures none { IfNone result ((w : Waiting) →
            Contains (waiting_in self.old.open_list) w → ¬ IsCurrent self.old.nodes.items w) }
        ensures some { IfSome result
            (λ turn. TakesNext (waiting_in self.old.open_list) (waiting_in self.new.open_list) self.old.nodes.items turn) }
    {
        while let Some(Reverse((sum, estimate, id))) = self.open_list.pop() {
            let node = self.nodes[id.0 as usize];
            if !node.is_expanded() && node.cost == sum - estimate {
                return Some(Turn { id, sum, estimate });
            }
        }
        None
    }

    /// The least sum of a waiting state, one of which has this sum and is not in the open list.
    pub(crate) fn least_with(&mut self, sum: u64) -> u64
        requires heap { IsOpenList self.old.open_list }
        requires entries { All (IsEntry (length self.old.nodes.items)) (waiting_in self.old.open_list) }
        ensures store { self.new.store ≡ self.old.store }
        ensures nodes { self.new.nodes.items ≡ self.old.nodes.items }
        ensures bases { self.new.bases ≡ self.old.bases }
        ensures least { IsLeastWith sum (waiting_in self.old.open_list) self.old.nodes.items result }
    {
        match self.next_waiting() {
            Some(next) => sum.min(next.sum),
            None => sum,
        }
    }

    /// Adds the node of a new state, which waits if it has an estimate.
    fn add(&mut self, id: StateId, node: Node, estimate: Option<u64>) -> Result<(), NoMemory>
        requires sum { IfSome estimate (λ e. node.cost + e < 2 ^ 64) }
        requires place { id.0 < MAX_STATES }
        ensures store { self.new.store ≡ self.old.store }
        ensures nodes { OnOk result (self.new.nodes.items ≡ self.old.nodes.items ++ node ∷ []) }
        ensures bases { self.new.bases ≡ self.old.bases }
        ensures open_list { OnOk result
            (JoinsBy self.old.open_list self.new.open_list node.cost id.0 estimate) }
    {
        self.nodes.push(node)?;
        self.enqueue(id, node.cost, estimate)
    }

    /// Adds the node of a state that is reached for the first time, and its basis.
    fn add_reached(&mut self, id: StateId, reached: Reached<'_>) -> Result<(), NoMemory>
        requires sum { IfSome reached.estimate (λ e. reached.node.cost + e < 2 ^ 64) }
        requires place { id.0 < MAX_STATES }
        ensures store { self.new.store ≡ self.old.store }
        ensures nodes { OnOk result (self.new.nodes.items ≡ self.old.nodes.items ++ reached.entry.node ∷ []) }
        ensures bases { OnOk result (IsNoted self.old.bases self.new.bases id.0 reached.entry.rest.value) }
        ensures open_list { OnOk result
            (JoinsBy self.old.open_list self.new.open_list reached.entry.node.cost id.0 reached.entry.estimate) }
    {
        self.bases.set(id, reached.rest)?;
        self.add(id, reached.node, reached.estimate)?;
        Ok(())
    }

    /// Replaces the node of a state by that of another one of its class, which takes its place, and has its own basis.
    fn replace_node(&mut self, id: StateId, reached: Reached<'_>) -> Result<(), NoMemory>
        requires found { id.0 < length self.old.nodes.items }
        requires sum { IfSome reached.estimate (λ e. reached.node.cost + e < 2 ^ 64) }
        requires place { id.0 < MAX_STATES }
        ensures store { self.new.store ≡ self.old.store }
        ensures nodes { OnOk result (self.new.nodes.items ≡ slice_set self.old.nodes.items id.0 reached.entry.node) }
        ensures bases { OnOk result (IsNoted self.old.bases self.new.bases id.0 reached.entry.rest.value) }
        ensures open_list { OnOk result
            (JoinsBy self.old.open_list self.new.open_list reached.entry.node.cost id.0 reached.entry.estimate) }
    {
        self.bases.set(id, reached.rest)?;
        self.improve(id, reached.node, reached.estimate)?;
        Ok(())
    }

    /// Replaces a node by that of a cheaper way. The state waits at this cost if it has an estimate.
    fn improve(&mut self, id: StateId, node: Node, estimate: Option<u64>) -> Result<(), NoMemory>
        requires found { id.0 < length self.old.nodes.items }
        requires sum { IfSome estimate (λ e. node.cost + e < 2 ^ 64) }
        requires place { id.0 < MAX_STATES }
        ensures store { self.new.store ≡ self.old.store }
        ensures nodes { self.new.nodes.items ≡ slice_set self.old.nodes.items id.0 node }
        ensures bases { self.new.bases ≡ self.old.bases }
        ensures open_list { OnOk result
            (JoinsBy self.old.open_list self.new.open_list node.cost id.0 estimate) }
    {
        self.nodes[id.0 as usize] = node;
        self.enqueue(id, node.cost, estimate)
    }

    /// Adds the state to the open list at this cost, if it has an estimate.
    pub(crate) fn enqueue(
        &mut self,
        id: StateId,
        cost: u64,
        estimate: Option<u64>,
    ) -> Result<(), NoMemory>
        requires sum { IfSome estimate (λ e. cost + e < 2 ^ 64) }
        requires place { id.0 < MAX_STATES }
        ensures store { self.new.store ≡ self.old.store }
        ensures nodes { self.new.nodes.items ≡ self.old.nodes.items }
        ensures bases { self.new.bases ≡ self.old.bases }
        ensures open_list { OnOk result
            (JoinsBy self.old.open_list self.new.open_list cost id.0 estimate) }
    {
        match estimate {
            Some(estimate) => self
                .open_list
                .push(Reverse((cost + estimate, estimate, id))),
            None => Ok(()),
        }
    }

    /// Sets the state's status.
    pub(crate) fn mark(&mut self, id: StateId, status: NodeStatus)
        requires { id.0 < length self.old.nodes.items }
        ensures store { self.new.store ≡ self.old.store }
        ensures nodes { (node : _) → slice_get self.old.nodes.items id.0 ≡ Some node
            → self.new.nodes.items ≡ slice_set self.old.nodes.items id.0 (record node { status = status }) }
        ensures bases { self.new.bases ≡ self.old.bases }
        ensures open_list { self.new.open_list ≡ self.old.open_list }
    {
        self.nodes[id.0 as usize].status = status;
    }

    /// Lists a successor of the state that is being expanded, unless it or the current one of its class is reached at no greater cost.
    /// `false`: the limit does not allow it.
    fn reach<T: TransitionSystem, G: Guide, V: ValuesOnDemand>(
        &mut self,
        problem: &Problem<'_, T, G>,
        values: &V,
        scratch: &mut G::Scratch,
        to: Successor<'_>,
    ) -> Result<bool, NoMemory>
        requires made_for { G.system_of problem.now.guide.now ≡ T.means problem.now.system.now }
        requires values_for { V.system_of values.now ≡ T.means problem.now.system.now }
        requires guide_width { G.width_of problem.now.guide.now ≡ L.width_of self.old.store }
        requires values_width { V.width_of values.now ≡ L.width_of self.old.store }
        requires expanding { HoldsIn (T.means problem.now.system.now) (G.estimate_of problem.now.guide.now) (G.is_dead problem.now.guide.now) V.answers L.states self.old
            (λ value is_dead. IsExpanding (T.means problem.now.system.now) (L.class_of self.old.store) value is_dead L.states self.old to.parent.0) }
        requires scratch { G.fits problem.now.guide.now scratch.old }
        requires leads { (s : List Bool) → slice_get (L.states self.old.store) to.parent.0 ≡ Some s → (T.means problem.now.system.now).step s to.action ≡ Some (bits_of to.state.now) }
        requires width { length (bits_of to.state.now) ≡ L.width_of self.old.store }
        requires within { length (L.states self.old.store) ≤ problem.now.max_states }
        requires limit { problem.now.max_states ≤ MAX_STATES }
        ensures width { L.width_of self.new.store ≡ L.width_of self.old.store }
        ensures class { L.class_of self.new.store ≡ L.class_of self.old.store }
        ensures scratch { IfOk result (λ _. G.fits problem.now.guide.now scratch.new) }
        ensures listed { IfOk result (λ is_listed. MatchBool is_listed
            (HoldsIn (T.means problem.now.system.now) (G.estimate_of problem.now.guide.now) (G.is_dead problem.now.guide.now) V.answers L.states self.new
            (λ value is_dead. Reaches (T.means problem.now.system.now) (L.class_of self.old.store) value is_dead L.states self.old self.new to.entry.parent.0 problem.now.max_states to.entry.action (bits_of to.entry.state.now)))
            (HoldsIn (T.means problem.now.system.now) (G.estimate_of problem.now.guide.now) (G.is_dead problem.now.guide.now) V.answers L.states self.old
            (λ value is_dead. IsExpanding (T.means problem.now.system.now) (L.class_of self.old.store) value is_dead L.states self.old to.entry.parent.0
            × IsFull (T.means problem.now.system.now) value is_dead L.states self.old self.new problem.now.max_states))) }
    {
        let before = self.nodes[to.parent.0 as usize];
        let cost = before.cost + u64::from(problem.system.cost(to.action));
        let Some(place) = self.store.place(to.state, problem.max_states)? else {
            return Ok(false);
        };
        if self.is_reached_within(place, cost) {
            return Ok(true);
        }
        let standing = self.standing_at(values, place, to);
        let estimate = standing.estimate(problem.guide, to.state, scratch);
        let node = to.node(cost, NodeStatus::of_reached(estimate));
        let reached = Reached {
            state: to.state,
            node,
            estimate,
            rest: standing.rest(),
        };
        self.take_place(place, reached, problem.max_states)
    }

    /// Whether the state at this place, itself or the current one of its class, is reached at no more than this cost.
    fn is_reached_within(&self, place: Place, cost: u64) -> bool
        requires { IsPlaceAmong (length self.now.nodes.items) place }
        ensures { MatchBool result (IsReachedWithin self.now.nodes.items cost place) (IsReachedCheaper self.now.nodes.items cost place) }
    {
        match place {
            Place::New(_) => false,
            Place::Listed(place) => self.nodes[place as usize].cost <= cost,
            Place::Alike(place) => self.nodes[place as usize].cost <= cost,
        }
    }

    /// What the value of the successor stands on, which is reached at this place.
    fn standing_at<V: ValuesOnDemand>(
        &self,
        values: &V,
        place: Place,
        to: Successor<'_>,
    ) -> Standing
        requires place { IsPlaceAmong (length self.now.nodes.items) place }
        requires width { length (bits_of to.state.now) ≡ V.width_of values.now }
        requires fits { (k : ℕ) → noted_at self.now.bases k < 2 ^ 63 }
        ensures standing { IsStandingAt V.answers (V.system_of values.now) self.now.nodes.items self.now.bases (bits_of to.entry.state.now) place result }
        ensures fits { rest_value result < 2 ^ 63 }
    {
        match place {
            Place::Listed(place) => match self.nodes[place as usize].is_marked_dead() {
                true => Standing::Dead,
                false => Standing::Based(self.bases.rest_at(place)),
            },
            Place::New(_) | Place::Alike(_) => {
                let parents = self.bases.at(to.parent.0);
                Standing::Based(rest_by(values, parents, to.state))
            }
        }
    }

    /// Lists a state that is new or is reached at a lower cost. `false`: the limit does not allow it.
    ///
    /// It replaces the current one of its class if that was never expanded, as no other was reached from that. Otherwise both stay, so
    /// each state is still what its action makes of its parent.
    fn take_place(
        &mut self,
        place: Place,
        reached: Reached<'_>,
        max_states: u32,
    ) -> Result<bool, NoMemory>
        requires place { IsPlaceAmong (length self.old.nodes.items) place }
        requires free { IsFreeFor (L.class_of self.old.store) (L.is_current self.old.store) (L.states self.old.store) (length self.old.nodes.items) (bits_of reached.state.now) place }
        requires width { length (bits_of reached.state.now) ≡ L.width_of self.old.store }
        requires sum { IfSome reached.estimate (λ e. reached.node.cost + e < 2 ^ 64) }
        requires within { length (L.states self.old.store) ≤ max_states }
        requires limit { max_states ≤ MAX_STATES }
        ensures width { L.width_of self.new.store ≡ L.width_of self.old.store }
        ensures class { L.class_of self.new.store ≡ L.class_of self.old.store }
        ensures taken { IfOk result (λ is_taken. MatchBool is_taken
            (TakesPlace L.states self.old self.new (bits_of reached.entry.state.now) reached.entry.node reached.entry.estimate reached.entry.rest max_states place)
            (IsLeftOut L.states self.old self.new (bits_of reached.entry.state.now) max_states)) }
    {
        match place {
            Place::New(place) => self.add_reached(StateId(place), reached)?,
            Place::Listed(place) => {
                let mut node = reached.node;
                node.status = self.nodes[place as usize].status.again(reached.estimate);
                self.improve(StateId(place), node, reached.estimate)?;
            }
            Place::Alike(place) => {
                if !self.nodes[place as usize].status.has_been_expanded() {
                    self.store.replace(place, reached.state);
                    self.replace_node(StateId(place), reached)?;
                } else if self.store.len() < max_states as usize {
                    let last = StateId(self.nodes.len() as u32);
                    self.store.append(reached.state, place)?;
                    self.add_reached(last, reached)?;
                } else {
                    return Ok(false);
                }
            }
        }
        Ok(true)
    }

    /// Expands the state in the buffers, whose turn it is: lists its successors. `false`: the limit does not allow it. Then the state
    /// waits again, but is not in the open list.
    pub(crate) fn expand<T: TransitionSystem, G: Guide, V: ValuesOnDemand>(
        &mut self,
        problem: &Problem<'_, T, G>,
        values: &V,
        buffers: &mut Buffers<G::Scratch>,
        turn: Turn,
    ) -> Result<bool, NoMemory>
        requires made_for { G.system_of problem.now.guide.now ≡ T.means problem.now.system.now }
        requires values_for { V.system_of values.now ≡ T.means problem.now.system.now }
        requires guide_width { G.width_of problem.now.guide.now ≡ T.width_of problem.now.system.now }
        requires values_width { V.width_of values.now ≡ T.width_of problem.now.system.now }
        requires turn { HoldsIn (T.means problem.now.system.now) (G.estimate_of problem.now.guide.now) (G.is_dead problem.now.guide.now) V.answers L.states self.old
            (λ value is_dead. IsAtTurn (T.means problem.now.system.now) (L.class_of self.old.store) value is_dead L.states self.old turn) }
        requires classes { AreClassesOf (T.means problem.now.system.now) (L.class_of self.old.store) }
        requires scratch { G.fits problem.now.guide.now buffers.old.scratch }
        requires open { AreClosed (T.means problem.now.system.now) (L.class_of self.old.store) (nodes_in L.states self.old) }
        requires state { slice_get (L.states self.old.store) turn.id.0 ≡ Some (bits_of buffers.old.state) }
        requires no_goal { (T.means problem.now.system.now).meets_goal (bits_of buffers.old.state) ≡ false }
        requires width { L.width_of self.old.store ≡ T.width_of problem.now.system.now }
        requires buffers { AreWide (T.width_of problem.now.system.now) buffers.old }
        requires within { length (L.states self.old.store) ≤ problem.now.max_states }
        requires limit { problem.now.max_states ≤ MAX_STATES }
        ensures width { IfOk result (λ _. L.width_of self.new.store ≡ T.width_of problem.now.system.now) }
        ensures class { IfOk result (λ _. L.class_of self.new.store ≡ L.class_of self.old.store) }
        ensures buffers { IfOk result (λ _. AreWide (T.width_of problem.now.system.now) buffers.new) }
        ensures scratch { IfOk result (λ _. G.fits problem.now.guide.now buffers.new.scratch) }
        ensures asks { IfOk result (λ _. buffers.new.asks ≡ buffers.old.asks) }
        ensures listed { IfOk result (λ is_listed. MatchBool is_listed
            (HoldsIn (T.means problem.now.system.now) (G.estimate_of problem.now.guide.now) (G.is_dead problem.now.guide.now) V.answers L.states self.new
            (λ value is_dead. Expands (T.means problem.now.system.now) (L.class_of self.old.store) value is_dead L.states self.old self.new problem.now.max_states))
            (HoldsIn (T.means problem.now.system.now) (G.estimate_of problem.now.guide.now) (G.is_dead problem.now.guide.now) V.answers L.states self.new
            (λ value is_dead. IsStopped (T.means problem.now.system.now) (L.class_of self.old.store) value is_dead L.states self.new turn problem.now.max_states))) }
    {
        problem
            .system
            .applicable(&buffers.state, &mut buffers.applicable)?;
        self.mark(turn.id, NodeStatus::Expanded);
        problem.guide.move_to(&buffers.state, &mut buffers.scratch);
        buffers.touch_successors(problem.system, &self.store)?;
        for &action in &buffers.applicable {
            problem
                .system
                .successor(action, &buffers.state, &mut buffers.next);
            let to = Successor {
                parent: turn.id,
                action,
                state: &buffers.next,
            };
            if !self.reach(problem, values, &mut buffers.scratch, to)? {
                self.mark(turn.id, NodeStatus::Reopened);
                return Ok(false);
            }
        }
        Ok(true)
    }

    /// The estimates of the waiting states, each at its state's place: that of this turn, and those of the open list.
    fn noted_estimates(&self, alloc: Global, turn: Turn) -> Result<Vec<u64>, NoMemory>
        requires turn { turn.id.0 < length self.now.nodes.items }
        requires entries { All (IsEntry (length self.now.nodes.items)) (waiting_in self.now.open_list) }
        ensures { IfOk result (λ estimates. AreNotedWith self.now.nodes.items turn (waiting_in self.now.open_list) estimates.items) }
    {
        let mut estimates = vec![in alloc; 0; self.nodes.len()]?;
        estimates[turn.id.0 as usize] = turn.estimate;
        self.open_list.note_estimates(&self.nodes, &mut estimates);
        Ok(estimates)
    }

    /// The actions that lead to the goal state, whose turn it is, and the found states.
    pub(crate) fn into_plan(
        self,
        alloc: Global,
        goal: Turn,
    ) -> Result<(Vec<u32>, FoundStates<L>), NoMemory>
        requires reached { IsReachedIn self.nodes.items goal.id.0 (length self.nodes.items) }
        requires turn { goal.id.0 < length self.nodes.items }
        requires entries { All (IsEntry (length self.nodes.items)) (waiting_in self.open_list) }
        ensures path { IfOk result (λ r. IsPath self.nodes.items goal.id.0 r.0.items) }
        ensures short { IfOk result (λ r. length r.0.items ≤ length self.nodes.items) }
        ensures store { IfOk result (λ r. r.1.store ≡ self.store) }
        ensures nodes { IfOk result (λ r. r.1.nodes.items ≡ self.nodes.items) }
        ensures bases { IfOk result (λ r. r.1.bases ≡ self.bases) }
        ensures estimates { IfOk result (λ r. AreNotedWith self.nodes.items goal (waiting_in self.open_list) r.1.estimates.items) }
    {
        let steps = steps_to(alloc, &self.nodes, goal.id)?;
        let estimates = self.noted_estimates(alloc, goal)?;
        Ok((steps, self.into_found(estimates)))
    }

    /// The least sum of a waiting state, and the found states. The state of this turn waits again, but is not in the open list.
    pub(crate) fn into_bound(
        mut self,
        alloc: Global,
        turn: Turn,
    ) -> Result<(u64, FoundStates<L>), NoMemory>
        requires turn { turn.id.0 < length self.nodes.items }
        requires heap { IsOpenList self.open_list }
        requires entries { All (IsEntry (length self.nodes.items)) (waiting_in self.open_list) }
        ensures least { IfOk result (λ r. IsLeastWith turn.sum (waiting_in self.open_list) self.nodes.items r.0) }
        ensures store { IfOk result (λ r. r.1.store ≡ self.store) }
        ensures nodes { IfOk result (λ r. r.1.nodes.items ≡ self.nodes.items) }
        ensures bases { IfOk result (λ r. r.1.bases ≡ self.bases) }
        ensures estimates { IfOk result (λ r. AreNotedWith self.nodes.items turn (waiting_in self.open_list) r.1.estimates.items) }
    {
        let estimates = self.noted_estimates(alloc, turn)?;
        let bound = self.least_with(turn.sum);
        Ok((bound, self.into_found(estimates)))
    }

    /// The found states, of which none waits.
    pub(crate) fn into_states(self, alloc: Global) -> Result<FoundStates<L>, NoMemory>
        ensures store { IfOk result (λ found. found.store ≡ self.store) }
        ensures nodes { IfOk result (λ found. found.nodes.items ≡ self.nodes.items) }
        ensures bases { IfOk result (λ found. found.bases ≡ self.bases) }
        ensures estimates { IfOk result (λ found. length found.estimates.items ≡ length self.nodes.items) }
    {
        let estimates = vec![in alloc; 0; self.nodes.len()]?;
        Ok(self.into_found(estimates))
    }

    /// The found states, with these estimates.
    fn into_found(self, estimates: Vec<u64>) -> FoundStates<L>
        ensures store { result.store ≡ self.store }
        ensures nodes { result.nodes.items ≡ self.nodes.items }
        ensures bases { result.bases ≡ self.bases }
        ensures estimates { result.estimates.items ≡ estimates.items }
    {
        let Progress {
            store,
            nodes,
            bases,
            open_list: _,
        } = self;
        FoundStates {
            store,
            nodes,
            bases,
            estimates,
        }
    }
}

//! The successor generator: decision trees over the literals of preconditions, which find the applicable instances of a state
//! without a look at most of the others (Helmert 2006, "The Fast Downward Planning System", section 5.3.1).
//!
//! There is a tree for each atom, with the instances that watch it; it is walked in states where that atom is true. Inside, a
//! node tests a literal that several instances share, the rarest first. The remaining literals of an instance are tested one
//! after another above it. No literal is tested twice on a path.
ghost use Rattle.std.specs.Prelude.{◌≡◌, ◌<◌, IfOk, length};
ghost use Rattle.grounding.specs.MatchNodes.{AreWithin};
ghost use Rattle.grounding.specs.WatchLists.{row_of, AreWatched};
ghost use Rattle.grounding.specs.MatchTree.{nodes_of, AreMatched, AreRows};

use crate::condition::Condition;
use crate::often::Often;
use crate::tree_builder::TreeBuilder;
use crate::watch_lists::WatchLists;
use faults::NoMemory;
use grounding_instances::NumberedLiteral;
use std::alloc::Global;

/// A node of a tree. A tree is a list of its nodes in preorder.
#[derive(Clone, Copy, Drop)]
pub(crate) enum Node {
    /// If the literal is false, skip the next `n` nodes.
    Test(NumberedLiteral, usize),
    /// The literals of the instance with this number are true.
    Instance(u32),
}

/// The trees. An instance that is applicable in no packed state is in none of them.
pub(crate) struct MatchTree {
    /// For each atom, the tree that is walked in states where it is true.
    rows: Vec<Vec<Node>>,
    /// The tree of the instances that need no atom to be true, which is walked in each state.
    pub(crate) unwatched: Vec<Node>,
}

impl Drop for MatchTree {
    fn drop(self) {
        let Self {
            rows: _,
            unwatched: _,
        } = self;
    }
}

impl MatchTree {
    /// The trees of the instances with these preconditions, over atoms below `width`.
    pub(crate) fn new(
        alloc: Global,
        width: u32,
        conditions: &[Condition],
        often: &Often,
    ) -> Result<MatchTree, NoMemory>
        requires within { AreWithin width conditions.now }
        requires few { length conditions.now < 4294967296 }
        ensures { IfOk result (AreMatched width conditions.now) }
    {
        let lists = WatchLists::new(alloc, width, conditions, often)?;
        let builder = TreeBuilder::new(alloc, width, conditions, often);
        MatchTree::of_lists(alloc, &builder, &lists)
    }

    /// The trees of these watch lists.
    fn of_lists(
        alloc: Global,
        builder: &TreeBuilder<'_>,
        lists: &WatchLists,
    ) -> Result<MatchTree, NoMemory>
        requires { AreWatched builder.now.width builder.now.conditions.now (length builder.now.conditions.now) lists.now }
        ensures { IfOk result (AreMatched builder.now.width builder.now.conditions.now) }
    {
        let rows = rows(alloc, builder, lists)?;
        let unwatched = builder.of_unwatched(&lists.unwatched)?;
        Ok(MatchTree { rows, unwatched })
    }

    /// The tree of the instances that watch the atom.
    pub(crate) fn of(&self, atom: u32) -> &[Node]
        ensures { result.now ≡ nodes_of self.now atom }
    {
        match self.rows.get(atom as usize) {
            Some(row) => row,
            None => &[],
        }
    }
}

/// The trees of all atoms.
fn rows(
    alloc: Global,
    builder: &TreeBuilder<'_>,
    lists: &WatchLists,
) -> Result<Vec<Vec<Node>>, NoMemory>
    requires { AreWatched builder.now.width builder.now.conditions.now (length builder.now.conditions.now) lists.now }
    ensures { IfOk result (λ rows. AreRows builder.now.width builder.now.conditions.now (row_of lists.now) builder.now.width rows.items) }
{
    let mut rows = Vec::new(alloc);
    for atom in 0..builder.width {
        let row = builder.of_row(atom, lists.of(atom))?;
        rows.push(row)?;
    }
    Ok(rows)
}

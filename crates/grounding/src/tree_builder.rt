//! Builds match trees.
ghost use Rattle.std.specs.Prelude.{◌≡◌, ◌<◌, ◌≤◌, ◌^◌, ◌∷◌, true, false, [], All, IfOk, IfSome, OnOk, length, map, take, get_or};
ghost use Rattle.std.proofs.Props.{props};
ghost use Rattle.grounding_instances.specs.Numbers.{numbered_of};
ghost use Rattle.std.specs.List.Sorted.{IsPermutation};
ghost use Rattle.grounding.specs.MatchNodes.{above, AreWithin, IsTree, IsTreeOf, IsGroup, IsRun, IsTested, AgreesWith, Implies, Requires};

use crate::condition::Condition;
use crate::match_tree::Node;
use crate::often::Often;
use faults::NoMemory;
use grounding_instances::NumberedLiteral;
use std::alloc::Global;

/// Tests of shared literals on a path, at most.
const LEVELS: u32 = 8;

/// Builds trees of instances with these preconditions, over atoms below the width.
#[derive(Drop)]
pub(crate) struct TreeBuilder<'a> {
    alloc: Global,
    pub(crate) width: u32,
    conditions: &'a [Condition],
    often: &'a Often,
    ghost within: { AreWithin width conditions.now } by { Prim.hlevel props },
}

/// The tests above a tree.
#[derive(Clone, Copy, Drop)]
struct Path<'a> {
    /// Their literals, which are true in the states that the tree is for.
    literals: &'a [NumberedLiteral],
    /// Tests of shared literals that may follow one another, at most.
    levels: u32,
}

/// The nodes of the first instances of a list.
#[derive(Drop)]
struct Group {
    nodes: Vec<Node>,
    /// The number of these instances.
    count: usize,
}

/// A literal that the first instances of a list need.
#[derive(Clone, Copy, Drop)]
struct Run {
    literal: NumberedLiteral,
    /// The number of these instances.
    length: usize,
}

impl<'a> TreeBuilder<'a> {
    /// A builder for these preconditions.
    pub(crate) fn new(
        alloc: Global,
        width: u32,
        conditions: &'a [Condition],
        often: &'a Often,
    ) -> TreeBuilder<'a>
        requires { AreWithin width conditions.now }
        ensures width { result.width ≡ width }
        ensures conditions { result.conditions.now ≡ conditions.now }
    {
        TreeBuilder {
            alloc,
            width,
            conditions,
            often,
        }
    }

    /// The tree of these instances for states in which the atom is true.
    pub(crate) fn of_row(&self, atom: u32, numbers: &[u32]) -> Result<Vec<Node>, NoMemory>
        requires { All (λ n. n < length self.now.conditions.now) numbers.now }
        ensures { IfOk result (λ nodes. IsTreeOf self.now.width self.now.conditions.now (λ bits. get_or bits atom false ≡ true) numbers.now nodes.items) }
    {
        let mut literals = Vec::new(self.alloc);
        literals.push(NumberedLiteral { atom, value: true })?;
        let path = Path {
            literals: &literals,
            levels: LEVELS,
        };
        self.subtree(numbers, path)
    }

    /// The tree of these instances for all states.
    pub(crate) fn of_unwatched(&self, numbers: &[u32]) -> Result<Vec<Node>, NoMemory>
        requires { All (λ n. n < length self.now.conditions.now) numbers.now }
        ensures { IfOk result (λ nodes. IsTreeOf self.now.width self.now.conditions.now (AgreesWith []) numbers.now nodes.items) }
    {
        let path = Path {
            literals: &[],
            levels: LEVELS,
        };
        self.subtree(numbers, path)
    }

    /// The tree of these instances below the path.
    #[cycle(subtree)]
    fn subtree(&self, numbers: &[u32], path: Path<'_>) -> Result<Vec<Node>, NoMemory>
        requires { All (λ n. n < length self.now.conditions.now) numbers.now }
        ensures { IfOk result (λ nodes. IsTreeOf self.now.width self.now.conditions.now (AgreesWith (map numbered_of path.entry.literals.now)) numbers.now nodes.items) }
    {
        let sorted = self.in_order(numbers, path.literals)?;
        let nodes = self.in_groups(&sorted, path)?;
        Ok(nodes)
    }

    /// [`subtree`](TreeBuilder::subtree) of instances in which those with the same first test are consecutive.
    #[cycle(subtree)]
    fn in_groups(&self, numbers: &[u32], path: Path<'_>) -> Result<Vec<Node>, NoMemory>
        requires { All (λ n. n < length self.now.conditions.now) numbers.now }
        ensures { IfOk result (λ nodes. IsTreeOf self.now.width self.now.conditions.now (AgreesWith (map numbered_of path.entry.literals.now)) numbers.now nodes.items) }
    {
        let mut nodes = Vec::new(self.alloc);
        let mut seen = 0;
        'groups: while seen < numbers.len() {
            let group = self.group(&numbers[seen..], path)?;
            nodes.extend_from_slice(&group.nodes)?;
            seen += group.count;
        }
        Ok(nodes)
    }

    /// The nodes of the first instances: of those that need the first one's rarest literal, or of the first one alone.
    #[cycle(subtree)]
    fn group(&self, numbers: &[u32], path: Path<'_>) -> Result<Group, NoMemory>
        requires some { 0 < length numbers.now }
        requires within { All (λ n. n < length self.now.conditions.now) numbers.now }
        ensures { IfOk result (λ group. IsGroup self.now.width self.now.conditions.now (AgreesWith (map numbered_of path.entry.literals.now)) numbers.now group.count group.nodes.items) }
    {
        if path.levels == 0 {
            return self.alone(numbers[0], path.literals);
        }
        match self.shared(numbers, path.literals) {
            Some(run) => {
                let shared = Path {
                    literals: path.literals,
                    levels: levels_below(path.levels, run.length),
                };
                self.branch(&numbers[..run.length], shared, run.literal)
            }
            None => self.alone(numbers[0], path.literals),
        }
    }

    /// The nodes of these instances, which all need the literal: its test below the path, and their tree below it.
    #[cycle(subtree)]
    fn branch(
        &self,
        numbers: &[u32],
        path: Path<'_>,
        literal: NumberedLiteral,
    ) -> Result<Group, NoMemory>
        requires within { All (λ n. n < length self.now.conditions.now) numbers.now }
        requires atom { literal.atom < self.now.width }
        requires shared { All (Requires self.now.conditions.now (numbered_of literal)) numbers.now }
        ensures count { IfOk result (λ group. group.count ≡ length numbers.now) }
        ensures tree { IfOk result (λ group. IsTreeOf self.now.width self.now.conditions.now (AgreesWith (map numbered_of path.entry.literals.now)) numbers.now group.nodes.items) }
    {
        let mut longer = Vec::from_slice(self.alloc, path.literals)?;
        longer.push(literal)?;
        let below = Path {
            literals: &longer,
            levels: path.levels,
        };
        let mut nodes = self.subtree(numbers, below)?;
        put_above(literal, &mut nodes)?;
        let count = numbers.len();
        Ok(Group { nodes, count })
    }

    /// The nodes of one instance as a group.
    fn alone(&self, number: u32, path: &[NumberedLiteral]) -> Result<Group, NoMemory>
        requires { number < length self.now.conditions.now }
        ensures count { IfOk result (λ group. group.count ≡ 1) }
        ensures tree { IfOk result (λ group. IsTreeOf self.now.width self.now.conditions.now (AgreesWith (map numbered_of path.now)) (number ∷ []) group.nodes.items) }
    {
        let group = self.single(number, path)?;
        Ok(group)
    }

    /// The nodes of one instance: the tests of its literals that are not on the path, and the instance below them.
    fn single(&self, number: u32, path: &[NumberedLiteral]) -> Result<Group, NoMemory>
        requires { number < length self.now.conditions.now }
        ensures count { IfOk result (λ group. group.count ≡ 1) }
        ensures tree { IfOk result (λ group. IsTree self.now.width self.now.conditions.now (AgreesWith (map numbered_of path.now)) (number ∷ []) group.nodes.items) }
    {
        let mut nodes = Vec::new(self.alloc);
        nodes.push(Node::Instance(number))?;
        let literals = self.conditions[number as usize].literals();
        for literal in literals {
            put_test(literal, path, &mut nodes)?;
        }
        Ok(Group { nodes, count: 1 })
    }

    /// The rarest literal of the first instance off the path, and the number of first instances that need it.
    fn shared(&self, numbers: &[u32], path: &[NumberedLiteral]) -> Option<Run>
        requires some { 0 < length numbers.now }
        requires within { All (λ n. n < length self.now.conditions.now) numbers.now }
        ensures { IfSome result (λ run. IsRun self.now.width self.now.conditions.now numbers.now run.length (numbered_of run.literal)) }
    {
        match self.rarest(numbers[0], path) {
            Some(literal) => self.run_of(literal, numbers),
            None => None,
        }
    }

    /// The run of the literal, if the first instance needs it.
    fn run_of(&self, literal: NumberedLiteral, numbers: &[u32]) -> Option<Run>
        requires within { All (λ n. n < length self.now.conditions.now) numbers.now }
        requires atom { literal.atom < self.now.width }
        ensures { IfSome result (λ run. IsRun self.now.width self.now.conditions.now numbers.now run.length (numbered_of run.literal)) }
    {
        let length = self.run_length(&literal, numbers);
        if length == 0 {
            return None;
        }
        Some(Run { literal, length })
    }

    /// The instance's rarest literal off the path.
    fn rarest(&self, number: u32, path: &[NumberedLiteral]) -> Option<NumberedLiteral>
        requires { number < length self.now.conditions.now }
        ensures { IfSome result (λ literal. literal.atom < self.now.width) }
    {
        let mut rarest = None;
        let literals = self.conditions[number as usize].literals();
        for literal in literals {
            rarest = self.rarer(rarest, literal, path);
        }
        rarest
    }

    /// The literal, if it is off the path and of a lower rank than the other one; otherwise the other one.
    fn rarer(
        &self,
        other: Option<NumberedLiteral>,
        literal: &NumberedLiteral,
        path: &[NumberedLiteral],
    ) -> Option<NumberedLiteral>
        requires atom { literal.now.atom < self.now.width }
        requires other { IfSome other (λ l. l.atom < self.now.width) }
        ensures { IfSome result (λ l. l.atom < self.now.width) }
    {
        if is_among(literal, path) || !self.is_rarer(literal, other) {
            return other;
        }
        Some(*literal)
    }

    /// Whether the literal is of a lower rank than the other one, if there is one.
    fn is_rarer(&self, literal: &NumberedLiteral, other: Option<NumberedLiteral>) -> bool {
        match other {
            Some(other) => self.rank(literal) < self.rank(&other),
            None => true,
        }
    }

    /// Orders literals by frequency, the rarest first. No two have the same rank.
    fn rank(&self, literal: &NumberedLiteral) -> u64 {
        let often = self.often.literal(literal) as u64;
        (often << 33) | ((literal.atom as u64) << 1) | literal.value as u64
    }

    /// The instances in an order in which those with the same rarest literal off the path are consecutive.
    fn in_order(&self, numbers: &[u32], path: &[NumberedLiteral]) -> Result<Vec<u32>, NoMemory>
        requires { All (λ n. n < length self.now.conditions.now) numbers.now }
        ensures { IfOk result (λ sorted. IsPermutation numbers.now sorted.items) }
    {
        let mut ranked = self.ranked(numbers, path)?;
        ranked.sort_unstable();
        let sorted = without_ranks(self.alloc, &ranked)?;
        Ok(sorted)
    }

    /// The numbers, each with the rank of its instance's rarest literal off the path.
    fn ranked(&self, numbers: &[u32], path: &[NumberedLiteral]) -> Result<Vec<(u64, u32)>, NoMemory>
        requires { All (λ n. n < length self.now.conditions.now) numbers.now }
        ensures { IfOk result (λ ranked. map (λ p. p.1) ranked.items ≡ numbers.now) }
    {
        let mut ranked = Vec::with_capacity(self.alloc, numbers.len())?;
        for &number in numbers {
            ranked.push((self.rank_of(self.rarest(number, path)), number))?;
        }
        Ok(ranked)
    }

    /// The rank of the literal, and the greatest where there is none.
    fn rank_of(&self, literal: Option<NumberedLiteral>) -> u64 {
        match literal {
            Some(literal) => self.rank(&literal),
            None => u64::MAX,
        }
    }

    /// The number of first instances that need the literal.
    fn run_length(&self, literal: &NumberedLiteral, numbers: &[u32]) -> usize
        requires { All (λ n. n < length self.now.conditions.now) numbers.now }
        ensures within { result ≤ length numbers.now }
        ensures required { All (Requires self.now.conditions.now (numbered_of literal.now)) (take result numbers.now) }
    {
        let mut length = 0;
        for &number in numbers {
            if !is_among(literal, self.conditions[number as usize].literals()) {
                return length;
            }
            length += 1;
        }
        length
    }
}

/// The numbers without their ranks.
fn without_ranks(alloc: Global, ranked: &[(u64, u32)]) -> Result<Vec<u32>, NoMemory>
    ensures { IfOk result (λ numbers. numbers.items ≡ map (λ p. p.1) ranked.now) }
{
    let mut numbers = Vec::with_capacity(alloc, ranked.len())?;
    for pair in ranked {
        numbers.push(pair.1)?;
    }
    Ok(numbers)
}

/// The tests of shared literals that may follow one that `length` instances share: none if it is one instance.
fn levels_below(levels: u32, length: usize) -> u32
    requires { 0 < levels }
    ensures { result < levels }
{
    if length < 2 { 0 } else { levels - 1 }
}

/// Whether the literal is one of these, so that it is true if they are.
fn is_among(literal: &NumberedLiteral, literals: &[NumberedLiteral]) -> bool
    ensures { result ≡ true → Implies (map numbered_of literals.now) (numbered_of literal.now) }
{
    for other in literals {
        if are_same(other, literal) {
            return true;
        }
    }
    false
}

/// Whether the literals are the same.
fn are_same(first: &NumberedLiteral, second: &NumberedLiteral) -> bool
    ensures atom { result ≡ true → first.now.atom ≡ second.now.atom }
    ensures value { result ≡ true → first.now.value ≡ second.now.value }
{
    first.atom == second.atom && first.value == second.value
}

/// Puts a test of the literal above the nodes, unless it is on the path.
fn put_test(
    literal: &NumberedLiteral,
    path: &[NumberedLiteral],
    nodes: &mut Vec<Node>,
) -> Result<(), NoMemory>
    ensures nodes { OnOk result (IsTested (map numbered_of path.now) literal.now nodes.old.items nodes.new.items) }
    ensures few { length nodes.old.items < 2 ^ 63 }
{
    if is_among(literal, path) {
        return Ok(());
    }
    put_above(*literal, nodes)
}

/// Puts a test of the literal above the nodes.
fn put_above(literal: NumberedLiteral, nodes: &mut Vec<Node>) -> Result<(), NoMemory>
    ensures nodes { OnOk result (nodes.new.items ≡ above literal nodes.old.items) }
    ensures few { length nodes.old.items < 2 ^ 63 }
{
    let below = nodes.len();
    nodes.insert(0, Node::Test(literal, below))?;
    Ok(())
}

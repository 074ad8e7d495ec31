//! The content of a line of a certificate's text.
use crate::part_line::PartLine;

/// The maximum number of atoms of a certificate.
pub const MAX_ATOMS: usize = 1_048_576;

/// The maximum number of exchanges of objects of a certificate.
pub const MAX_SWAPS: usize = 1_048_576;

/// The maximum number of state lines of a certificate.
pub const MAX_STATE_LINES: usize = 16_777_216;

/// The maximum number of constants of a certificate: one for each of 32 values, and one for dead ends.
pub const MAX_CONSTANTS: usize = 33;

/// The maximum absolute value of the constants and weights of a certificate.
pub const MAX_WEIGHT: i64 = 2_147_483_647;

/// The exclusive upper limit of costs and bounds in a certificate: 2 to the power 60.
pub const NUMBER_LIMIT: u64 = 1_152_921_504_606_846_976;

/// The maximum length of a line of a certificate's text, in bytes without LF.
pub const LONGEST_LINE: usize = 16_777_216;

/// What a certificate claims about all plans.
#[derive(Clone, Copy, Debug, PartialEq, Eq)]
pub enum Claim {
    /// Every plan that solves the task costs at least this.
    Bound(u64),
    /// No plan solves the task.
    Unsolvable,
}

/// The version of a certificate's text. From version 2 on, states may be listed as dead ends, and each atom has a last weight,
/// for detecting them. From version 3 on there may be up to 32 values, tables, and exchanges of objects. In version 4 a cut or a dead
/// end may rest on a landmark value of its own.
#[derive(Clone, Copy, Debug, PartialEq, Eq)]
pub enum Version {
    /// `pddl-cert 1`.
    One,
    /// `pddl-cert 2`.
    Two,
    /// `pddl-cert 3`.
    Three,
    /// `pddl-cert 4`.
    Four,
}

/// What a cut or a dead end rests on.
#[derive(Clone, Copy, Debug, PartialEq, Eq)]
pub enum Basis {
    /// The values of all states: for a cut the greatest of them, for a dead end the value for dead ends.
    OfAll,
    /// The landmark value with this number, from 0. Only in version 4.
    Landmark(u32),
}

/// The role of a state in a listing.
#[derive(Clone, Copy, Debug, PartialEq, Eq)]
pub enum Mark {
    /// All its successors are listed too.
    Expanded,
    /// It is not expanded: a lower bound takes the place of its successors.
    Cut {
        /// What the bound rests on.
        by: Basis,
        /// The lower bound of the remaining cost from the state.
        rest: u64,
    },
    /// A dead end: no plan leads from it to the goal. Not in version 1.
    Dead {
        /// What shows that it is one.
        by: Basis,
    },
}

/// A state of the listing.
#[derive(PartialEq, Eq, Drop)]
pub struct StateLine {
    /// The cost at which the state is listed.
    pub cost: u64,
    /// Its role.
    pub mark: Mark,
    /// The state's fluent atoms, in ascending order, by index (from 0) among the certificate's atoms.
    pub atoms: Vec<u32>,
}

/// An atom, by the names of its predicate and objects, in lower case.
#[derive(PartialEq, Eq, Drop)]
pub struct NamedAtom {
    /// The predicate's name.
    pub predicate: Vec<u8>,
    /// The objects' names, in order.
    pub objects: Vec<Vec<u8>>,
}

/// A line of a certificate's text.
#[derive(PartialEq, Eq, Drop)]
pub enum CertLine {
    /// The first line: `pddl-cert 2`.
    Head(Version),
    /// The claim: `claim bound 6`, `claim none`.
    Claim(Claim),
    /// The constants, one for each value and last one for dead ends: `constant 6 1`, or in version 1 `constant 6`.
    Constant(Vec<i64>),
    /// An exchange of objects, by their names in lower case: `swap ball1 ball2`.
    Swap {
        /// The names: the first is swapped with the second, the third with the fourth, and so on. All are different.
        objects: Vec<Vec<u8>>,
    },
    /// An atom and its weights: `atom -3 0 (at b)`, or in version 1 `atom -3 (at b)`.
    Weight {
        /// The weights, as many as the constants.
        weights: Vec<i64>,
        /// The name of the atom's predicate, in lower case.
        predicate: Vec<u8>,
        /// The names of its objects, in order.
        objects: Vec<Vec<u8>>,
    },
    /// A part, which gives what state lines rest on: `table 0 2`, `row 3 0 2`, `zone 0 not 2`, `marks 0 3`.
    Part(PartLine),
    /// A state: `open 3 0 2`, `cut 6 2 0 1`, `dead 1 2`, `cut-by 0 6 2 0 1`, `dead-by 0 1 2`.
    Listed(StateLine),
    /// The last line, with the number of state lines: `end 2`.
    Last {
        /// The number of state lines.
        count: u64,
    },
}

//! Best-first search of a transition system, over any listing of its states.
#![tactic(auto)]

mod asked;
mod bases;
mod best;
mod buffers;
mod dead_ends;
mod estimates;
mod guide;
mod listing;
mod nodes;
mod on_demand;
mod open_list;
mod problem;
mod progress;
mod transitions;
mod turns;
mod under_way;

pub use bases::Bases;
pub use best::{MAX_STATES, Outcome, best_first};
pub use dead_ends::{DeadEnd, NoDeadEnd};
pub use estimates::{Estimate, NoEstimate, value_of};
pub use guide::{EstimateWithDeadEnds, Guide};
pub use listing::{OwnClasses, Place, StateListing};
pub use nodes::{FoundStates, Node, NodeStatus, StateId};
pub use on_demand::{Answer, Basis, GuideAlone, ValuesOnDemand};
pub use problem::Problem;
pub use transitions::TransitionSystem;
pub use under_way::{
    Halt, Search, Stop, begin, begin_asking, finish, go_on, go_on_asking, stop_asking,
    stop_at_pause,
};

//! Drafts values over tables: chooses tables by their rows, and partitions the costs of instances among them.
//!
//! Saturated cost partitioning: each table in turn takes what it needs of the costs that are left (Seipp, Keller & Helmert 2020,
//! "Saturated Cost Partitioning for Optimal Classical Planning", JAIR 67). Orders are judged by the values of given states.
//!
//! Nothing is claimed about a partition. The first value and the one for dead ends are the given potentials. Users must test
//! everything else.
#![tactic(auto)]

mod chosen;
mod collected;
mod cost_partition;
mod costs;
mod dead_ends;
mod draft;
mod goal_distances;
mod links;
mod orders;
mod partitioner;
mod rests;
mod states;
mod written;

pub use draft::{DraftInput, DraftedTables, Effort, drafted_tables};

//! What a search of a ground task works on: the task as a system, its exchanges of objects, and listings of states by class.
#![tactic(auto)]

mod exchanges;
mod ground_listing;
mod ground_system;
mod laws;
mod orbit_store;
mod orbits;
mod plans;
mod recent;
mod rows;
mod search_space;
mod starts;

pub use exchanges::exchanges_of;
pub use ground_listing::GroundListing;
pub use ground_system::GroundSystem;
pub use laws::classes_reach_goals_alike;
pub use orbit_store::OrbitStore;
pub use plans::plan_of;
pub use search_space::SearchSpace;

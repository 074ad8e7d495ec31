//! Guides a search: by values over tables, and by landmark values of single states, found when a search asks for them.
//!
//! Each landmark value is tested before it is used.
#![tactic(auto)]

mod asked;
mod fair_tables;
mod on_demand;
mod tested;
mod used;

pub use asked::tested_instances;
pub use fair_tables::FairTables;
pub use on_demand::{DraftLimits, LandmarksOnDemand};
pub use used::UsedValues;

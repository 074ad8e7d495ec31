//! Landmark values in memory: zones and weights over them, and their lines in a certificate's text.
#![tactic(auto)]

mod landmarks;
mod limits;
mod line_text;
mod values;
mod zones;

pub use landmarks::Landmarks;
pub use limits::{MAX_ENTRIES, MAX_SHARE_WEIGHT, MAX_VALUES, MAX_ZONES, is_value, is_zone};
pub use line_text::{add_cut_by, add_dead_by, add_value, add_zone};
pub use values::Share;
pub use zones::ZoneRef;

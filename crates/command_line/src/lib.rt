//! Reads the command line.
#![tactic(auto)]

mod cert_version;
mod description;
mod fault;
mod max_count;
mod one_file;
mod order;
mod plain;
mod reading;
mod streams;

pub use cert_version::CertVersion;
pub use fault::WordsFault;
pub use max_count::{MAX_LIMIT, MaxCount};
pub use order::Order;
pub use plain::text_of;
pub use reading::{examples_are_read, read_words};
pub use streams::{fills_the_output, is_stream};

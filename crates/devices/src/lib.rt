//! Sources and sinks of bytes: files, streams and memory; lines of progress; and clocks. Any call but a clock's may fail.
#![tactic(auto)]

mod clock;
mod device;
mod files;
mod memory;
mod progress;
mod system;
mod system_clock;
mod timed;

pub use clock::Clock;
pub use device::{DeviceFault, IoFault, Sink, Source, write_all};
pub use files::{Bytes, Document, Files, SystemFiles, read_file};
pub use memory::{Memory, fill};
pub use progress::{Unheard, say_line};
pub use system::Device;
pub use system_clock::SystemClock;
pub use timed::{Quiet, Timed};

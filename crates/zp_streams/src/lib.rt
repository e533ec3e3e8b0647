//! Readers and writers whose failed calls contracts can count, and such devices over the streams of std.
#![tactic(auto)]

mod device;
mod failures;
mod streams;

pub use device::{Sink, Source};
pub use failures::Failures;
pub use streams::{ReadFault, Reader, WriteFault, Writer, write_all, write_pieces};

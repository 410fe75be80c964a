//! Files and sinks: what is read and written, with the faults counted. Code above reads and writes through
//! the two traits, so that it can be tried on memory with calls that fail where a test wants it.
#![tactic(auto)]

mod mem_files;
mod mem_sink;
mod reading;
mod real;
#[cfg(test)]
mod tests;
mod writing;

pub use mem_files::MemFiles;
pub use mem_sink::MemSink;
pub use reading::{Failed, FileError, Files, read_file};
pub use real::{RealFiles, RealSink};
pub use writing::{Sink, SinkError, write_all};

//! The outside: files, a sink for what is printed, and observers of the records.
#![tactic(auto)]

mod consumer;
mod counts;
mod files;
mod host;
mod input;
mod memory_files;
mod memory_sink;
mod named;
mod observer;
mod output;
mod refused;
mod rest;
mod sink;
#[cfg(test)]
mod steps;

pub use consumer::{Consumer, FeedRefusal, feed_file};
pub use counts::Numbers;
pub use files::Files;
pub use host::{HostFiles, HostSink};
pub use input::{ReadRefusal, read_file};
pub use memory_files::MemoryFiles;
pub use memory_sink::MemorySink;
pub use named::FileList;
pub use observer::{Next, Observer};
pub use output::{print, write_file};
pub use refused::Refused;
pub use sink::Sink;

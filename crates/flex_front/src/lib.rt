//! The sources that are built so far, and the reading of them.
#![tactic(auto)]

mod document;
mod reading;
#[cfg(test)]
mod tests;
mod words;

pub use document::{Document, Element};
pub use reading::{SourceRefusal, laws_of_sources, read_source};
pub use words::is_name;

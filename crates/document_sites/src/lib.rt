//! The sites of documents among the members of a source set: tags, attributes and texts; and the
//! order of all sites by reading, classes and members. Definitions, and what they say of small
//! source sets.
#![tactic(auto)]

mod told;

pub use told::small_sources_are_told;

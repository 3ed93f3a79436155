//! Source files that are read: the trees and the code of each, and in which source sets of the
//! definitions they stand.
#![tactic(auto)]

mod file;

pub use file::{ReadContent, ReadDocument, ReadFile, SourcePath};

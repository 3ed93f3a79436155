//! The first broken rule of the classes of all files of a source set, and of the members of its
//! class files.
#![tactic(auto)]

mod classes;
mod files;

pub use classes::{check_class, check_root_of};
pub use files::{CodePhase, check_classes, check_phase};

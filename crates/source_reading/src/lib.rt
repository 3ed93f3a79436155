//! The reading of sources: what texts of code read as by their tokens and the productions of code,
//! or their first fault with its place.
#![tactic(auto)]

mod class_files;
mod code;
mod places;
#[cfg(test)]
mod tests;
mod texts;

pub use class_files::read_class_file;
pub use code::CodeRefusal;
pub use texts::{read_handler, read_members, read_metadata};

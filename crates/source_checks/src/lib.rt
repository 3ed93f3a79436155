//! The first broken rule of the classes of a source set and of the members of its class files, of
//! read files alone.
#![tactic(auto)]

mod code;
#[cfg(test)]
mod tests;

pub use code::check_code;

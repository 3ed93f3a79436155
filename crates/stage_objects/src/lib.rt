//! The objects, arrays and events of a play by their numbers: what is kept for each of them, how it
//! changes, and the tree in which components stand. ActionScript 3 and Flex 4, in this project's
//! profile.
//!
//! No call has a condition on a number: where it is that of nothing, nothing is found and nothing
//! changes. Cells, watched chains and the want of memory are the stage's.
#![tactic(auto)]

mod arrays;
mod documents;
mod events;
mod listening;
mod objects;
mod placing;
mod properties;
mod states;
#[cfg(test)]
mod tests;
mod tree;

pub use objects::Objects;

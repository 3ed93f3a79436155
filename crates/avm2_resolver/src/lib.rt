//! A file made ready to play: its methods, classes and scripts, with texts, names, types and
//! members in place of numbers.
#![tactic(auto)]

mod bases;
mod classes;
mod methods;
mod native;
mod objects;
mod resolving;
#[cfg(test)]
mod tests;
mod traits;

pub use resolving::program;

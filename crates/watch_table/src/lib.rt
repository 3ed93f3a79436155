//! The watched chains of bindings, and which bindings a change of a property affects.
#![tactic(auto)]

mod fields;
mod pairs;
mod steps;
#[cfg(test)]
mod tests;
mod walk;
mod watch;

pub use fields::Fields;
pub use pairs::Pairs;
pub use steps::Steps;
pub use watch::{Watch, Watched};

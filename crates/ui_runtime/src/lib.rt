//! The stage of a play: its objects, arrays and events, with what code and the player's own work
//! do to them. It calls no code itself. ActionScript 3 and Flex 4, in this project's profile.
//!
//! After want of memory a stage holds nothing, and answers `NoMemory` to each later call that has
//! this answer.
#![tactic(auto)]

mod arrays;
mod children;
#[cfg(test)]
mod component_tests;
mod documents;
#[cfg(test)]
mod event_tests;
mod events;
mod listening;
mod making;
mod placing;
mod reading;
mod stage;
mod state;
mod states;
#[cfg(test)]
mod tests;
#[cfg(test)]
mod value_tests;
mod writing;

pub use children::Placed;
pub use stage::Stage;
pub use state::State;
pub use states::Change;
pub use writing::Written;

//! The listeners of a node, and the dispatch of an event along its path. ActionScript 3, event
//! flow.
#![tactic(auto)]

mod calls;
mod flow;
mod hearers;
mod kinds;
mod laws;
mod listeners;
mod nodes;
mod registrations;
#[cfg(test)]
mod tests;

pub use flow::{Flow, FlowMove};
pub use laws::laws_of_dispatch;
pub use listeners::{Addition, Listeners, Removal};

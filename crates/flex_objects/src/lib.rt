//! What a player keeps for each object: its properties with their values, the elements of an array,
//! its place among the components, its listeners, how far the dispatch of an event has come, and
//! what a document keeps of its bindings and states. ActionScript 3 and Flex 4, in this project's
//! profile.
#![tactic(auto)]

mod children;
mod delivery;
mod document;
mod elements;
mod entity;
mod keeping;
mod parent;
mod properties;
mod slots;
#[cfg(test)]
mod tests;

pub use children::Children;
pub use delivery::Delivery;
pub use document::{EnabledBinding, RegisteredState};
pub use elements::Elements;
pub use entity::{ClassInfo, Entity, Spot};
pub use keeping::Keeping;
pub use parent::Parent;
pub use properties::{Properties, Stored};
pub use slots::{Slot, SlotTable};

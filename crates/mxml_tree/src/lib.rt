//! The tree of an MXML document, or the first fault of its text. XML 1.0 and Namespaces in XML 1.0,
//! in the profile of this project.
#![tactic(auto)]

mod attributes;
mod building;
mod elements;
mod fault;
mod laws;
mod names;
mod reading;
#[cfg(test)]
mod tests;
mod texts;
mod tree;
mod values;

pub use fault::{TreeCode, TreeRefusal};
pub use laws::laws_of_trees;
pub use mxml_items::place_of;
pub use reading::read_tree;
pub use tree::{Attribute, Characters, Element, Node, NodeKind, Tree};

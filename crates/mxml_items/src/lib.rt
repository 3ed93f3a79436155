//! The items of an MXML document: tags, texts, CDATA, comments and instructions, as they stand one
//! behind another in the bytes of a file. XML 1.0 in the profile of this project.
#![tactic(auto)]

mod attributes;
mod bytes;
mod item;
mod items;
mod names;
mod pieces;
mod place;
mod tags;
#[cfg(test)]
mod tests;

pub use item::{Attribute, Item};
pub use items::{Items, Placed, read_items};
pub use pieces::reference;
pub use place::place_of;

//! The texts of attributes and property tags: which have parts in braces, and what the others
//! convert to.
#![tactic(auto)]

mod bindings;
mod literals;
mod numbers;
mod scanning;
mod settings;
#[cfg(test)]
mod tests;

pub use bindings::{bindings_of_text, is_binding, is_two_way};
pub use literals::{Literal, literal_text, literal_value};
pub use numbers::whole_number;
pub use settings::{Setting, setting_of_text};

//! The rules of an attribute by itself: whether it may stand on its tag, is known, may be written,
//! and has a right value.
#![tactic(auto)]

mod overrides;
mod places;
mod values;

pub use overrides::{has_state, is_override};
pub use places::{read_only_attribute, unknown_attribute, wrong_attribute_place};
pub use values::{bad_attribute_literal, too_long_value};

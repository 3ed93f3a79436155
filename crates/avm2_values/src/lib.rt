//! What the instructions of a machine do to values, to the work of a body and to the heap, without
//! what they come to besides: operands and scopes, operators and conversions, the elements of
//! arrays, and finding and reading what names are. AVM2 Overview, chapters 3 and 5.
//!
//! A call that gives nothing says whether the play is over by that or memory was refused.
#![tactic(auto)]

mod arrays;
mod conversions;
mod holders;
mod members;
mod operators;
mod reading;
mod refusal;
mod stack_moves;
#[cfg(test)]
mod tests;

pub use arrays::{element_of, object_number, write_element};
pub use conversions::{convert, convert_all, convert_value};
pub use holders::{found, made_class, member, statics_of};
pub use members::{base_member, builtin_member, class_member, file_member, native_member};
pub use operators::{
    all_plain, apply_operator, branch, invert_top, keep_plain, make_text, negate_top, operate,
    plain,
};
pub use reading::read;
pub use refusal::Refusal;
pub use stack_moves::{
    duplicate, get_local, get_scope, pop, pop_scope, push, push_scope, set_local, swap, take,
};

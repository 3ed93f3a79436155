//! Files made ready to play: what the numbers of an ABC's records and code stand for. The
//! definitions say it of whole files; the code here reads names, types and the code of bodies.
#![tactic(auto)]

mod bodies;
mod branches;
mod class;
mod file;
mod member;
mod method;
mod names;
mod operation;
mod pool;
#[cfg(test)]
mod tests;
mod types;

pub use bodies::operations;
pub use class::{ClassField, FileClass};
pub use file::{Program, Script};
pub use member::{Member, NamedMember, RuntimeCall, TraitPlace};
pub use method::{Body, Method};
pub use names::{Name, OwnName, Space};
pub use operation::Operation;
pub use pool::{dotted_name_at, is_string, name_at, own_name_at, space_at, string_at, text_at};
pub use types::{native_type, type_at, type_named};

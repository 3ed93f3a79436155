//! The rules of the members of a class file: its imports, its metadata, the names that it declares
//! and the types that it names.
#![tactic(auto)]

mod class_file;
mod event_types;
mod functions;
mod imports;
mod literals;
mod locals;
mod members;
mod metadata;
mod names;
mod naming;
mod overriding;
mod rules;
mod scope;
mod stands;
#[cfg(test)]
mod tests;

pub use class_file::check_class_members;
pub use functions::{check_local_types, check_parameters, check_result};
pub use imports::check_imports;
pub use literals::quoted_text;
pub use locals::check_locals;
pub use members::{check_declared, check_member, check_member_code, check_members};
pub use metadata::{bad_metadata, check_metadata, event_declared, metadata_value};
pub use names::{NamedPlace, declared_names};
pub use naming::{check_function_name, check_variable_name};
pub use rules::unknown_type;
pub use scope::ClassScope;

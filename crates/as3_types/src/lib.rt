//! The classes of a source set: the rules of their names and of their members.
#![tactic(auto)]

mod bases;
mod classes;
mod identifiers;
mod imports;
mod look_ups;
mod meaning;
mod names;
mod table;
#[cfg(test)]
mod tests;
mod types;
mod words;

pub use bases::{base_cycle, not_application, wrong_root};
pub use classes::{check_class_file, check_root, start_of, written_base, wrong_package};
pub use identifiers::is_identifier;
pub use imports::{bare_class, class_at, folder_of};
pub use look_ups::{Found, FoundMember, member_of, native_signature, native_type, own_member};
pub use meaning::{Meaning, catalog_class, catalog_class_in, class_in, class_of_tag, source_class};
pub use names::{duplicate_class, unknown_base, wrong_base, wrong_class_name};
pub use table::{ClassTable, OwnEvent, OwnKind, OwnMember};
pub use types::{
    Signature, ValueType, built_in, is_constructor, signature_of, type_at, type_of_class,
};
pub use words::{
    access_of, is_same_modifier, overrides, site_unless, step_name, wrong_class_modifiers,
    wrong_import, wrong_modifiers,
};

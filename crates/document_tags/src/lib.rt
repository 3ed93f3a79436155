//! What each tag and each attribute of a document is, by what its parent is, and whether tags and
//! texts may stand there.
#![tactic(auto)]

mod attributes;
mod children;
mod classes;
mod document;
mod dotted;
mod language;
mod placing;
mod properties;
mod standing;
mod texts;

pub use attributes::{AttributeKind, attribute_kind};
pub use children::{child_placed, in_instance, plain_placed, stray_placed};
pub use classes::{is_component_class, is_container_class, tag_place};
pub use document::DocumentClass;
pub use dotted::{Dotted, dotted_name};
pub use placing::{placed_in, root_placed};
pub use properties::{event_on, property_on};
pub use standing::{Before, Holds, Placed, Role, Standing, behind, nothing_before};
pub use texts::text_right;

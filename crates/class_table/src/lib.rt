//! What a class adds to the class table: what its constructor takes, the members of its code and
//! those that ids make, and the events that it declares; and what code sees by the table.
#![tactic(auto)]

mod constructors;
mod event_look_ups;
mod events;
mod ids;
mod look_ups;
mod members;
mod scope;
#[cfg(test)]
mod tests;
mod variables;

pub use constructors::{constructor_in, constructor_of};
pub use event_look_ups::{event_of, own_event};
pub use events::{add_event, events_of};
pub use ids::{has_tag, id_type, ids_on};
pub use look_ups::{Property, is_seen, member_seen, property_seen};
pub use members::{add_member, members_of};
pub use scope::ClassCode;
pub use variables::is_bindable;

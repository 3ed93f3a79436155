//! The class table of read files: what the constructors of their classes take, the members of the
//! classes and the events that they declare, and the whole table.
#![tactic(auto)]

mod constructors;
mod events;
mod ids;
mod members;
mod whole;

pub use constructors::constructors_of;
pub use events::events_of_files;
pub use members::members_of_files;
pub use whole::table_of_files;

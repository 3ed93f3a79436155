//! The moves of native work: what remains of it, and what a move comes to. Children are told of,
//! containers are emptied, bindings run one after another, and documents go over to states.
//! Flash Player event flow and Using Flex 4; the order of the moves is this project's own.
//!
//! A call that gives nothing says whether the play is over by that or memory was refused; then the
//! heap is of no further use.
#![tactic(auto)]

mod adding;
mod bindings;
mod changes;
mod emptying;
mod events;
mod writing;

pub use adding::add_on;
pub use bindings::start_on;
pub use changes::change_on;
pub use emptying::empty_on;
pub use events::{change, click, creation_complete, current_state_change};
pub use writing::write_and;

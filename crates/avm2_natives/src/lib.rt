//! What native calls do to the heap, and what they give: the methods of the catalog, those of arrays,
//! and the constructors of events. ActionScript 3 and Flex 4, in this project's profile.
//!
//! A call that gives nothing says whether the play is over by that or memory was refused; then the
//! heap is of no further use.
#![tactic(auto)]

mod arguments;
mod arrays;
mod containers;
mod dispatching;
mod events;
mod listening;
mod marks;
mod natives;
mod parameters;
mod paths;
mod receivers;

pub use arrays::{pop, push};
pub use dispatching::begin_dispatch;
pub use events::begin_event;
pub use natives::call_catalog;
pub use parameters::{constructor_arguments, native_arguments};

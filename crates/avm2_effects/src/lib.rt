//! What the moves of a machine do to the heap, and what they come to: calls are prepared, names are
//! written, states are asked for, and children are put and taken. AVM2 Overview, chapters 3 and 5.
//!
//! A call that gives nothing says whether the play is over by that or memory was refused; then the
//! heap is of no further use.
#![tactic(auto)]

mod children;
mod methods;
mod own_slots;
mod starting;
mod states;
mod targets;
mod writing;

pub use children::{add, take_out};
pub use methods::{body_of, call_listener, call_method, initialiser, method_at, owner_of, prepare};
pub use own_slots::is_class;
pub use states::{request, request_kept, request_state};
pub use writing::{store, store_at, write};

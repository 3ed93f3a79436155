//! What a checked program means: the records and the outcome of its play under a script. The
//! functions here do nothing: each is a law that its contract states.
#![tactic(auto)]

mod examples;
mod laws;

pub use examples::{
    bindings_and_states_mean, events_mean, plain_programs_mean, small_programs_are_fine,
};
pub use laws::{fine_programs_are_never_stuck, more_turns_go_on};

//! Instructions of a machine: each changes the work of its body and the heap, and comes to an
//! effect. AVM2 Overview, chapters 3 and 5.
//!
//! A call that gives nothing says whether the play is over by that or memory was refused; then the
//! work and the heap are of no further use.
#![tactic(auto)]

mod arguments;
mod classes;
mod look_ups;
mod properties;
mod returns;

pub use arguments::{take_arguments, take_receiver};
pub use classes::new_class;
pub use look_ups::{find_property, get_lex};
pub use properties::{get_property, property_at, set_property};
pub use returns::{return_value, return_void};

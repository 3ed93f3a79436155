//! Source sets as rules see them: files with their trees, the names of classes and what they mean,
//! the class table and look-ups in it; and sites, which are places with a rule, in one order. The
//! definitions that the checks of sources stand on, with the codes of faults.
#![tactic(auto)]

mod code;
mod laws;
mod names;
mod site;
mod source;

pub use code::Code;
pub use laws::laws_of_sites;
pub use names::{Import, NamedClass};
pub use site::Site;
pub use source::ParsedClass;

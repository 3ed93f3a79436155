//! The classes of read files by their names, with what their code imports, and their bases.
#![tactic(auto)]

mod bases;
mod imports;
mod named;

pub use bases::bases_of;
pub use named::named_classes;

//! The playing of a SWF file: it is read, the machine plays its program, and the records are printed.
#![tactic(auto)]

mod playing;

pub use playing::play;

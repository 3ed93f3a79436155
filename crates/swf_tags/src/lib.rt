//! The SWF format: uncompressed files with one program in them, read and written.
#![tactic(auto)]

mod fields;
mod format;
mod laws;
mod parts;
mod push;
mod reading;
mod stage;
#[cfg(test)]
mod tests;
mod types;
mod writing;

pub use laws::{laws_of_feeding, laws_of_reading, laws_of_writing};
pub use push::SwfPush;
pub use reading::read_swf;
pub use types::{Swf, SwfReason, SwfRefusal, Tag, Tags};
pub use writing::write_swf;

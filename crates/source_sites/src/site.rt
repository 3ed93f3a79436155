// Where a source set is at fault.

use crate::code::Code;

/// A place of a source set where a rule is broken.
#[derive(Clone, Copy, Debug, PartialEq, Eq)]
pub struct Site {
    /// The number of the file in the source set; the main file is 0.
    pub file: u32,
    /// The place in the file, in bytes from 0.
    pub at: usize,
    /// Which rule is broken.
    pub code: Code,
}

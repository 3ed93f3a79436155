// Files as they are read.

use as3_parser::ClassFile;

/// A class file that is read: its tree, and the two places that its rules name and the tree doesn't
/// have.
#[derive(Drop)]
pub struct ParsedClass {
    /// The place of the word `package`, in bytes of the file from 0.
    pub package_at: usize,
    /// The place of the first token of the class, its metadata and its modifiers included.
    pub class_at: usize,
    pub file: ClassFile,
}

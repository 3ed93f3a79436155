// The classes of source files by their names.

use flex_base::{Names, Sequence, Text};

/// An import of code, whose last name may be a star: the text `*`.
#[derive(Drop)]
pub struct Import {
    /// The place of the word `import`, in bytes of the code's own text from 0.
    pub at: usize,
    /// At least one name.
    pub names: Names,
}

/// The class that a source file defines.
#[derive(Drop)]
pub struct NamedClass {
    /// Its package, which is the folder of the file, with dots between the names.
    pub folder: Text,
    /// Its name, which is that of the file.
    pub name: Text,
    /// Whether the file is an MXML document.
    pub is_document: bool,
    /// What its code imports, in text order.
    pub imports: Sequence<Import>,
}

// Whose members are made.

use source_sites::NamedClass;

/// A class whose code is read, among the classes of all files.
#[derive(Drop)]
pub struct ClassCode<'a> {
    pub classes: &'a [NamedClass],
    pub here: &'a NamedClass,
    /// Whether `[Bindable]` stands before the class.
    pub bindable: bool,
}

// A document whose tags are judged.

use as3_types::ClassTable;
use flex_world::Class;

/// A document by its class, among the classes of all files.
#[derive(Clone, Copy)]
pub struct DocumentClass<'a> {
    pub table: &'a ClassTable,
    pub class: Class,
}

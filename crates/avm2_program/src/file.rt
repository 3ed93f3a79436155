// Files.

use crate::class::FileClass;
use crate::member::NamedMember;
use crate::method::Method;
use flex_base::{Sequence, Value};
use flex_world::Class;

/// A script of the file.
#[derive(Drop)]
pub struct Script {
    /// The number of its method.
    pub initialiser: u32,
    pub members: Sequence<NamedMember>,
    /// One for each trait.
    pub slots: Sequence<Value>,
}

/// A file made ready to play: texts, names, types and members stand where the file has numbers, and
/// an instruction is named by its place in the order of its body.
#[derive(Drop)]
pub struct Program {
    pub methods: Sequence<Method>,
    pub classes: Sequence<FileClass>,
    /// The base of each class, where it has one that is a class.
    pub bases: Sequence<Option<Class>>,
    pub scripts: Sequence<Script>,
}

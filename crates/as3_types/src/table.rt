// The class table: what the source classes declare.

ghost use Rattle.std.specs.Prelude.{◌<◌, length};

use crate::types::{Signature, ValueType};
use as3_parser::Modifier;
use flex_base::{Bytes, Sequence, Text};
use flex_world::Class;
use source_sites::NamedClass;

/// What a member of a source class is.
#[derive(Drop)]
pub enum OwnKind {
    /// A variable, or what an id names: its type, and whether bindings watch it.
    Property(ValueType, bool),
    Method(Signature),
}

/// A member that a source class declares itself.
#[derive(Drop)]
pub struct OwnMember {
    pub name: Text,
    pub access: Modifier,
    pub kind: OwnKind,
}

/// An event that objects of a source class send, and the class of the event.
#[derive(Drop)]
pub struct OwnEvent {
    /// Its bytes, which are UTF-8 where the metadata are made of tokens.
    pub name: Bytes,
    pub class: Class,
}

/// What the source classes declare. Each list has an item for each file, at its number.
#[derive(Drop)]
pub struct ClassTable {
    pub classes: Sequence<NamedClass>,
    pub bases: Sequence<Option<Class>>,
    /// What a written constructor takes.
    pub constructors: Sequence<Option<Signature>>,
    /// The members of each class, in text order, without the constructor.
    pub members: Sequence<Sequence<OwnMember>>,
    pub events: Sequence<Sequence<OwnEvent>>,
    pub ghost few_bases: { length bases < 4294967296 },
}

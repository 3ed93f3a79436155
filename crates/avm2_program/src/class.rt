// Classes of the file.

use crate::member::NamedMember;
use flex_base::{Sequence, Text, Value};
use flex_world::StaticType;
use std::marker::Model;

/// A property that the objects of a class have at first.
#[derive(Drop)]
pub struct ClassField {
    pub key: Text,
    /// Its name, which records print.
    pub text: Text,
    /// The type of its values.
    pub kind: StaticType,
    /// Whether all code may see it.
    pub public: bool,
    /// Whether bindings watch it.
    pub bindable: bool,
    /// Whether code can't write it.
    pub read_only: bool,
    /// Whether it is a variable or an id of a class of the file, and no property of the catalog.
    pub is_slot: bool,
    /// Its value in a new object.
    pub start: Value,
}

impl Model for ClassField {
    ghost use Rattle.flex_world.specs.Objects.{Field};

    ghost Value = { Field };

    ghost view = { λ f. record {
      name = f.key;
      text = f.text;
      type = f.kind;
      public = f.public;
      bindable = f.bindable;
      read_only = f.read_only;
      is_slot = f.is_slot;
      value = f.start;
    } };
}

/// A class of the file.
#[derive(Drop)]
pub struct FileClass {
    /// Its full dotted name.
    pub name: Text,
    /// There is none where no super_name is written.
    pub base: Option<StaticType>,
    /// What stands behind it and those of its ancestors that are classes of the file.
    pub behind: Option<StaticType>,
    /// The number of the method that makes its objects.
    pub constructor: u32,
    /// The number of the method that makes its class value.
    pub initialiser: u32,
    /// Whether it has interfaces, getters, setters, functions or slots with starting values.
    pub is_unplayed: bool,
    /// The members of its objects, inherited ones included: its own first.
    pub members: Sequence<NamedMember>,
    /// The properties that its objects have at first, the native ones last.
    pub fields: Sequence<ClassField>,
    /// Those in the namespace of the runtime, which cost no cells and make no records.
    pub hidden: Sequence<ClassField>,
    /// The members of its class value.
    pub own_members: Sequence<NamedMember>,
    /// One for each trait of its class value.
    pub own_slots: Sequence<Value>,
}

// Members: what names are where they are found.

use crate::names::OwnName;
use component_catalog::NativeMethod;
use flex_base::Text;
use flex_world::StaticType;

/// Where a trait stands.
#[derive(Clone, Copy, Debug, PartialEq, Eq)]
pub struct TraitPlace {
    /// The number of its class or script.
    pub holder: u32,
    /// Its own among the traits there, from 0.
    pub number: u32,
}

/// The calls of the runtime, which this project defines.
#[derive(Clone, Copy, Debug, PartialEq, Eq)]
pub enum RuntimeCall {
    RegisterState,
    Bind,
    RunBinding,
    Begin,
    Place,
    TakeOut,
}

/// What a name is at the value where it was found.
#[derive(Drop)]
pub enum Member {
    /// A property of an object, by its key.
    Slot(Text),
    /// The same of one in the namespace of the runtime.
    HiddenSlot(Text),
    /// A slot of a class or a script, by the number of its trait, with its type.
    OwnSlot(u32, StaticType),
    /// A place for the class of a number.
    ClassTrait(TraitPlace, u32),
    /// The method of a number.
    Written(u32),
    /// A getter, a setter, a function, or a slot with a starting value.
    Unplayed,
    /// A method of the catalog.
    Catalog(NativeMethod),
    /// A call of the runtime.
    Runtime(RuntimeCall),
    /// `push` of an array.
    Push,
    /// `pop` of an array.
    Pop,
    /// `length` of an array.
    ArrayLength,
    /// `length` of a text.
    TextLength,
    /// `trace` of the native script.
    Trace,
    /// A class of the native script.
    ClassOf(StaticType),
}

/// A member with its own name, where it has one.
#[derive(Drop)]
pub struct NamedMember {
    pub name: Option<OwnName>,
    pub member: Member,
}

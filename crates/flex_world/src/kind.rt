// Classes and the types of places.

use component_catalog::NativeClass;

/// A class of the catalog, or one of the file or the sources that are played, by its number among
/// these.
#[derive(Clone, Copy, Debug, PartialEq, Eq)]
pub enum Class {
    Native(NativeClass),
    File(u32),
}

/// The type of a variable, a property, a parameter or a result. ActionScript 3.
#[derive(Clone, Copy, Debug, PartialEq, Eq)]
pub enum StaticType {
    Int,
    Boolean,
    String,
    Array,
    Object(Class),
    /// No type, or `*`.
    Any,
    /// A name that names no class; no source has it.
    Unnamed,
}

// The types and the starting values of the catalog.

use crate::class::NativeClass;

/// The type of a property, a parameter or a result. ActionScript 3.
#[derive(Clone, Copy, Debug, PartialEq, Eq)]
pub enum ValueType {
    /// `int`.
    Int,
    /// `Boolean`.
    Boolean,
    /// `String`.
    String,
    /// The objects of a native class, those of the classes that extend it, and null.
    Object(NativeClass),
    /// `*`: every value.
    Any,
}

/// The value that a property has in a new object, or that a parameter has where a call leaves it
/// out.
#[derive(Clone, Copy, Debug, PartialEq, Eq)]
pub enum StartValue {
    /// `null`.
    Null,
    /// A Boolean.
    Bool(bool),
    /// An `int`.
    Int(i32),
    /// `""`.
    EmptyText,
}

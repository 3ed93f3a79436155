// What instructions and native moves change.

use crate::operand::Operand;
use crate::stack::Stack;
use avm2_program::TraitPlace;
use flex_base::{ObjId, Sequence, Value};
use ui_runtime::State;

/// A place for a class of the file in an object.
#[derive(Clone, Copy, Debug, PartialEq, Eq)]
pub struct ObjectPlace {
    pub object: ObjId,
    pub place: TraitPlace,
}

/// What a class or a script keeps for its own traits.
#[derive(Drop)]
pub struct Statics {
    /// The values of slots, one for each trait.
    pub slots: Sequence<Value>,
    /// The places for classes that were written, the last one first.
    pub written: Stack<TraitPlace>,
}

/// A class that was made.
#[derive(Drop)]
pub struct MadeClass {
    /// The scopes that were open then, the inner first.
    pub scopes: Stack<Operand>,
    pub statics: Statics,
}

/// The stage, and what classes and scripts keep.
#[derive(Drop)]
pub struct Heap {
    pub stage: State,
    /// The places for classes in objects that were written, the last one first.
    pub written: Stack<ObjectPlace>,
    /// One for each class of the file.
    pub classes: Sequence<Option<MadeClass>>,
    /// One for each script.
    pub scripts: Sequence<Statics>,
}

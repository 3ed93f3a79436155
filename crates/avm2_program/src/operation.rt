// Instructions made ready.

use crate::names::Name;
use flex_base::Value;
use flex_world::{Operator, StaticType};

/// An instruction that is ready: texts, names and types stand where it has numbers, and a branch
/// leads to an instruction by its place in the order of its body, from 0. AVM2 Overview, chapter 5.
#[derive(Drop)]
pub enum Operation {
    /// It does nothing.
    Skip,
    Label,
    /// It goes on at an instruction.
    Jump(u32),
    /// The same where the value converts to this truth.
    Branch(bool, u32),
    Push(Value),
    Pop,
    Dup,
    Swap,
    PushScope,
    PopScope,
    /// The scope of a number, from 0.
    GetScopeObject(u32),
    /// The local of a number, from 0.
    GetLocal(u32),
    SetLocal(u32),
    FindProperty(Name),
    GetLex(Name),
    GetProperty(Name),
    SetProperty(Name),
    GetElement,
    SetElement,
    /// Whether it keeps its result, the method's name, and the number of arguments.
    CallProperty(bool, Name, u32),
    /// The method's name, and the number of arguments.
    CallSuper(Name, u32),
    /// The class's name, and the number of arguments.
    ConstructProperty(Name, u32),
    /// The number of arguments.
    ConstructSuper(u32),
    ReturnVoid,
    ReturnValue,
    /// The number of elements.
    NewArray(u32),
    /// The class of a number.
    NewClass(u32),
    /// `String(v)`.
    ToText,
    Convert(StaticType),
    CoerceAny,
    Negate,
    Not,
    Apply(Operator),
}

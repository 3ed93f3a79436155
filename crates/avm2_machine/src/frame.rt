// The frames of the machine, and what they hold.

ghost use Rattle.std.specs.Prelude.{◌≡◌, IfOk};

use crate::dispatch::{Dispatch, Sending};
use crate::stack::Stack;
use crate::stage::Class;
use flex_base::{NoMemory, Sequence, Text, Value};

/// What the stack and the locals of a frame hold.
#[derive(Drop)]
pub enum Operand {
    Value(Value),
    /// A class value.
    Class(Class),
    /// The value of the script of this number.
    Script(usize),
    /// The value of the native script.
    Natives,
}

impl Operand {
    /// The same operand once more.
    pub fn copy(&self) -> Result<Operand, NoMemory>
        ensures { IfOk result (λ copy. copy ≡ self.now) }
    {
        match self {
            Operand::Value(value) => Ok(Operand::Value(value.clone()?)),
            Operand::Class(class) => Ok(Operand::Class(*class)),
            Operand::Script(number) => Ok(Operand::Script(*number)),
            Operand::Natives => Ok(Operand::Natives),
        }
    }
}

/// A method's body that is being executed.
#[derive(Drop)]
pub struct CodeFrame {
    /// The number of the body in the file.
    pub body: usize,
    /// The place of the next instruction in its code.
    pub pc: usize,
    pub stack: Stack<Operand>,
    pub locals: Sequence<Operand>,
    /// Whether it took a level, which its end gives back.
    pub is_activity: bool,
}

/// What is open, one upon another.
#[derive(Drop)]
pub enum Frame {
    Code(CodeFrame),
    /// A line of the script that begins.
    User(Text),
    /// A line of the script that reaches no component, by the path in it.
    Miss(Text),
    /// A line of the script that asks for a state, which the main object hasn't.
    UnknownState,
    Sending(Sending),
    Dispatch(Dispatch),
}

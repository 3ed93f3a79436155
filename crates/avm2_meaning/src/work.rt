// What an instruction works on.

use crate::operand::Operand;
use crate::stack::Stack;
use flex_base::Sequence;

/// What an instruction sees of the body that runs.
#[derive(Drop)]
pub struct Work {
    /// The number of the method.
    pub method: u32,
    /// The operands, the top first.
    pub stack: Stack<Operand>,
    /// The open scopes, the inner first.
    pub scopes: Stack<Operand>,
    pub locals: Sequence<Operand>,
}

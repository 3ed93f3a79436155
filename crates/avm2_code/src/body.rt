// The instructions of a body.

ghost use Rattle.std.specs.Prelude.{◌≡◌, IfOk};
ghost use Rattle.avm2_code.specs.Body.{AreInstructions};
ghost use Rattle.avm2_code.specs.Laws.{HasOneList};

use crate::instruction::Instruction;
use crate::reading::instruction_at;
use flex_base::{NoMemory, Sequence};
use std::alloc::Global;

/// An instruction, with its place in the code and that of the next one, in bytes.
#[derive(Clone, Copy)]
pub struct PlacedInstruction {
    pub place: usize,
    pub instruction: Instruction,
    pub next: usize,
}

/// The instructions of code, read one after another from place 0, and none behind one that can't
/// be read.
pub fn instructions_of(alloc: Global, code: &[u8]) -> Result<Sequence<PlacedInstruction>, NoMemory>
    ensures { IfOk result (AreInstructions code.now) }
{
    let mut instructions = Sequence::new(alloc);
    let mut place = 0;
    while place < code.len() {
        let Ok((instruction, next)) = instruction_at(code, place) else {
            return Ok(instructions);
        };
        instructions.push(PlacedInstruction {
            place,
            instruction,
            next,
        })?;
        place = next;
    }
    Ok(instructions)
}

/// Code has exactly one list of instructions, and whether one stands at a place is decided.
pub fn laws_of_bodies()
    ensures { HasOneList }
{}

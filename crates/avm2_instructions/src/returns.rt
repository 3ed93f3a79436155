// A body is over, with its result.

ghost use Rattle.std.specs.Prelude.{◌≡◌};
ghost use Rattle.avm2_effects.specs.Answers.{Acts};
ghost use Rattle.avm2_instructions.specs.Forms.{act_return_value};
ghost use Rattle.avm2_meaning.specs.Act.{return_value};
ghost use Rattle.avm2_meaning.specs.Operands.{undefined};
ghost use Rattle.avm2_meaning.specs.declared.heap.Heap.{Heap};
ghost use Rattle.avm2_meaning.specs.declared.work.Work.{Work};

use avm2_effects::method_at;
use avm2_meaning::{Effect, Heap, Next, Operand, Work};
use avm2_program::Program;
use avm2_values::{Refusal, convert, take};
use flex_base::{MachineFault, Value};
use std::alloc::Global;

// The body is over with an operand, which is converted into the type of the method.
fn close(
    alloc: Global,
    program: &Program,
    heap: &Heap,
    work: &Work,
    operand: Operand,
) -> Result<Effect, Refusal>
    ensures { Acts result work.now heap.now (return_value program.now operand work.now heap.now) }
{
    let Some(method) = method_at(program, work.method) else {
        return Err(Refusal::from(MachineFault::NotHere));
    };
    let converted = convert(alloc, program, heap, method.result, operand)?;
    Ok(Effect::silent(Next::Close(Some(converted))))
}

/// The body is over, and its result is Undefined.
pub fn return_void(
    alloc: Global,
    program: &Program,
    heap: &Heap,
    work: &Work,
) -> Result<Effect, Refusal>
    ensures { Acts result work.now heap.now
        (return_value program.now undefined work.now heap.now) }
{
    close(alloc, program, heap, work, Operand::Plain(Value::Undefined))
}

/// The body is over, and its result is on top of the stack.
pub fn return_value(
    alloc: Global,
    program: &Program,
    heap: &Heap,
    work: &mut Work,
) -> Result<Effect, Refusal>
    ensures { Acts result work.new heap.now (act_return_value program.now work.old heap.now) }
{
    let operand = take(work)?;
    close(alloc, program, heap, work, operand)
}

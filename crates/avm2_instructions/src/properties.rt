// Names read and written at the value on the stack.

ghost use Rattle.std.specs.Prelude.{◌≡◌};
ghost use Rattle.avm2_effects.specs.Answers.{Acts};
ghost use Rattle.avm2_meaning.specs.Act.{on_top, property_at, set_property};
ghost use Rattle.avm2_meaning.specs.declared.heap.Heap.{Heap};
ghost use Rattle.avm2_values.specs.Answers.{Gives, GoesOn};

use avm2_effects::write;
use avm2_meaning::{Effect, Heap, Operand, Work};
use avm2_program::{Name, Program};
use avm2_values::{Refusal, found, push, read, take};
use std::alloc::Global;

/// The value of a name at a receiver.
pub fn property_at(
    program: &Program,
    heap: &Heap,
    holder: &Operand,
    name: &Name,
) -> Result<Operand, Refusal>
    ensures { Gives result heap.now (property_at program.now name.now holder.now heap.now) }
{
    let member = found(program, heap, holder, name)?;
    read(heap, holder, &member)
}

/// The value of a name at the top of the stack, in its place.
pub fn get_property(
    program: &Program,
    heap: &Heap,
    work: &mut Work,
    name: &Name,
) -> Result<(), Refusal>
    ensures { GoesOn result work.new heap.now
        (on_top (property_at program.now name.now) work.old heap.now) }
{
    let holder = take(work)?;
    let value = property_at(program, heap, &holder, name)?;
    push(work, value)?;
    Ok(())
}

/// Writes the top of the stack to a name at the operand below it.
pub fn set_property(
    alloc: Global,
    program: &Program,
    heap: &mut Heap,
    work: &mut Work,
    name: &Name,
) -> Result<Effect, Refusal>
    ensures { Acts result work.new heap.new
        (set_property program.now name.now work.old heap.old) }
{
    let operand = take(work)?;
    let holder = take(work)?;
    let member = found(program, heap, &holder, name)?;
    write(alloc, program, heap, &holder, &member, operand)
}

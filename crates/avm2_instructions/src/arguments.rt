// The operands of calls.

ghost use Rattle.avm2_instructions.specs.Taking.{TakesAll, TakesCall};
ghost use Rattle.std.specs.Prelude.{◌≡◌};

use avm2_meaning::{Operand, Stack, Work};
use avm2_values::{Refusal, take};
use std::alloc::Global;

/// Takes so many arguments off the stack, the last of which is on top: the first comes first.
pub fn take_arguments(alloc: Global, work: &mut Work, count: u32) -> Result<Stack<Operand>, Refusal>
    ensures { TakesAll result count work.old work.new }
{
    let mut arguments = Stack::new(alloc);
    let mut left = count;
    while left > 0 {
        left -= 1;
        arguments.push(take(work)?)?;
    }
    Ok(arguments)
}

/// Takes the arguments of a call off the stack, and then its receiver, which stands below them.
pub fn take_receiver(
    alloc: Global,
    work: &mut Work,
    count: u32,
) -> Result<(Operand, Stack<Operand>), Refusal>
    ensures { TakesCall result count work.old work.new }
{
    let arguments = take_arguments(alloc, work, count)?;
    let receiver = take(work)?;
    Ok((receiver, arguments))
}

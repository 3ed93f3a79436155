// The methods of a file, and calls of them.

ghost use Rattle.std.specs.Option.{option_copied};
ghost use Rattle.std.specs.Prelude.{◌≡◌};
ghost use Rattle.flex_objects.specs.Entities.{listener};
ghost use Rattle.avm2_meaning.specs.Calls.{call_listener, call_method, initialiser, prepare};
ghost use Rattle.avm2_meaning.specs.Classes.{body_of, method_at, owner_of};
ghost use Rattle.avm2_meaning.specs.declared.heap.Heap.{Heap};
ghost use Rattle.avm2_values.specs.Answers.{Gives};

use avm2_meaning::{Call, Effect, Heap, Next, Operand, Stack};
use avm2_program::{Body, Method, Program};
use avm2_values::{Refusal, convert_all};
use flex_base::{MachineFault, ObjId, Sequence, Value};
use std::alloc::Global;

/// The method of a number.
pub fn method_at(program: &Program, method: u32) -> Option<&Method>
    ensures { option_copied result ≡ method_at program.now method }
{
    program.methods.get(method as usize)
}

/// The body of a method, if it has one.
pub fn body_of(program: &Program, method: u32) -> Option<&Body>
    ensures { option_copied result ≡ body_of program.now method }
{
    method_at(program, method)?.body.as_ref()
}

/// The number of the class that names a method first.
pub fn owner_of(program: &Program, method: u32) -> Option<u32>
    ensures { result ≡ owner_of program.now method }
{
    method_at(program, method)?.owner
}

/// The arguments of a method, converted: it must have a body, their number is looked at, and then
/// they are converted from left to right.
pub fn prepare(
    alloc: Global,
    program: &Program,
    heap: &Heap,
    method: u32,
    arguments: Stack<Operand>,
) -> Result<Sequence<Operand>, Refusal>
    ensures { Gives result heap.now (prepare program.now method arguments heap.now) }
{
    let Some(method) = method_at(program, method) else {
        return Err(Refusal::from(MachineFault::NotHere));
    };
    if method.body.is_none() {
        return Err(Refusal::from(MachineFault::NotHere));
    }
    if arguments.len() != method.parameters.len() {
        return Err(Refusal::from(MachineFault::WrongCount));
    }
    convert_all(
        alloc,
        program,
        heap,
        method.parameters.as_slice(),
        arguments,
    )
}

/// A method is called on a receiver.
pub fn call_method(
    alloc: Global,
    program: &Program,
    heap: &Heap,
    method: u32,
    receiver: Operand,
    arguments: Stack<Operand>,
    keeps: bool,
) -> Result<Effect, Refusal>
    ensures { Gives result heap.now
        (call_method program.now method receiver arguments keeps heap.now) }
{
    let arguments = prepare(alloc, program, heap, method, arguments)?;
    Ok(Effect::silent(Next::Calls(Call {
        method,
        receiver,
        arguments,
        keeps,
    })))
}

/// A listener is called, whose result is dropped.
pub fn call_listener(
    alloc: Global,
    program: &Program,
    heap: &Heap,
    called: (ObjId, u32),
    arguments: Stack<Operand>,
) -> Result<Effect, Refusal>
    ensures { Gives result heap.now
        (call_listener program.now (listener called.0 called.1) arguments heap.now) }
{
    let receiver = Operand::Plain(Value::Ref(called.0));
    call_method(alloc, program, heap, called.1, receiver, arguments, false)
}

/// The call of the initialiser of a class or a script, on its value: it takes nothing.
pub fn initialiser(
    alloc: Global,
    program: &Program,
    heap: &Heap,
    method: u32,
    receiver: Operand,
) -> Result<Call, Refusal>
    ensures { Gives result heap.now (initialiser program.now method receiver heap.now) }
{
    prepare(alloc, program, heap, method, Stack::new(alloc))?;
    Ok(Call {
        method,
        receiver,
        arguments: Sequence::new(alloc),
        keeps: false,
    })
}

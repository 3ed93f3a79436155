// The methods of the catalog.

ghost use Rattle.std.specs.Prelude.{◌≡◌};
ghost use Rattle.avm2_meaning.specs.Natives.{call_alone, call_by_count, call_catalog, call_native, call_with_object, call_with_one, object_given};
ghost use Rattle.avm2_meaning.specs.Results.{bind};
ghost use Rattle.avm2_values.specs.Answers.{Gives};

use crate::arguments::object_given;
use crate::containers::{add_element, element_at, remove_all, remove_element};
use crate::dispatching::dispatch_given;
use crate::listening::{add_listener, has_listener, remove_listener};
use crate::marks::{prevent, stop, stop_now, was_prevented};
use crate::parameters::native_arguments;
use crate::receivers::has_method;
use avm2_meaning::{Heap, Operand, Reply, Stack};
use avm2_program::Program;
use avm2_values::{Refusal, object_number};
use component_catalog::NativeMethod;
use flex_base::{MachineFault, ObjId, Value};
use std::alloc::Global;

// A method that takes nothing.
fn call_alone(
    alloc: Global,
    heap: &mut Heap,
    method: NativeMethod,
    object: ObjId,
) -> Result<Reply, Refusal>
    ensures { Gives result heap.new (call_alone method object heap.old) }
{
    match method {
        NativeMethod::RemoveAllElements => remove_all(alloc, heap, object),
        NativeMethod::StopPropagation => Ok(stop(heap, object)),
        NativeMethod::StopImmediatePropagation => Ok(stop_now(heap, object)),
        NativeMethod::PreventDefault => Ok(prevent(heap, object)),
        NativeMethod::IsDefaultPrevented => was_prevented(heap, object),
        _ => Err(Refusal::from(MachineFault::NotHere)),
    }
}

// A method that takes an object.
fn call_with_object(
    alloc: Global,
    heap: &mut Heap,
    keeps: bool,
    method: NativeMethod,
    object: ObjId,
    other: ObjId,
) -> Result<Reply, Refusal>
    ensures { Gives result heap.new (call_with_object keeps method object other heap.old) }
{
    match method {
        NativeMethod::DispatchEvent => dispatch_given(alloc, heap, object, other, keeps),
        NativeMethod::AddElement => add_element(heap, object, other),
        NativeMethod::RemoveElement => remove_element(heap, object, other),
        _ => Err(Refusal::from(MachineFault::NotHere)),
    }
}

// A method that takes an object, with the value that is to be one.
fn call_with_given(
    alloc: Global,
    heap: &mut Heap,
    keeps: bool,
    method: NativeMethod,
    object: ObjId,
    value: &Value,
) -> Result<Reply, Refusal>
    ensures { Gives result heap.new (bind (object_given value.now heap.old) (λ other h.
        call_with_object keeps method object other h)) }
{
    let other = object_given(value)?;
    call_with_object(alloc, heap, keeps, method, object, other)
}

// A method that takes one value.
fn call_with_one(
    alloc: Global,
    heap: &mut Heap,
    keeps: bool,
    method: NativeMethod,
    object: ObjId,
    value: &Value,
) -> Result<Reply, Refusal>
    ensures { Gives result heap.new (call_with_one keeps method object value.now heap.old) }
{
    match method {
        NativeMethod::GetElementAt => match value {
            Value::Int(place) => element_at(heap, object, *place),
            _ => call_with_given(alloc, heap, keeps, method, object, value),
        },
        _ => call_with_given(alloc, heap, keeps, method, object, value),
    }
}

// A method that takes an object or a number at most.
fn call_by_count(
    alloc: Global,
    heap: &mut Heap,
    keeps: bool,
    method: NativeMethod,
    object: ObjId,
    mut values: Stack<Value>,
) -> Result<Reply, Refusal>
    ensures { Gives result heap.new (call_by_count keeps method object values heap.old) }
{
    let Some(value) = values.pop() else {
        return call_alone(alloc, heap, method, object);
    };
    match values.pop() {
        Some(_) => Err(Refusal::from(MachineFault::NotHere)),
        None => call_with_one(alloc, heap, keeps, method, object, &value),
    }
}

// A method of the catalog, with all its arguments, which are converted.
fn call_native(
    alloc: Global,
    heap: &mut Heap,
    keeps: bool,
    method: NativeMethod,
    object: ObjId,
    values: Stack<Value>,
) -> Result<Reply, Refusal>
    ensures { Gives result heap.new (call_native keeps method object values heap.old) }
{
    match method {
        NativeMethod::AddEventListener => add_listener(heap, object, values),
        NativeMethod::RemoveEventListener => remove_listener(heap, object, values),
        NativeMethod::HasEventListener => has_listener(heap, object, values),
        _ => call_by_count(alloc, heap, keeps, method, object, values),
    }
}

/// A method of the catalog is called on a receiver, with its arguments, the first on top. `keeps`
/// says whether its answer goes onto the stack of the code that called, where it comes later.
pub fn call_catalog(
    alloc: Global,
    program: &Program,
    heap: &mut Heap,
    keeps: bool,
    receiver: &Operand,
    method: NativeMethod,
    arguments: Stack<Operand>,
) -> Result<Reply, Refusal>
    ensures { Gives result heap.new
        (call_catalog program.now keeps receiver.now method arguments heap.old) }
{
    let object = object_number(receiver)?;
    let Some(entity) = heap.stage.objects.get(object) else {
        return Err(Refusal::from(MachineFault::NotHere));
    };
    if !has_method(program, method, entity) {
        return Err(Refusal::from(MachineFault::WrongKind));
    }
    let values = native_arguments(alloc, program, heap, method.parameters(), arguments)?;
    call_native(alloc, heap, keeps, method, object, values)
}

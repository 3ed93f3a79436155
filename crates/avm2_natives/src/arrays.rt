// Elements are put behind those of arrays, and taken from there.

ghost use Rattle.std.specs.Prelude.{◌≡◌};
ghost use Rattle.avm2_meaning.specs.Arrays.{array_at, pop, pop_last, pop_one, push, push_one};
ghost use Rattle.avm2_meaning.specs.Results.{Goes};
ghost use Rattle.avm2_values.specs.Answers.{Gives, Leaves};

use avm2_meaning::{Heap, Operand, Reply, Stack};
use avm2_values::{Refusal, object_number, plain};
use flex_base::{MachineFault, ObjId, Value};

// Whether the object of a number is an array: anything else is of the wrong kind.
fn expect_array(heap: &Heap, array: ObjId) -> Result<(), Refusal>
    ensures { Leaves result tt heap.now (array_at array heap.now) }
{
    match heap.stage.objects.get(array) {
        Some(entity) if entity.is_array() => Ok(()),
        Some(_) => Err(Refusal::from(MachineFault::WrongKind)),
        None => Err(Refusal::from(MachineFault::NotHere)),
    }
}

// One element is put behind the others of an array.
fn push_one(heap: &mut Heap, array: ObjId, mut arguments: Stack<Operand>) -> Result<Reply, Refusal>
    ensures { Gives result heap.new (push_one array arguments heap.old) }
{
    let (Some(operand), None) = (arguments.pop(), arguments.pop()) else {
        return Err(Refusal::from(MachineFault::WrongCount));
    };
    let value = plain(operand)?;
    let length = heap.stage.push(array, value)?;
    Ok(Reply::gives(Value::Int(length)))
}

// The last element of an array is taken.
fn pop_last(heap: &mut Heap, array: ObjId) -> Reply
    ensures { pop_last array heap.old ≡ Goes result heap.new }
{
    let value = heap.stage.objects.pop(array);
    Reply::gives(value)
}

/// An element is put behind the others of an array, and the new length is given.
pub fn push(
    heap: &mut Heap,
    receiver: &Operand,
    arguments: Stack<Operand>,
) -> Result<Reply, Refusal>
    ensures { Gives result heap.new (push receiver.now arguments heap.old) }
{
    let array = object_number(receiver)?;
    expect_array(heap, array)?;
    push_one(heap, array, arguments)
}

/// The last element of an array is taken, and given.
pub fn pop(heap: &mut Heap, receiver: &Operand, arguments: Stack<Operand>) -> Result<Reply, Refusal>
    ensures { Gives result heap.new (pop receiver.now arguments heap.old) }
{
    let array = object_number(receiver)?;
    expect_array(heap, array)?;
    if !arguments.is_empty() {
        return Err(Refusal::from(MachineFault::WrongCount));
    }
    Ok(pop_last(heap, array))
}

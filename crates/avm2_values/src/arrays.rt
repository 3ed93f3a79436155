// The elements of arrays.

ghost use Rattle.std.specs.Option.{option_copied};
ghost use Rattle.std.specs.Prelude.{◌≡◌};
ghost use Rattle.ui_runtime.specs.Arrays.{element};
ghost use Rattle.avm2_meaning.specs.Arrays.{array_at, element_of, holder_of, index_of, pop_last, push_one, write_element};
ghost use Rattle.avm2_meaning.specs.Conversions.{object_number};
ghost use Rattle.avm2_meaning.specs.declared.heap.Heap.{Heap};
ghost use Rattle.avm2_values.specs.Answers.{Gives, Leaves};

use crate::operators::plain;
use crate::refusal::Refusal;
use avm2_meaning::{Heap, Operand};
use flex_base::{MachineFault, ObjId, Stop, Value};

/// The object that an operand is.
pub fn object_number(operand: &Operand) -> Result<ObjId, Refusal>
    ensures { (h : Heap) → Gives result h (object_number operand.now h) }
{
    match operand {
        Operand::Plain(Value::Ref(object)) => Ok(*object),
        _ => Err(Refusal::from(MachineFault::WrongKind)),
    }
}

// Whether the object of a number is an array: anything else is of the wrong kind.
fn expect_array(heap: &Heap, array: ObjId) -> Result<(), Refusal>
    ensures { Leaves result tt heap.now (array_at array heap.now) }
{
    match heap.stage.objects.get(array) {
        Some(entity) if entity.is_array() => Ok(()),
        Some(_) => Err(Refusal::from(MachineFault::WrongKind)),
        None => Err(Refusal::from(MachineFault::NotHere)),
    }
}

// The whole number that an operand is.
fn index_of(operand: &Operand) -> Result<i32, Refusal>
    ensures { (h : Heap) → Gives result h (index_of operand.now h) }
{
    match operand {
        Operand::Plain(Value::Int(n)) => Ok(*n),
        _ => Err(Refusal::from(MachineFault::WrongKind)),
    }
}

// The object whose element is meant.
fn holder_of(operand: &Operand) -> Result<ObjId, Refusal>
    ensures { (h : Heap) → Gives result h (holder_of operand.now h) }
{
    match operand {
        Operand::Plain(Value::Undefined | Value::Null) => {
            Err(Refusal::from(Stop::NullReference))
        }
        Operand::Plain(Value::Ref(object)) => Ok(*object),
        _ => Err(Refusal::from(MachineFault::WrongKind)),
    }
}

// The element of an array at an index, if it has one there.
fn element(heap: &Heap, array: ObjId, index: i32) -> Option<&Value>
    ensures { option_copied result ≡ element array index heap.now.stage }
{
    heap.stage.objects.get(array)?.elements.get(index)
}

/// The element of an array at an index: Undefined where it is out of range.
pub fn element_of(heap: &Heap, holder: &Operand, index: &Operand) -> Result<Operand, Refusal>
    ensures { Gives result heap.now (element_of holder.now index.now heap.now) }
{
    let array = holder_of(holder)?;
    expect_array(heap, array)?;
    let index = index_of(index)?;
    match element(heap, array, index) {
        Some(value) => Ok(Operand::Plain(value.clone()?)),
        None => Ok(Operand::Plain(Value::Undefined)),
    }
}

/// Writes the element of an array at an index; at the length it appends.
pub fn write_element(
    heap: &mut Heap,
    holder: &Operand,
    index: &Operand,
    operand: Operand,
) -> Result<(), Refusal>
    ensures { Leaves result tt heap.new (write_element holder.now index.now operand heap.old) }
{
    let array = holder_of(holder)?;
    expect_array(heap, array)?;
    let index = index_of(index)?;
    let value = plain(operand)?;
    heap.stage.set_element(array, index, value)?;
    Ok(())
}

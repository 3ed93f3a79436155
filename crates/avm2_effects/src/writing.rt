// Writing what a name is at a value.

ghost use Rattle.std.specs.Prelude.{◌≡◌, IfOk, option_map};
ghost use Rattle.avm2_effects.specs.Writes.{item_at, store_at, write_as, write_target};
ghost use Rattle.avm2_meaning.specs.Operands.{ref};
ghost use Rattle.avm2_meaning.specs.Properties.{into_slot, store, write, write_hidden, write_own_slot, write_property};
ghost use Rattle.avm2_meaning.specs.declared.heap.Heap.{Heap};
ghost use Rattle.avm2_values.specs.Answers.{Gives};

use crate::own_slots::{set_own_slot, write_class};
use crate::starting::stored_as;
use crate::states::request;
use crate::targets::{Target, hidden_type, kept_target, target_at};
use avm2_meaning::{Effect, Heap, Next, Operand};
use avm2_program::{Member, Program};
use avm2_values::{Refusal, convert, plain};
use flex_base::{MachineFault, NoMemory, ObjId, Text, TraceItem, Value};
use flex_world::StaticType;
use std::alloc::Global;

/// Writes a property that an object keeps, hidden or not, with the record of that if it makes one.
/// A value that equals the old one by `===` changes nothing.
pub fn store(
    alloc: Global,
    heap: &mut Heap,
    object: ObjId,
    key: &Text,
    value: Value,
    item: Option<TraceItem>,
) -> Result<Effect, Refusal>
    ensures { Gives result heap.new (store object key.now value item heap.old) }
{
    let written = heap.stage.write(alloc, object, key, value)?;
    Ok(stored_as(alloc, written, item)?)
}

// A value for a slot, converted into its type.
fn into_slot(
    alloc: Global,
    program: &Program,
    heap: &Heap,
    kind: StaticType,
    operand: Operand,
) -> Result<Value, Refusal>
    ensures { Gives result heap.now (into_slot program.now kind operand heap.now) }
{
    plain(convert(alloc, program, heap, kind, operand)?)
}

// The record of a write, where it makes one.
fn item_at(object: ObjId, value: &Value, text: Option<Text>) -> Result<Option<TraceItem>, NoMemory>
    ensures { IfOk result (λ item. item ≡ item_at object value.now text) }
{
    let Some(property) = text else {
        return Ok(None);
    };
    let value = value.clone()?;
    Ok(Some(TraceItem::Written {
        object,
        property,
        value,
    }))
}

/// Writes a value to a property of an object that isn't converted, with the record of that if it
/// makes one; such a property has to be there.
#[tactic(auto, using(crate::proofs::Stored::by_target))]
pub fn store_at(
    alloc: Global,
    heap: &mut Heap,
    object: ObjId,
    key: &Text,
    value: Value,
) -> Result<Effect, Refusal>
    ensures { Gives result heap.new (store_at object key.now value heap.old) }
{
    let target = kept_target(heap, object, key)?;
    let item = item_at(object, &value, target.text)?;
    store(alloc, heap, object, key, value, item)
}

// Writes a value to a property, or asks for the state that it names.
fn write_as(
    alloc: Global,
    heap: &mut Heap,
    object: ObjId,
    key: &Text,
    target: Target,
    value: Value,
) -> Result<Effect, Refusal>
    ensures { Gives result heap.new (write_as object key.now target value heap.old) }
{
    if target.is_state {
        return request(alloc, heap, object, value);
    }
    let item = item_at(object, &value, target.text)?;
    store(alloc, heap, object, key, value, item)
}

// Converts a value, and writes it to a property.
fn write_target(
    alloc: Global,
    program: &Program,
    heap: &mut Heap,
    object: ObjId,
    key: &Text,
    target: Target,
    operand: Operand,
) -> Result<Effect, Refusal>
    ensures { Gives result heap.new
        (write_target program.now object key.now target operand heap.old) }
{
    if target.read_only {
        return Err(Refusal::from(MachineFault::WrongKind));
    }
    let value = into_slot(alloc, program, heap, target.kind, operand)?;
    write_as(alloc, heap, object, key, target, value)
}

// Writes the property of a key of an object.
#[tactic(auto, using(crate::proofs::Told::by_target))]
fn write_kept(
    alloc: Global,
    program: &Program,
    heap: &mut Heap,
    object: ObjId,
    key: &Text,
    operand: Operand,
) -> Result<Effect, Refusal>
    ensures { Gives result heap.new
        (write_property program.now (ref object) key.now operand heap.old) }
{
    let target = target_at(heap, object, key)?;
    write_target(alloc, program, heap, object, key, target, operand)
}

// Writes the property of a key of what an operand is.
fn write_property(
    alloc: Global,
    program: &Program,
    heap: &mut Heap,
    holder: &Operand,
    key: &Text,
    operand: Operand,
) -> Result<Effect, Refusal>
    ensures { Gives result heap.new
        (write_property program.now holder.now key.now operand heap.old) }
{
    match holder {
        Operand::Plain(Value::Ref(object)) => {
            write_kept(alloc, program, heap, *object, key, operand)
        }
        _ => Err(Refusal::from(MachineFault::NotHere)),
    }
}

// Writes the hidden property of a key, which makes no record.
#[tactic(auto, using(crate::proofs::Told::by_hidden_type))]
fn write_hidden(
    alloc: Global,
    program: &Program,
    heap: &mut Heap,
    holder: &Operand,
    key: &Text,
    operand: Operand,
) -> Result<Effect, Refusal>
    ensures { Gives result heap.new
        (write_hidden program.now holder.now key.now operand heap.old) }
{
    let Operand::Plain(Value::Ref(object)) = holder else {
        return Err(Refusal::from(MachineFault::NotHere));
    };
    let kind = hidden_type(heap, *object, key)?;
    let value = into_slot(alloc, program, heap, kind, operand)?;
    store(alloc, heap, *object, key, value, None)
}

// Writes a slot of a class or a script, which makes no record.
fn write_own_slot(
    alloc: Global,
    program: &Program,
    heap: &mut Heap,
    holder: &Operand,
    number: u32,
    kind: StaticType,
    operand: Operand,
) -> Result<Effect, Refusal>
    ensures { Gives result heap.new
        (write_own_slot program.now holder.now number kind operand heap.old) }
{
    let value = into_slot(alloc, program, heap, kind, operand)?;
    set_own_slot(heap, holder, number, value);
    Ok(Effect::silent(Next::On))
}

/// Writes what a name is at a value.
pub fn write(
    alloc: Global,
    program: &Program,
    heap: &mut Heap,
    holder: &Operand,
    member: &Member,
    operand: Operand,
) -> Result<Effect, Refusal>
    ensures { Gives result heap.new
        (write program.now holder.now member.now operand heap.old) }
{
    match member {
        Member::Slot(key) => write_property(alloc, program, heap, holder, key, operand),
        Member::HiddenSlot(key) => write_hidden(alloc, program, heap, holder, key, operand),
        Member::OwnSlot(number, kind) => {
            write_own_slot(alloc, program, heap, holder, *number, *kind, operand)
        }
        Member::ClassTrait(place, class) => write_class(heap, holder, *place, *class, &operand),
        Member::Unplayed => Err(Refusal::from(MachineFault::NotHere)),
        _ => Err(Refusal::from(MachineFault::WrongKind)),
    }
}

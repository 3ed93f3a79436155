// Reading what a name is at a value.

ghost use Rattle.std.specs.Option.{option_copied};
ghost use Rattle.std.specs.Prelude.{◌≡◌, ◌≤◌, length, option_and_then, slice_get};
ghost use Rattle.ui_runtime.specs.Properties.{reads};
ghost use Rattle.avm2_meaning.specs.Heap.{has_place, is_written_in, same_place, statics_of};
ghost use Rattle.avm2_meaning.specs.Properties.{class_at, is_written_at, length_of_array, length_of_text, read, read_own_slot, read_property, take_method};
ghost use Rattle.avm2_meaning.specs.declared.heap.Heap.{Heap};
ghost use Rattle.avm2_meaning.specs.declared.heap.Statics.{Statics};
ghost use Rattle.avm2_values.specs.Answers.{Gives};

use crate::holders::statics_of;
use crate::refusal::Refusal;
use avm2_meaning::{Heap, ObjectPlace, Operand, Stack};
use avm2_program::{Member, TraitPlace};
use flex_base::{MachineFault, NoMemory, ObjId, Text, Value, length_of};
use flex_world::{Class, StaticType};

// Whether two places are the same.
fn is_same_place(one: TraitPlace, other: TraitPlace) -> bool
    ensures { result ≡ same_place one other }
{
    one.holder == other.holder && one.number == other.number
}

// Whether one of some places is that of an object.
fn is_among(places: &[ObjectPlace], object: ObjId, place: TraitPlace) -> bool
    ensures { result ≡ is_written_in object place places.now }
{
    places.iter().any(|written| written.object.0 == object.0 && is_same_place(written.place, place))
}

// Whether a place for a class in an object was written.
#[tactic(auto, using(crate::proofs::Reversed::any_reversed))]
fn is_written_in(heap: &Heap, object: ObjId, place: TraitPlace) -> bool
    ensures { result ≡ is_written_in object place heap.now.written }
{
    is_among(heap.written.bottom_up(), object, place)
}

// Whether a place is among some.
fn is_one_of(places: &[TraitPlace], place: TraitPlace) -> bool
    ensures { result ≡ has_place place places.now }
{
    places.iter().any(|written| is_same_place(place, *written))
}

// Whether a place for a class is among those that a class or a script has written.
#[tactic(auto, using(crate::proofs::Reversed::any_reversed))]
fn has_place(places: &Stack<TraitPlace>, place: TraitPlace) -> bool
    ensures { result ≡ has_place place places.now }
{
    is_one_of(places.bottom_up(), place)
}

// Whether a place for a class was written at a value.
fn is_written_at(heap: &Heap, holder: &Operand, place: TraitPlace) -> bool
    ensures { result ≡ is_written_at holder.now place heap.now }
{
    match holder {
        Operand::Plain(Value::Ref(object)) => is_written_in(heap, *object, place),
        _ => match statics_of(heap, holder) {
            Some(statics) => has_place(&statics.written, place),
            None => false,
        },
    }
}

// The value of the property of a key of an object.
fn property_value<'h>(heap: &'h Heap, object: ObjId, key: &Text) -> Option<&'h Value>
    ensures { option_copied result ≡ reads object key.now heap.now.stage }
{
    heap.stage.objects.get(object)?.value(key.as_str())
}

// Reads a property that an object keeps.
fn read_property(heap: &Heap, holder: &Operand, key: &Text) -> Result<Operand, Refusal>
    ensures { Gives result heap.now (read_property key.now holder.now heap.now) }
{
    let Operand::Plain(Value::Ref(object)) = holder else {
        return Err(Refusal::from(MachineFault::NotHere));
    };
    match property_value(heap, *object, key) {
        Some(value) => Ok(Operand::Plain(value.clone()?)),
        None => Err(Refusal::from(MachineFault::NotHere)),
    }
}

// The value in the slot of a class or a script.
fn own_slot<'h>(heap: &'h Heap, holder: &Operand, number: u32) -> Option<&'h Value>
    ensures { option_copied result ≡
        option_and_then (λ (s : Statics). slice_get s.slots number) (statics_of holder.now heap.now) }
{
    statics_of(heap, holder)?.slots.get(number as usize)
}

// Reads a slot of a class or a script.
fn read_own_slot(heap: &Heap, holder: &Operand, number: u32) -> Result<Operand, Refusal>
    ensures { Gives result heap.now (read_own_slot number holder.now heap.now) }
{
    match own_slot(heap, holder, number) {
        Some(value) => Ok(Operand::Plain(value.clone()?)),
        None => Err(Refusal::from(MachineFault::NotHere)),
    }
}

// A method that is read as a property of an object.
fn take_method(holder: &Operand, method: u32) -> Result<Operand, Refusal>
    ensures { (h : Heap) → Gives result h (take_method method holder.now h) }
{
    match holder {
        Operand::Plain(Value::Ref(object)) => Ok(Operand::Plain(Value::Listener(*object, method))),
        _ => Err(Refusal::from(MachineFault::WrongKind)),
    }
}

// The number of elements of an array.
fn length_of_array(heap: &Heap, holder: &Operand) -> Result<Operand, Refusal>
    ensures { Gives result heap.now (length_of_array holder.now heap.now) }
{
    let Operand::Plain(Value::Ref(object)) = holder else {
        return Err(Refusal::from(MachineFault::NotHere));
    };
    match heap.stage.objects.get(*object) {
        Some(entity) => Ok(Operand::Plain(Value::Int(entity.elements.len()))),
        None => Err(Refusal::from(MachineFault::NotHere)),
    }
}

// The length of a text. One that no `int` can count wants memory.
fn length_of_text(holder: &Operand) -> Result<Operand, Refusal>
    ensures { (h : Heap) → Gives result h (length_of_text holder.now h) }
{
    let Operand::Plain(Value::Text(text)) = holder else {
        return Err(Refusal::from(MachineFault::NotHere));
    };
    if text.as_str().len() > MOST_COUNTED {
        return Err(Refusal::from(NoMemory));
    }
    Ok(Operand::Plain(Value::Int(length_of(text))))
}

// The greatest number of bytes whose characters are counted.
const MOST_COUNTED: usize = 2147483647;

// What a place for a class holds: null before it is written.
fn class_at(class: u32, is_written: bool) -> Operand
    ensures { result ≡ class_at class is_written }
{
    if is_written {
        Operand::ClassValue(StaticType::Object(Class::File(class)))
    } else {
        Operand::Plain(Value::Null)
    }
}

/// Reads what a name is at a value.
pub fn read(heap: &Heap, holder: &Operand, member: &Member) -> Result<Operand, Refusal>
    ensures { Gives result heap.now (read holder.now member.now heap.now) }
{
    match member {
        Member::Slot(key) | Member::HiddenSlot(key) => read_property(heap, holder, key),
        Member::OwnSlot(number, _) => read_own_slot(heap, holder, *number),
        Member::ClassTrait(place, class) => {
            Ok(class_at(*class, is_written_at(heap, holder, *place)))
        }
        Member::Written(method) => take_method(holder, *method),
        Member::Unplayed => Err(Refusal::from(MachineFault::NotHere)),
        Member::ArrayLength => length_of_array(heap, holder),
        Member::TextLength => length_of_text(holder),
        Member::ClassOf(kind) => Ok(Operand::ClassValue(*kind)),
        Member::Catalog(_) | Member::Runtime(_) | Member::Push | Member::Pop | Member::Trace => Err(
            Refusal::from(MachineFault::WrongKind),
        ),
    }
}

// What classes and scripts keep for their own traits, and places for classes.

ghost use Rattle.std.specs.Prelude.{◌≡◌, OnOk, option_map};
ghost use Rattle.avm2_effects.specs.Slots.{with_place, with_slot};
ghost use Rattle.avm2_meaning.specs.Heap.{change_class, change_script, change_statics};
ghost use Rattle.avm2_meaning.specs.Operands.{is_class, same_type};
ghost use Rattle.avm2_meaning.specs.Properties.{mark_written, set_own_slot, write_class};
ghost use Rattle.avm2_values.specs.Answers.{Gives};

use avm2_meaning::{Effect, Heap, MadeClass, Next, ObjectPlace, Operand, Statics};
use avm2_program::TraitPlace;
use avm2_values::Refusal;
use flex_base::{MachineFault, NoMemory, Value};
use flex_world::{Class, StaticType, is_same_class};

// Whether two types are one class.
fn is_same_type(one: StaticType, other: StaticType) -> bool
    ensures { result ≡ same_type one other }
{
    match (one, other) {
        (StaticType::Int, StaticType::Int)
        | (StaticType::Boolean, StaticType::Boolean)
        | (StaticType::String, StaticType::String)
        | (StaticType::Array, StaticType::Array) => true,
        (StaticType::Object(one), StaticType::Object(other)) => is_same_class(one, other),
        _ => false,
    }
}

/// Whether an operand is the value of a class.
pub fn is_class(kind: StaticType, operand: &Operand) -> bool
    ensures { result ≡ is_class kind operand.now }
{
    match operand {
        Operand::ClassValue(other) => is_same_type(kind, *other),
        _ => false,
    }
}

// Writes the slot of a number; where there is none, nothing changes.
#[tactic(auto, using(crate::proofs::Slots::set_changed, crate::proofs::Slots::unchanged))]
fn set_slot(statics: &mut Statics, number: u32, value: Value)
    ensures { statics.new ≡ with_slot number value statics.old }
{
    if let Some(slot) = statics.slots.get_mut(number as usize) {
        *slot = value;
    }
}

// Marks a place for a class as written.
fn mark(statics: &mut Statics, place: TraitPlace) -> Result<(), NoMemory>
    ensures { OnOk result (statics.new ≡ with_place place statics.old) }
{
    statics.written.push(place)
}

// Writes a slot of a class, if it was made.
fn set_made_slot(made: &mut Option<MadeClass>, number: u32, value: Value)
    ensures { made.new ≡ option_map (change_statics (with_slot number value)) made.old }
{
    if let Some(made) = made {
        set_slot(&mut made.statics, number, value);
    }
}

// Writes a slot of the class of a number.
#[tactic(auto, using(crate::proofs::Slots::set_applied, crate::proofs::Slots::unchanged))]
fn set_class_slot(heap: &mut Heap, class: u32, number: u32, value: Value)
    ensures { heap.new ≡ change_class class (with_slot number value) heap.old }
{
    if let Some(made) = heap.classes.get_mut(class as usize) {
        set_made_slot(made, number, value);
    }
}

// Writes a slot of a script.
#[tactic(auto, using(crate::proofs::Slots::set_applied, crate::proofs::Slots::unchanged))]
fn set_script_slot(heap: &mut Heap, script: u32, number: u32, value: Value)
    ensures { heap.new ≡ change_script script (with_slot number value) heap.old }
{
    if let Some(statics) = heap.scripts.get_mut(script as usize) {
        set_slot(statics, number, value);
    }
}

/// Writes a slot of a class or a script; where there is none, nothing changes.
pub fn set_own_slot(heap: &mut Heap, holder: &Operand, number: u32, value: Value)
    ensures { heap.new ≡ set_own_slot holder.now number value heap.old }
{
    match holder {
        Operand::ClassValue(StaticType::Object(Class::File(class))) => {
            set_class_slot(heap, *class, number, value);
        }
        Operand::ScriptValue(script) => set_script_slot(heap, *script, number, value),
        _ => {}
    }
}

// Marks a place for a class as written, of a class, if it was made.
fn mark_made(made: &mut Option<MadeClass>, place: TraitPlace) -> Result<(), NoMemory>
    ensures { OnOk result (made.new ≡ option_map (change_statics (with_place place)) made.old) }
{
    match made {
        Some(made) => mark(&mut made.statics, place),
        None => Ok(()),
    }
}

// Marks a place for a class as written, of the class of a number.
#[tactic(auto, using(crate::proofs::Slots::set_applied, crate::proofs::Slots::unchanged))]
fn mark_class(heap: &mut Heap, class: u32, place: TraitPlace) -> Result<(), NoMemory>
    ensures { OnOk result (heap.new ≡ change_class class (with_place place) heap.old) }
{
    match heap.classes.get_mut(class as usize) {
        Some(made) => mark_made(made, place),
        None => Ok(()),
    }
}

// Marks a place for a class as written, of a script.
#[tactic(auto, using(crate::proofs::Slots::set_applied, crate::proofs::Slots::unchanged))]
fn mark_script(heap: &mut Heap, script: u32, place: TraitPlace) -> Result<(), NoMemory>
    ensures { OnOk result (heap.new ≡ change_script script (with_place place) heap.old) }
{
    match heap.scripts.get_mut(script as usize) {
        Some(statics) => mark(statics, place),
        None => Ok(()),
    }
}

// Marks a place for a class as written.
fn mark_written(heap: &mut Heap, holder: &Operand, place: TraitPlace) -> Result<(), NoMemory>
    ensures { OnOk result (heap.new ≡ mark_written holder.now place heap.old) }
{
    match holder {
        Operand::Plain(Value::Ref(object)) => heap.written.push(ObjectPlace {
            object: *object,
            place,
        }),
        Operand::ClassValue(StaticType::Object(Class::File(class))) => {
            mark_class(heap, *class, place)
        }
        Operand::ScriptValue(script) => mark_script(heap, *script, place),
        _ => Ok(()),
    }
}

/// Writes a place for a class, which takes that class alone.
pub fn write_class(
    heap: &mut Heap,
    holder: &Operand,
    place: TraitPlace,
    class: u32,
    operand: &Operand,
) -> Result<Effect, Refusal>
    ensures { Gives result heap.new (write_class holder.now place class operand.now heap.old) }
{
    if !is_class(StaticType::Object(Class::File(class)), operand) {
        return Err(Refusal::from(MachineFault::WrongKind));
    }
    mark_written(heap, holder, place)?;
    Ok(Effect::silent(Next::On))
}

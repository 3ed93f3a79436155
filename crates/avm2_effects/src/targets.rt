// What a write has to know of a property.

ghost use Rattle.std.specs.Prelude.{◌≡◌, IfOk, option_map};
ghost use Rattle.flex_objects.specs.Properties.{slot_field};
ghost use Rattle.avm2_effects.specs.Writes.{hidden_type, kept_target, recorded_text, target, target_of};
ghost use Rattle.flex_world.specs.Objects.{field_named, is_state_field};
ghost use Rattle.avm2_values.specs.Answers.{Gives};

use avm2_meaning::Heap;
use avm2_values::Refusal;
use flex_base::{MachineFault, NoMemory, ObjId, Text};
use flex_objects::{Properties, Slot};
use flex_world::StaticType;

// What a write has to know of a property.
#[derive(Drop)]
pub struct Target {
    /// The type of its values.
    pub kind: StaticType,
    /// Whether code can't write it.
    pub read_only: bool,
    /// Whether it is the `currentState` of the catalog.
    pub is_state: bool,
    /// Its name, where a write is recorded.
    pub text: Option<Text>,
}

// The name of a public or bindable property: its writes are recorded.
fn recorded_text(slot: &Slot) -> Result<Option<Text>, NoMemory>
    ensures { IfOk result (λ text. text ≡ recorded_text slot.now.public slot.now.bindable slot.now.text) }
{
    if slot.public || slot.bindable {
        return Ok(Some(slot.text.clone()?));
    }
    Ok(None)
}

// Whether a property is the `currentState` of the catalog.
fn is_state(key: &Text, slot: &Slot) -> bool
    ensures { result ≡ is_state_field (slot_field key.now slot.now) }
{
    key.as_str() == "currentState" && !slot.is_slot
}

// What a write has to know of the property of a key.
fn target_of(key: &Text, slot: &Slot) -> Result<Target, NoMemory>
    ensures { IfOk result (λ target. target ≡ target_of (slot_field key.now slot.now)) }
{
    Ok(Target {
        kind: slot.kind,
        read_only: slot.read_only,
        is_state: is_state(key, slot),
        text: recorded_text(slot)?,
    })
}

// The same of the property of a key among those of an object.
#[tactic(auto, using(crate::proofs::Told::target_told, crate::proofs::Told::no_target))]
fn target_in(properties: &Properties, key: &Text) -> Result<Option<Target>, NoMemory>
    ensures { IfOk result (λ found. found ≡ option_map target_of (field_named key.now properties.now)) }
{
    match properties.slot(key.as_str()) {
        Some(slot) => Ok(Some(target_of(key, slot)?)),
        None => Ok(None),
    }
}

// What a write has to know of the property of a key of an object; what isn't kept can't be written.
pub fn target_at(heap: &Heap, object: ObjId, key: &Text) -> Result<Target, Refusal>
    ensures { Gives result heap.now (target object key.now heap.now) }
{
    let Some(entity) = heap.stage.objects.get(object) else {
        return Err(Refusal::from(MachineFault::NotHere));
    };
    match target_in(&entity.fields, key)? {
        Some(target) => Ok(target),
        None => Err(Refusal::from(MachineFault::WrongKind)),
    }
}

// The same of a property that has to be there.
pub fn kept_target(heap: &Heap, object: ObjId, key: &Text) -> Result<Target, Refusal>
    ensures { Gives result heap.now (kept_target object key.now heap.now) }
{
    let Some(entity) = heap.stage.objects.get(object) else {
        return Err(Refusal::from(MachineFault::NotHere));
    };
    match target_in(&entity.fields, key)? {
        Some(target) => Ok(target),
        None => Err(Refusal::from(MachineFault::NotHere)),
    }
}

// The type of a hidden property of an object.
pub fn hidden_type(heap: &Heap, object: ObjId, key: &Text) -> Result<StaticType, Refusal>
    ensures { Gives result heap.now (hidden_type object key.now heap.now) }
{
    let Some(entity) = heap.stage.objects.get(object) else {
        return Err(Refusal::from(MachineFault::NotHere));
    };
    match target_in(&entity.hidden, key)? {
        Some(target) => Ok(target.kind),
        None => Err(Refusal::from(MachineFault::NotHere)),
    }
}

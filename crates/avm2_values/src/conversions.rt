// Conversions into the types of places, and the arguments of calls.

ghost use Rattle.std.specs.Prelude.{◌≡◌, Some, option_map};
ghost use Rattle.flex_base.specs.Value.{Computes};
ghost use Rattle.flex_world.specs.Conversions.{into_object, is_of_type};
ghost use Rattle.ui_runtime.specs.Stage.{objects};
ghost use Rattle.avm2_meaning.specs.Conversions.{call_class, convert, convert_all, convert_plain, convert_value};
ghost use Rattle.avm2_meaning.specs.declared.heap.Heap.{Heap};
ghost use Rattle.avm2_values.specs.Answers.{Gives, Leaves};
ghost use Rattle.avm2_values.specs.Conversions.{convert_into_object, convert_object};

use crate::operators::plain;
use crate::refusal::Refusal;
use avm2_meaning::{Heap, Operand, Stack};
use avm2_program::Program;
use flex_base::{MachineFault, ObjId, Sequence, Stop, Value, coerce_text, to_bool, to_int};
use flex_objects::Entity;
use flex_world::{StaticType, descends};
use std::alloc::Global;

// Whether an object goes into a variable of a type.
fn is_of_type(program: &Program, kind: StaticType, entity: &Entity) -> bool
    ensures { result ≡ is_of_type program.now.bases kind entity.now.object.kind }
{
    match (kind, entity.class()) {
        (StaticType::Array, None) => true,
        (StaticType::Object(ancestor), Some(class)) => {
            descends(program.bases.as_slice(), class, ancestor)
        }
        _ => false,
    }
}

// An object into a variable of a type.
#[tactic(auto, using(crate::proofs::Objects::object_entry))]
fn object_into(
    program: &Program,
    heap: &Heap,
    kind: StaticType,
    object: ObjId,
) -> Result<Value, Refusal>
    ensures { Gives result heap.now (convert_object program.now kind object heap.now) }
{
    match heap.stage.objects.get(object) {
        Some(entity) if is_of_type(program, kind, entity) => Ok(Value::Ref(object)),
        Some(_) => Err(Refusal::from(Stop::Kind)),
        None => Err(Refusal::from(MachineFault::NotHere)),
    }
}

/// A value into a variable of a type.
pub fn convert_value(
    alloc: Global,
    program: &Program,
    heap: &Heap,
    kind: StaticType,
    value: Value,
) -> Result<Value, Refusal>
    ensures { Gives result heap.now (convert_value program.now kind value heap.now) }
{
    match kind {
        StaticType::Int => Ok(Value::Int(to_int(&value)?)),
        StaticType::Boolean => Ok(Value::Bool(to_bool(&value))),
        StaticType::String => Ok(coerce_text(alloc, &value)?),
        StaticType::Any => Ok(value),
        StaticType::Unnamed => Err(Refusal::from(MachineFault::NoName)),
        StaticType::Array | StaticType::Object(_) => { into_object(program, heap, kind, &value) }
    }
}

// A value into a variable of a type whose values are objects.
fn into_object(
    program: &Program,
    heap: &Heap,
    kind: StaticType,
    value: &Value,
) -> Result<Value, Refusal>
    ensures { Gives result heap.now (convert_into_object program.now kind value.now heap.now) }
{
    match value {
        Value::Ref(object) => object_into(program, heap, kind, *object),
        Value::Undefined | Value::Null => Ok(Value::Null),
        _ => Err(Refusal::from(Stop::Kind)),
    }
}

/// Whatever a stack holds into a variable of a type. No type converts nothing.
pub fn convert(
    alloc: Global,
    program: &Program,
    heap: &Heap,
    kind: StaticType,
    operand: Operand,
) -> Result<Operand, Refusal>
    ensures { Gives result heap.now (convert program.now kind operand heap.now) }
{
    match kind {
        StaticType::Any => Ok(operand),
        StaticType::Unnamed => Err(Refusal::from(MachineFault::NoName)),
        _ => {
            let value = plain(operand)?;
            let value = convert_value(alloc, program, heap, kind, value)?;
            Ok(Operand::Plain(value))
        }
    }
}

/// Operands into the types of as many places, from the first on.
pub fn convert_all(
    alloc: Global,
    program: &Program,
    heap: &Heap,
    kinds: &[StaticType],
    mut operands: Stack<Operand>,
) -> Result<Sequence<Operand>, Refusal>
    ensures { Gives result heap.now (convert_all program.now kinds.now operands heap.now) }
{
    let mut converted = Sequence::new(alloc);
    let mut rest = kinds;
    while let Some((kind, others)) = rest.split_first() {
        let Some(operand) = operands.pop() else {
            return Ok(converted);
        };
        converted.push(convert(alloc, program, heap, *kind, operand)?)?;
        rest = others;
    }
    Ok(converted)
}

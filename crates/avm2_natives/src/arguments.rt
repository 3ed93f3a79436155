// Arguments of the kind that is wanted.

ghost use Rattle.std.specs.Prelude.{◌≡◌};
ghost use Rattle.avm2_meaning.specs.Natives.{object_given, type_given};
ghost use Rattle.avm2_meaning.specs.declared.heap.Heap.{Heap};
ghost use Rattle.avm2_values.specs.Answers.{Gives};

use avm2_values::Refusal;
use flex_base::{MachineFault, ObjId, Stop, Text, Value};

// The type of an event that is given.
pub fn type_given(value: &Value) -> Result<Text, Refusal>
    ensures { (h : Heap) → Gives result h (type_given value.now h) }
{
    match value {
        Value::Text(kind) => Ok(kind.clone()?),
        Value::Null => Err(Refusal::from(Stop::NullReference)),
        _ => Err(Refusal::from(MachineFault::NotHere)),
    }
}

// The object that is given.
pub fn object_given(value: &Value) -> Result<ObjId, Refusal>
    ensures { (h : Heap) → Gives result h (object_given value.now h) }
{
    match value {
        Value::Ref(object) => Ok(*object),
        Value::Null => Err(Refusal::from(Stop::NullReference)),
        _ => Err(Refusal::from(MachineFault::NotHere)),
    }
}

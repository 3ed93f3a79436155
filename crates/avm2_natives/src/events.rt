// What an event is given when code makes it.

ghost use Rattle.std.specs.Prelude.{◌≡◌};
ghost use Rattle.avm2_meaning.specs.Making.{begin_event};
ghost use Rattle.avm2_meaning.specs.Results.{Goes};

use avm2_meaning::{Heap, Stack};
use flex_base::{ObjId, Value};

/// The type of a new event, and whether it bubbles and can be cancelled, by the arguments of its
/// constructor, the first on top. An object that isn't made with these stays as it is.
pub fn begin_event(heap: &mut Heap, event: ObjId, mut values: Stack<Value>)
    ensures { begin_event event values heap.old ≡ Goes tt heap.new }
{
    let Some(Value::Text(kind)) = values.pop() else {
        return;
    };
    let Some(Value::Bool(bubbles)) = values.pop() else {
        return;
    };
    let (Some(Value::Bool(cancelable)), None) = (values.pop(), values.pop()) else {
        return;
    };
    heap.stage
        .objects
        .init_event(event, kind, bubbles, cancelable);
}

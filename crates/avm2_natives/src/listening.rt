// The listeners of nodes.

ghost use Rattle.std.specs.Prelude.{◌≡◌};
ghost use Rattle.avm2_meaning.specs.Natives.{add_listener, has_listener, remove_listener};
ghost use Rattle.avm2_values.specs.Answers.{Gives};

use crate::arguments::type_given;
use avm2_meaning::{Heap, Reply, Stack};
use avm2_values::Refusal;
use flex_base::{MachineFault, ObjId, Value};

// `addEventListener`: a listener is registered at a node.
pub fn add_listener(
    heap: &mut Heap,
    node: ObjId,
    mut values: Stack<Value>,
) -> Result<Reply, Refusal>
    ensures { Gives result heap.new (add_listener node values heap.old) }
{
    let Some(kind) = values.pop() else {
        return Err(Refusal::from(MachineFault::NotHere));
    };
    let Some(Value::Listener(object, method)) = values.pop() else {
        return Err(Refusal::from(MachineFault::NotHere));
    };
    let Some(Value::Bool(capture)) = values.pop() else {
        return Err(Refusal::from(MachineFault::NotHere));
    };
    let (Some(Value::Int(priority)), None) = (values.pop(), values.pop()) else {
        return Err(Refusal::from(MachineFault::NotHere));
    };
    let kind = type_given(&kind)?;
    heap.stage
        .objects
        .listen(node, &kind, (object, method), capture, priority)?;
    Ok(Reply::gives_nothing())
}

// `removeEventListener`: a listener of a node is removed.
pub fn remove_listener(
    heap: &mut Heap,
    node: ObjId,
    mut values: Stack<Value>,
) -> Result<Reply, Refusal>
    ensures { Gives result heap.new (remove_listener node values heap.old) }
{
    let Some(kind) = values.pop() else {
        return Err(Refusal::from(MachineFault::NotHere));
    };
    let Some(Value::Listener(object, method)) = values.pop() else {
        return Err(Refusal::from(MachineFault::NotHere));
    };
    let (Some(Value::Bool(capture)), None) = (values.pop(), values.pop()) else {
        return Err(Refusal::from(MachineFault::NotHere));
    };
    let kind = type_given(&kind)?;
    heap.stage
        .objects
        .unlisten(node, &kind, (object, method), capture);
    Ok(Reply::gives_nothing())
}

// `hasEventListener`: whether a node has a listener for events of a type.
pub fn has_listener(heap: &Heap, node: ObjId, mut values: Stack<Value>) -> Result<Reply, Refusal>
    ensures { Gives result heap.now (has_listener node values heap.now) }
{
    let (Some(kind), None) = (values.pop(), values.pop()) else {
        return Err(Refusal::from(MachineFault::NotHere));
    };
    let kind = type_given(&kind)?;
    match heap.stage.objects.get(node) {
        Some(entity) => Ok(Reply::gives(Value::Bool(entity.listeners.has(&kind)))),
        None => Err(Refusal::from(MachineFault::NotHere)),
    }
}

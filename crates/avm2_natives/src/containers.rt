// The elements of containers.

ghost use Rattle.std.specs.Prelude.{◌≡◌, IfOk};
ghost use Rattle.component_catalog.specs.declared.method.NativeMethod.TheVariants as catalog;
ghost use Rattle.ui_runtime.specs.Tree.{child};
ghost use Rattle.avm2_meaning.specs.Natives.{add_element, call_alone, give_child, is_it, remove_child, remove_element};
ghost use Rattle.avm2_meaning.specs.Results.{on};
ghost use Rattle.avm2_meaning.specs.declared.heap.Heap.{Heap};
ghost use Rattle.avm2_values.specs.Answers.{Gives};

use avm2_effects::{add, take_out};
use avm2_meaning::{Effect, Heap, Native, Reply, Stack};
use avm2_values::Refusal;
use flex_base::{MachineFault, NoMemory, ObjId, Stop, Value};
use flex_objects::Children;
use std::alloc::Global;

// A component is added to a container, and given.
pub fn add_element(heap: &mut Heap, container: ObjId, child: ObjId) -> Result<Reply, Refusal>
    ensures { Gives result heap.new (add_element container child heap.old) }
{
    let effect = add(heap, container, child, None)?;
    Ok(Reply::with_value(Value::Ref(child), effect))
}

// Whether an object is the other, where there is one.
fn is_it(object: ObjId, other: Option<ObjId>) -> bool
    ensures { result ≡ is_it object other }
{
    match other {
        Some(other) => object.0 == other.0,
        None => false,
    }
}

// A child is taken from its container, and given.
fn remove_child(heap: &mut Heap, container: ObjId, child: ObjId) -> Result<Reply, Refusal>
    ensures { Gives result heap.new (remove_child container child heap.old) }
{
    let effect = take_out(heap, child, container)?;
    Ok(Reply::with_value(Value::Ref(child), effect))
}

// A component is taken from a container, if it stands there, and given.
pub fn remove_element(heap: &mut Heap, container: ObjId, child: ObjId) -> Result<Reply, Refusal>
    ensures { Gives result heap.new (remove_element container child heap.old) }
{
    let Some(entity) = heap.stage.objects.get(child) else {
        return Err(Refusal::from(MachineFault::NotHere));
    };
    if !is_it(container, entity.parent.object()) {
        return Err(Refusal::from(Stop::NotAChild));
    }
    remove_child(heap, container, child)
}

// The child, if there is one.
fn give_child(child: Option<ObjId>) -> Result<Reply, Refusal>
    ensures { (h : Heap) → Gives result h (give_child child h) }
{
    match child {
        Some(child) => Ok(Reply::gives(Value::Ref(child))),
        None => Err(Refusal::from(Stop::ArrayIndex)),
    }
}

// The child at a place in a container.
pub fn element_at(heap: &Heap, container: ObjId, place: i32) -> Result<Reply, Refusal>
    ensures { Gives result heap.now
        (on container heap.now (λ _. give_child (child container place heap.now.stage) heap.now)) }
{
    match heap.stage.objects.get(container) {
        Some(entity) => give_child(entity.children.get(place)),
        None => Err(Refusal::from(MachineFault::NotHere)),
    }
}

// The children of a container, in order.
fn all_children(alloc: Global, children: &Children) -> Result<Stack<ObjId>, NoMemory>
    ensures { IfOk result (λ stack. stack ≡ children.now) }
{
    let mut stack = Stack::new(alloc);
    let mut left = children.len();
    while left > 0 {
        left -= 1;
        if let Some(child) = children.at(left) {
            stack.push(child)?;
        }
    }
    Ok(stack)
}

// All children are to be taken from a container.
pub fn remove_all(alloc: Global, heap: &Heap, container: ObjId) -> Result<Reply, Refusal>
    ensures { Gives result heap.now (call_alone catalog.RemoveAllElements container heap.now) }
{
    match heap.stage.objects.get(container) {
        Some(entity) => {
            let children = all_children(alloc, &entity.children)?;
            let effect = Effect::opens(Native::Empties(container, children));
            Ok(Reply::with_value(Value::Undefined, effect))
        }
        None => Err(Refusal::from(MachineFault::NotHere)),
    }
}

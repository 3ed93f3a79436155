// Events are stopped and prevented.

ghost use Rattle.std.specs.Prelude.{◌≡◌};
ghost use Rattle.flex_world.specs.Events.{delivery_stopped_at_once, prevented_delivery, stopped_delivery};
ghost use Rattle.avm2_meaning.specs.Natives.{call_alone, mark};
ghost use Rattle.avm2_meaning.specs.Results.{Goes};
ghost use Rattle.component_catalog.specs.declared.method.NativeMethod.TheVariants as catalog;
ghost use Rattle.avm2_values.specs.Answers.{Gives};

use avm2_meaning::{Heap, Reply};
use avm2_values::Refusal;
use flex_base::{MachineFault, ObjId, Value};

// `stopPropagation`: the event comes to no further node.
pub fn stop(heap: &mut Heap, event: ObjId) -> Reply
    ensures { mark event stopped_delivery heap.old ≡ Goes result heap.new }
{
    heap.stage.objects.stop_event(event);
    Reply::gives_nothing()
}

// `stopImmediatePropagation`: no further listener hears the event.
pub fn stop_now(heap: &mut Heap, event: ObjId) -> Reply
    ensures { mark event delivery_stopped_at_once heap.old ≡ Goes result heap.new }
{
    heap.stage.objects.stop_event_now(event);
    Reply::gives_nothing()
}

// `preventDefault`: the default is prevented, where the event can be cancelled.
pub fn prevent(heap: &mut Heap, event: ObjId) -> Reply
    ensures { mark event prevented_delivery heap.old ≡ Goes result heap.new }
{
    heap.stage.objects.prevent_default(event);
    Reply::gives_nothing()
}

// `isDefaultPrevented`: whether the default was prevented by now.
pub fn was_prevented(heap: &Heap, event: ObjId) -> Result<Reply, Refusal>
    ensures { Gives result heap.now (call_alone catalog.IsDefaultPrevented event heap.now) }
{
    match heap.stage.objects.get(event) {
        Some(entity) => Ok(Reply::gives(Value::Bool(entity.delivery.was_prevented()))),
        None => Err(Refusal::from(MachineFault::NotHere)),
    }
}

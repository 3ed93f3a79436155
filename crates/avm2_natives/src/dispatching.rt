// The dispatch of an event begins.

ghost use Rattle.std.specs.Option.{option_copied};
ghost use Rattle.std.specs.Prelude.{◌≡◌, codes};
ghost use Rattle.flex_world.specs.Objects.{is_true, property};
ghost use Rattle.avm2_meaning.specs.Dispatch.{begin_dispatch};
ghost use Rattle.avm2_meaning.specs.Natives.{dispatch_given};
ghost use Rattle.avm2_natives.specs.Begun.{Begins};
ghost use Rattle.avm2_values.specs.Answers.{Gives};

use crate::arguments::type_given;
use crate::paths::event_path;
use avm2_meaning::{Dispatch, Effect, Heap, Native, Next, Reply, Stack};
use avm2_values::Refusal;
use flex_base::{Arrival, MachineFault, ObjId, Phase, Stop, TraceItem, Value};
use flex_objects::Entity;
use std::alloc::Global;

// The type of an event.
#[tactic(auto, using(crate::proofs::Arrivals::type_kept))]
fn type_of(entity: &Entity) -> Option<&Value>
    ensures { option_copied result ≡ property entity.now.object (codes "type") }
{
    entity.fields.get("type")
}

// Whether an event bubbles.
#[tactic(auto, using(crate::proofs::Arrivals::bubbles_kept))]
fn bubbles(entity: &Entity) -> bool
    ensures { result ≡ is_true (property entity.now.object (codes "bubbles")) }
{
    matches!(entity.fields.get("bubbles"), Some(Value::Bool(true)))
}

/// The dispatch of an event at a target begins: what that comes to, and what remains of it.
pub fn begin_dispatch(
    alloc: Global,
    heap: &mut Heap,
    target: ObjId,
    event: ObjId,
    keeps: bool,
) -> Result<(Effect, Dispatch), Refusal>
    ensures { Begins result heap.new (begin_dispatch target event keeps heap.old) }
{
    let Some(entity) = heap.stage.objects.get(event) else {
        return Err(Refusal::from(MachineFault::NotHere));
    };
    let Some(Value::Text(kind)) = type_of(entity) else {
        return Err(Refusal::from(MachineFault::NotHere));
    };
    let kind = kind.clone()?;
    let arrivals = event_path(alloc, heap, target, bubbles(entity))?;
    let effect = Effect::recorded(TraceItem::Sent {
        target,
        kind: kind.clone()?,
    });
    heap.stage.objects.start_event(event, target);
    let dispatch = Dispatch {
        event,
        kind,
        at: Arrival {
            node: target,
            phase: Phase::Target,
        },
        listeners: Stack::new(alloc),
        arrivals,
        keeps,
    };
    Ok((effect, dispatch))
}

// `dispatchEvent`: an event is dispatched once. Its answer comes at the end of the dispatch.
pub fn dispatch_given(
    alloc: Global,
    heap: &mut Heap,
    target: ObjId,
    event: ObjId,
    keeps: bool,
) -> Result<Reply, Refusal>
    ensures { Gives result heap.new (dispatch_given keeps target event heap.old) }
{
    let Some(entity) = heap.stage.objects.get(event) else {
        return Err(Refusal::from(MachineFault::NotHere));
    };
    let Some(kind) = type_of(entity) else {
        return Err(Refusal::from(MachineFault::NotHere));
    };
    type_given(kind)?;
    if entity.delivery.dispatched {
        return Err(Refusal::from(Stop::Kind));
    }
    let (effect, dispatch) = begin_dispatch(alloc, heap, target, event, keeps)?;
    Ok(Reply {
        value: None,
        effect: Effect {
            next: Next::Opens(Native::Dispatches(dispatch)),
            item: effect.item,
        },
    })
}

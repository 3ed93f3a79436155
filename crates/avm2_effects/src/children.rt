// Components are put into containers and taken out of them.

ghost use Rattle.std.specs.Prelude.{◌≡◌};
ghost use Rattle.ui_runtime.specs.Tree.{spot_in};
ghost use Rattle.avm2_meaning.specs.Elements.{add, take_out};
ghost use Rattle.avm2_values.specs.Answers.{Gives};

use avm2_meaning::{Adding, Effect, Heap, Native};
use avm2_values::Refusal;
use flex_base::{MachineFault, ObjId, TraceItem};

/// A component is added to a container, as a declared child where it has a rank: the document that
/// adds it, and the number of its declaration. It isn't added to itself or to what it holds.
pub fn add(
    heap: &mut Heap,
    container: ObjId,
    child: ObjId,
    rank: Option<(ObjId, u32)>,
) -> Result<Effect, Refusal>
    ensures { Gives result heap.new (add container child (spot_in container rank) heap.old) }
{
    if heap.stage.objects.get(child).is_none() || heap.stage.objects.get(container).is_none() {
        return Err(Refusal::from(MachineFault::NotHere));
    }
    let placed = heap.stage.place(container, child, rank)?;
    Ok(Effect::opens(Native::Adds(Adding {
        from: placed.from,
        container,
        child,
        place: placed.place,
        first: placed.first,
    })))
}

/// A child is taken from its parent, which is told.
pub fn take_out(heap: &mut Heap, child: ObjId, parent: ObjId) -> Result<Effect, Refusal>
    ensures { Gives result heap.new (take_out child parent heap.old) }
{
    heap.stage.objects.take_out(child);
    Ok(Effect::recorded(TraceItem::Removed { parent, child }))
}

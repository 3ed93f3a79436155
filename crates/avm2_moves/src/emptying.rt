// The children of a container are taken out one after another.

ghost use Rattle.std.specs.Prelude.{◌≡◌};
ghost use Rattle.avm2_meaning.specs.Effects.{acted};
ghost use Rattle.avm2_meaning.specs.Elements.{empty_on};
ghost use Rattle.avm2_meaning.specs.Results.{Goes};

use avm2_meaning::{Effect, Heap, Native, Next, Stack};
use flex_base::{ObjId, TraceItem};

/// Takes the next of these children from a container.
pub fn empty_on(heap: &mut Heap, container: ObjId, mut children: Stack<ObjId>) -> (Effect, Native)
    ensures { empty_on container children heap.old ≡ Goes (acted result.0 result.1) heap.new }
{
    let effect = match children.pop() {
        Some(child) => {
            heap.stage.objects.take_out(child);
            Effect::recorded(TraceItem::Removed {
                parent: container,
                child,
            })
        }
        None => Effect::silent(Next::Close(None)),
    };
    (effect, Native::Empties(container, children))
}

// What is told of a component that was put into a container.

ghost use Rattle.std.specs.Prelude.{◌≡◌};
ghost use Rattle.avm2_meaning.specs.Effects.{acted};
ghost use Rattle.avm2_meaning.specs.Elements.{added_item, tell_added, tell_from};

use crate::events::creation_complete;
use avm2_meaning::{Adding, Effect, Native, Next};
use flex_base::TraceItem;

// That it joined the container.
fn added_item(adding: Adding) -> TraceItem
    ensures { result ≡ added_item adding }
{
    TraceItem::Added {
        parent: adding.container,
        child: adding.child,
        place: adding.place,
    }
}

// The same; a component that is added for the first time is complete after that.
fn tell_added(adding: Adding) -> (Effect, Native)
    ensures { acted result.0 result.1 ≡ tell_added adding }
{
    let item = added_item(adding);
    if adding.first {
        let complete = Native::Announces(creation_complete(), adding.child);
        (Effect::recorded(item), complete)
    } else {
        let effect = Effect {
            next: Next::Close(None),
            item: Some(item),
        };
        (effect, Native::Adds(adding))
    }
}

/// The next move of an adding: that the child left its parent is told, and then that it joined the
/// container.
pub fn add_on(adding: Adding) -> (Effect, Native)
    ensures { acted result.0 result.1 ≡ tell_from adding adding.from }
{
    let Some(parent) = adding.from else {
        return tell_added(adding);
    };
    let effect = Effect::recorded(TraceItem::Removed {
        parent,
        child: adding.child,
    });
    (
        effect,
        Native::Adds(Adding {
            from: None,
            container: adding.container,
            child: adding.child,
            place: adding.place,
            first: adding.first,
        }),
    )
}

// The events of the catalog that the player itself sends.

ghost use Rattle.std.specs.Prelude.{◌≡◌};
ghost use Rattle.component_catalog.specs.Events.{change, click, creation_complete, current_state_change, plain};

use avm2_meaning::Event;
use component_catalog::{EventRow, NativeClass};

// The row of an event that stays at its target and has no default action to prevent.
fn plain(class: NativeClass) -> EventRow
    ensures { result ≡ plain class }
{
    EventRow {
        class,
        bubbles: false,
        cancelable: false,
    }
}

/// A click on a component.
pub fn click() -> Event
    ensures { result ≡ click }
{
    Event {
        name: "click",
        row: EventRow {
            class: NativeClass::MouseEvent,
            bubbles: true,
            cancelable: true,
        },
    }
}

/// A component is complete.
pub fn creation_complete() -> Event
    ensures { result ≡ creation_complete }
{
    Event {
        name: "creationComplete",
        row: plain(NativeClass::FlexEvent),
    }
}

/// A document has gone over to a state.
pub fn current_state_change() -> Event
    ensures { result ≡ current_state_change }
{
    Event {
        name: "currentStateChange",
        row: plain(NativeClass::Event),
    }
}

/// A user changed a text or a selection.
pub fn change() -> Event
    ensures { result ≡ change }
{
    Event {
        name: "change",
        row: plain(NativeClass::Event),
    }
}

// The events that the objects of the native classes send.

ghost use Rattle.std.specs.Prelude.{◌≡◌};
ghost use Rattle.component_catalog.specs.Events.{event_of, own_event, plain};

use crate::class::NativeClass;

/// An event that the objects of a native class send.
#[derive(Clone, Copy, Debug, PartialEq, Eq)]
pub struct EventRow {
    /// The class of the event object.
    pub class: NativeClass,
    /// Whether it bubbles: it goes up again from its target.
    pub bubbles: bool,
    /// Whether its default action can be prevented.
    pub cancelable: bool,
}

/// The event of this name that the objects of a class send: the class's own, or that of the
/// nearest base that has one. `None` exactly where there is none.
pub fn event_of(class: NativeClass, name: &str) -> Option<EventRow>
    ensures { result ≡ event_of class name.now }
{
    let mut level = Some(class);
    while let Some(class) = level {
        let own = own_event(class, name);
        if own.is_some() {
            return own;
        }
        level = class.base();
    }
    None
}

// The event of this name that a class has beside those of its base.
fn own_event(class: NativeClass, name: &str) -> Option<EventRow>
    ensures { result ≡ own_event class name.now }
{
    match class {
        NativeClass::UIComponent => match name {
            "click" => Some(EventRow {
                class: NativeClass::MouseEvent,
                bubbles: true,
                cancelable: true,
            }),
            "creationComplete" => Some(plain(NativeClass::FlexEvent)),
            "currentStateChange" => Some(plain(NativeClass::Event)),
            _ => None,
        },
        NativeClass::ToggleButton | NativeClass::CheckBox | NativeClass::TextInput => match name {
            "change" => Some(plain(NativeClass::Event)),
            _ => None,
        },
        _ => None,
    }
}

// An event that stays at its target and has no default action to prevent.
fn plain(class: NativeClass) -> EventRow
    ensures { result ≡ plain class }
{
    EventRow {
        class,
        bubbles: false,
        cancelable: false,
    }
}

// The events that objects of a class send.

ghost use Rattle.std.specs.Prelude.{◌≡◌, option_map};
ghost use Rattle.std.specs.List.{find};
ghost use Rattle.std.specs.Str.{bytes_eq};
ghost use Rattle.component_catalog.specs.Events as catalog;
ghost use Rattle.as3_types.specs.declared.table.ClassTable.{ClassTable};
ghost use Rattle.as3_types.specs.declared.table.OwnEvent.{OwnEvent};
ghost use Rattle.flex_world.specs.declared.kind.Class.TheVariants as kind;
ghost use Rattle.class_table.specs.Sent.{event_above, event_declared_by, event_sent, inherits_event};

use as3_types::{ClassTable, OwnEvent};
use component_catalog::{EventRow, NativeClass};
use flex_world::{CATALOG_LEVELS, Class, base_of, descends};

/// The class of an event that objects of a class send, by the nearest declaration of its name from
/// this class upward; `None` also where the objects of the class dispatch no events.
pub fn event_of(table: &ClassTable, class: Class, name: &str) -> Option<Class>
    ensures { result ≡ event_sent table.now class name.now }
{
    let dispatcher = Class::Native(NativeClass::EventDispatcher);
    if descends(table.bases.as_slice(), class, dispatcher) {
        nearest_event(table, class, name)
    } else {
        None
    }
}

fn nearest_event(table: &ClassTable, class: Class, name: &str) -> Option<Class>
    ensures { result ≡ event_above table.now class name.now }
{
    let mut level = Some(class);
    let mut left = table.bases.len() + CATALOG_LEVELS;
    while left > 0 {
        let Some(class) = level else {
            return None;
        };
        let own = own_event(table, class, name);
        if own.is_some() {
            return own;
        }
        level = base_of(table.bases.as_slice(), class);
        left -= 1;
    }
    None
}

/// The class of the event of this name that a class declares itself.
pub fn own_event(table: &ClassTable, class: Class, name: &str) -> Option<Class>
    ensures { result ≡ event_declared_by table.now class name.now }
{
    match class {
        Class::Native(class) => event_of_native(class, name),
        Class::File(number) => source_event(table, number, name),
    }
}

fn event_of_native(class: NativeClass, name: &str) -> Option<Class>
    ensures { (table : ClassTable) → result ≡ event_declared_by table (kind.Native class) name.now }
{
    match native_event(class, name) {
        Some(row) => Some(Class::Native(row.class)),
        None => None,
    }
}

fn source_event(table: &ClassTable, number: u32, name: &str) -> Option<Class>
    ensures { result ≡ event_declared_by table.now (kind.File number) name.now }
{
    let events = table.events.get(number as usize)?;
    match first_event(events.as_slice(), name.as_bytes()) {
        Some(event) => Some(event.class),
        None => None,
    }
}

fn first_event<'a>(events: &'a [OwnEvent], name: &[u8]) -> Option<&'a OwnEvent>
    ensures { option_map (λ e. e.now) result ≡ find (λ (e : OwnEvent). bytes_eq e.name name.now) events.now }
{
    events.iter().find(|event| event.name.as_slice() == name)
}

// The event of this name that a class of the catalog has beside those of its base. No class has one
// that its base has.
fn native_event(class: NativeClass, name: &str) -> Option<EventRow>
    ensures { result ≡ catalog.own_event class name.now }
{
    if inherits_event(class, name) {
        None
    } else {
        component_catalog::event_of(class, name)
    }
}

fn inherits_event(class: NativeClass, name: &str) -> bool
    ensures { result ≡ inherits_event class name.now }
{
    match class.base() {
        Some(base) => component_catalog::event_of(base, name).is_some(),
        None => false,
    }
}

// A Button 1 with listeners, and an Event 2 that is dispatched at it.

use crate::Stage;
use component_catalog::NativeClass;
use event_flow::{Addition, Removal};
use flex_base::{NoMemory, ObjId, Text, Value, same};
use flex_objects::{ClassInfo, SlotTable};
use flex_world::Class;
use std::alloc::Global;
use std::process::Abort;
use std::rc::Rc;
use std::test::Fail;

const BUTTON: ObjId = ObjId(1);

const EVENT: ObjId = ObjId(2);

fn class(alloc: Global, native: NativeClass, fields: SlotTable) -> Result<ClassInfo, NoMemory> {
    Ok(ClassInfo {
        class: Class::Native(native),
        native: Some(native),
        fields: Rc::new(alloc, fields)?,
        hidden: Rc::new(alloc, SlotTable::new(alloc))?,
    })
}

// The stage of both.
fn stage(alloc: Global) -> Result<Stage, NoMemory> {
    let mut stage = Stage::new(alloc);
    let mut fields = SlotTable::new(alloc);
    fields.add_native(NativeClass::Button)?;
    let _button = stage.make(&class(alloc, NativeClass::Button, fields)?);
    let mut fields = SlotTable::new(alloc);
    fields.add_native(NativeClass::Event)?;
    let _event = stage.make(&class(alloc, NativeClass::Event, fields)?);
    Ok(stage)
}

fn listen(
    stage: &mut Stage,
    kind: &Text,
    method: u32,
    capture: bool,
    priority: i32,
) -> Option<Addition> {
    stage
        .listen(BUTTON, kind, (BUTTON, method), capture, priority)
        .ok()
}

// Whether the listeners of the Button in a phase are these methods of it.
fn hear(alloc: Global, stage: &Stage, kind: &Text, phase: u8, methods: &[u32]) -> bool {
    let Ok(list) = stage.listeners_at(alloc, BUTTON, kind, phase) else {
        return false;
    };
    let heard = list.as_slice();
    heard.len() == methods.len() && heard.iter().zip(methods).all(|(l, m)| l.1 == *m)
}

fn holds(alloc: Global, stage: &Stage, name: &str, wanted: &Value) -> bool {
    let Ok(key) = Text::make(alloc, name) else {
        return false;
    };
    matches!(stage.read(EVENT, &key), Some(value) if same(value, wanted))
}

#[test]
fn listeners_are_heard_by_priority(rt: HostRuntime) -> Result<(), Fail> {
    let alloc = rt.alloc();
    let mut stage = stage(alloc)?;
    let click = Text::make(alloc, "click")?;
    assert_eq!(rt;
        listen(&mut stage, &click, 10, false, 5),
        Some(Addition::New)
    );
    assert_eq!(rt;
        listen(&mut stage, &click, 12, false, 0),
        Some(Addition::New)
    );
    assert_eq!(rt;
        listen(&mut stage, &click, 11, false, 5),
        Some(Addition::New)
    );
    assert_eq!(rt;
        listen(&mut stage, &click, 12, false, 9),
        Some(Addition::Kept)
    );
    assert_eq!(rt;
        listen(&mut stage, &click, 13, true, 0),
        Some(Addition::New)
    );
    assert!(rt; hear(alloc, &stage, &click, 2, &[10, 11, 12]));
    assert!(rt; hear(alloc, &stage, &click, 1, &[13]));
    let gone = stage.unlisten(BUTTON, &click, (BUTTON, 10), false);
    assert_eq!(rt; gone, Removal::Gone);
    let absent = stage.unlisten(BUTTON, &click, (BUTTON, 10), false);
    assert_eq!(rt; absent, Removal::Absent);
    assert!(rt; hear(alloc, &stage, &click, 3, &[11, 12]));
    assert!(rt; stage.has_listener(BUTTON, &click));
    assert!(rt; !stage.has_listener(EVENT, &click));
    Ok(())
}

#[test]
fn an_event_is_dispatched_once(rt: HostRuntime) -> Result<(), Fail> {
    let alloc = rt.alloc();
    let mut stage = stage(alloc)?;
    stage.event_init(EVENT, Text::make(alloc, "click")?, true, true);
    stage.prevent(EVENT);
    assert!(rt; !stage.was_prevented(EVENT));
    let begins = stage.event_start(EVENT, BUTTON);
    assert!(rt; begins);
    stage.event_at(EVENT, BUTTON, 2);
    assert!(rt; holds(alloc, &stage, "target", &Value::Ref(BUTTON)));
    assert!(rt; holds(alloc, &stage, "currentTarget", &Value::Ref(BUTTON)));
    assert!(rt; holds(alloc, &stage, "eventPhase", &Value::Int(2)));
    stage.prevent(EVENT);
    stage.stop(EVENT);
    assert!(rt; matches!(stage.delivery(EVENT), Some(d) if d.stopped && !d.stopped_at_once));
    assert!(rt; stage.was_prevented(EVENT));
    stage.event_end(EVENT);
    stage.stop_now(EVENT);
    assert!(rt; matches!(stage.delivery(EVENT), Some(d) if !d.is_open && !d.stopped_at_once));
    assert!(rt; holds(alloc, &stage, "currentTarget", &Value::Null));
    assert!(rt; holds(alloc, &stage, "eventPhase", &Value::Int(0)));
    assert!(rt; stage.was_prevented(EVENT));
    let again = stage.event_start(EVENT, EVENT);
    assert!(rt; !again);
    assert!(rt; holds(alloc, &stage, "target", &Value::Ref(BUTTON)));
    Ok(())
}

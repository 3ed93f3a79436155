// A Label and an array.

use crate::Stage;
use component_catalog::NativeClass;
use flex_base::{ObjId, Text, Value, same};
use flex_objects::{ClassInfo, SlotTable};
use flex_world::Class;
use std::process::Abort;
use std::rc::Rc;
use std::test::Fail;

#[test]
fn objects_are_made_and_read(rt: HostRuntime) -> Result<(), Fail> {
    let alloc = rt.alloc();
    let mut fields = SlotTable::new(alloc);
    fields.add_native(NativeClass::Label)?;
    let class = ClassInfo {
        class: Class::Native(NativeClass::Label),
        native: Some(NativeClass::Label),
        fields: Rc::new(alloc, fields)?,
        hidden: Rc::new(alloc, SlotTable::new(alloc))?,
    };
    let mut stage = Stage::new(alloc);
    let label = stage.make(&class).ok();
    assert_eq!(rt; label, Some(ObjId(1)));
    let array = stage.make_array().ok();
    assert_eq!(rt; array, Some(ObjId(2)));
    let key = Text::make(alloc, "parent")?;
    assert!(rt; matches!(stage.read(ObjId(1), &key), Some(value) if same(value, &Value::Null)));
    assert!(rt; stage.read(ObjId(2), &key).is_none());
    assert_eq!(rt;
        stage.class_of(ObjId(1)),
        Some(Class::Native(NativeClass::Label))
    );
    assert_eq!(rt; stage.native_of(ObjId(2)), None);
    assert_eq!(rt; stage.array_length(ObjId(2)), 0);
    assert!(rt; stage.element(ObjId(2), 0).is_none());
    Ok(())
}

// Groups in one another, and an array.

use crate::Objects;
use component_catalog::NativeClass;
use flex_base::{NoMemory, ObjId, Value};
use flex_objects::{ClassInfo, Entity, SlotTable};
use flex_world::Class;
use std::alloc::Global;
use std::process::Abort;
use std::rc::Rc;
use std::test::Fail;

// So many Groups.
fn groups(alloc: Global, count: u32) -> Result<Objects, NoMemory> {
    let mut fields = SlotTable::new(alloc);
    fields.add_native(NativeClass::UIComponent)?;
    let class = ClassInfo {
        class: Class::Native(NativeClass::Group),
        native: Some(NativeClass::Group),
        fields: Rc::new(alloc, fields)?,
        hidden: Rc::new(alloc, SlotTable::new(alloc))?,
    };
    let mut objects = Objects::new(alloc);
    for _ in 0..count {
        objects.push(Entity::instance(alloc, &class)?)?;
    }
    Ok(objects)
}

#[test]
fn components_stand_in_one_another(rt: HostRuntime) -> Result<(), Fail> {
    let mut objects = groups(rt.alloc(), 3)?;
    objects.put(ObjId(1), ObjId(2), None, 0)?;
    objects.put(ObjId(2), ObjId(3), None, 0)?;
    let path = objects.path_of(rt.alloc(), ObjId(3))?;
    assert_eq!(rt; path.as_slice(), [ObjId(3), ObjId(2), ObjId(1)].as_slice());
    assert!(rt; objects.holds(ObjId(1), ObjId(3)) && !objects.holds(ObjId(3), ObjId(1)));
    assert_eq!(rt; objects.place_in(ObjId(1), None), 1);
    assert_eq!(rt; objects.take_out(ObjId(3)), Some(ObjId(2)));
    assert_eq!(rt; objects.parent_of(ObjId(3)), None);
    assert!(rt; objects.was_added(ObjId(3)) && !objects.was_added(ObjId(1)));
    Ok(())
}

#[test]
fn an_array_gains_elements(rt: HostRuntime) -> Result<(), Fail> {
    let alloc = rt.alloc();
    let array = ObjId(1);
    let mut objects = Objects::new(alloc);
    objects.push(Entity::array(alloc))?;
    objects.append(array, Value::Int(7))?;
    assert_eq!(rt; objects.array_length(array), 1);
    assert!(rt; matches!(objects.pop(array), Value::Int(7)));
    assert_eq!(rt; objects.len(), 1);
    assert!(rt; objects.get(ObjId(2)).is_none());
    Ok(())
}

// A Label of a file's class with a variable and a hidden property, and the parts of other objects.

use crate::{Children, ClassInfo, Elements, Entity, Keeping, Parent, Slot, SlotTable, Stored};
use component_catalog::NativeClass;
use flex_base::{NoMemory, ObjId, Text, Value, same};
use flex_world::{Class, StaticType};
use std::alloc::Global;
use std::process::Abort;
use std::rc::Rc;
use std::test::Fail;

fn slot(alloc: Global, text: &str) -> Result<Slot, NoMemory> {
    Ok(Slot {
        text: Text::make(alloc, text)?,
        kind: StaticType::Int,
        start: Value::Int(7),
        public: true,
        bindable: true,
        read_only: false,
        is_slot: true,
    })
}

fn label(alloc: Global) -> Result<Entity, NoMemory> {
    let mut fields = SlotTable::new(alloc);
    fields.add_native(NativeClass::Label)?;
    let mut hidden = SlotTable::new(alloc);
    hidden.add(&Text::make(alloc, "~1")?, slot(alloc, "~1")?)?;
    let class = ClassInfo {
        class: Class::File(0),
        native: Some(NativeClass::Label),
        fields: Rc::new(alloc, fields)?,
        hidden: Rc::new(alloc, hidden)?,
    };
    Entity::instance(alloc, &class)
}

fn expect(rt: &impl Abort, value: Option<&Value>, wanted: &Value) {
    assert!(rt; matches!(value, Some(held) if same(held, wanted)));
}

#[test]
fn a_label_keeps_what_is_written(rt: HostRuntime) -> Result<(), Fail> {
    let alloc = rt.alloc();
    let mut label = label(alloc)?;
    expect(
        &rt,
        label.value("text"),
        &Value::Text(Text::make(alloc, "")?),
    );
    expect(&rt, label.value("~1"), &Value::Int(7));
    expect(&rt, label.value("parent"), &Value::Null);
    assert!(rt; label.value("numElements").is_none());
    let written = label.write("~1", Value::Int(7));
    assert_eq!(rt; written, Some(Stored::Equal));
    let written = label.write("~1", Value::Int(8));
    assert_eq!(rt; written, Some(Stored::Watched));
    label.parent = Parent::of(ObjId(3));
    expect(&rt, label.value("~1"), &Value::Int(8));
    expect(&rt, label.value("parent"), &Value::Ref(ObjId(3)));
    Ok(())
}

#[test]
fn parts_change_as_they_are_told(rt: HostRuntime) -> Result<(), Fail> {
    let alloc = rt.alloc();
    let mut children = Children::new(alloc);
    children.insert(0, ObjId(2))?;
    children.insert(0, ObjId(3))?;
    children.remove(ObjId(2));
    assert_eq!(rt; children.get(0), Some(ObjId(3)));
    expect(&rt, Some(children.count()), &Value::Int(1));
    let mut keeping = Keeping::new(alloc);
    keeping.enable(4)?;
    keeping.open(4)?;
    keeping.keep(Text::make(alloc, "b")?);
    keeping.begin();
    assert!(rt; keeping.is_enabled(4) && keeping.is_open(4) && keeping.is_running());
    assert!(rt; keeping.end().is_some() && keeping.has_entered());
    let mut elements = Elements::new(alloc);
    elements.push(Value::Int(1))?;
    elements.push(Value::Int(2))?;
    expect(&rt, elements.get(1), &Value::Int(2));
    expect(&rt, Some(&elements.pop()), &Value::Int(2));
    assert_eq!(rt; elements.len(), 1);
    Ok(())
}

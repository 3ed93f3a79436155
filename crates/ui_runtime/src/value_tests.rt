// An array, and two objects under a watched chain.

use crate::{Stage, Written};
use flex_base::{Chain, NoMemory, ObjId, RunRefusal, Stop, Text, Value, same};
use flex_objects::{ClassInfo, Slot, SlotTable};
use flex_world::{Class, StaticType};
use std::alloc::Global;
use std::process::Abort;
use std::rc::Rc;
use std::test::Fail;

#[test]
fn elements_are_added_and_written(rt: HostRuntime) -> Result<(), Fail> {
    let array = ObjId(1);
    let mut stage = Stage::new(rt.alloc());
    let made = stage.make_array().ok();
    assert_eq!(rt; made, Some(array));
    let pushed = stage.push(array, Value::Int(1)).ok();
    assert_eq!(rt; pushed, Some(1));
    let written = stage.set_element(array, 1, Value::Int(2)).is_ok();
    assert!(rt; written);
    let pushed = stage.push(array, Value::Int(3)).ok();
    assert_eq!(rt; pushed, Some(3));
    assert!(rt; stage.element(array, 7).is_none());
    let last = stage.pop(array);
    assert!(rt; same(&last, &Value::Int(3)));
    let written = stage.set_element(array, 0, Value::Int(4)).is_ok();
    assert!(rt; written);
    assert!(rt; matches!(stage.element(array, 0), Some(value) if same(value, &Value::Int(4))));
    let far = stage.set_element(array, 9, Value::Int(0));
    assert!(rt; matches!(far, Err(RunRefusal::Stop(Stop::ArrayIndex))));
    assert_eq!(rt; stage.array_length(array), 2);
    Ok(())
}

// A table of one variable of this name, which bindings watch or not.
fn table(alloc: Global, name: &str, bindable: bool) -> Result<SlotTable, NoMemory> {
    let key = Text::make(alloc, name)?;
    let mut table = SlotTable::new(alloc);
    table.add(
        &key,
        Slot {
            text: key.clone()?,
            kind: StaticType::Any,
            start: Value::Null,
            public: true,
            bindable,
            read_only: false,
            is_slot: true,
        },
    )?;
    Ok(table)
}

// A class with a variable `next`, and a hidden one `v`.
fn class(alloc: Global, is_watched: bool) -> Result<ClassInfo, NoMemory> {
    Ok(ClassInfo {
        class: Class::File(0),
        native: None,
        fields: Rc::new(alloc, table(alloc, "next", is_watched)?)?,
        hidden: Rc::new(alloc, table(alloc, "v", true)?)?,
    })
}

// Objects 1 and 2, of which the binding 4 of 1 watches `next.v`.
fn stage(alloc: Global) -> Result<Stage, NoMemory> {
    let mut stage = Stage::new(alloc);
    let _first = stage.make(&class(alloc, true)?);
    let _second = stage.make(&class(alloc, false)?);
    let mut chain = Chain::new(alloc);
    chain.push(Text::make(alloc, "next")?)?;
    chain.push(Text::make(alloc, "v")?)?;
    if let Some(state) = &mut stage.state {
        state.watch.add(ObjId(1), 4, &chain)?;
    }
    Ok(stage)
}

// How many bindings a write affects.
fn affected(stage: &mut Stage, object: u32, key: &Text, value: Value) -> Option<usize> {
    match stage.write(ObjId(object), key, value) {
        Ok(Written::Changed(pairs)) => Some(pairs.len()),
        _ => None,
    }
}

#[test]
fn writes_tell_the_affected_bindings(rt: HostRuntime) -> Result<(), Fail> {
    let alloc = rt.alloc();
    let mut stage = stage(alloc)?;
    let next = Text::make(alloc, "next")?;
    let v = Text::make(alloc, "v")?;
    assert_eq!(rt; affected(&mut stage, 2, &v, Value::Int(6)), Some(0));
    assert_eq!(rt;
        affected(&mut stage, 1, &next, Value::Ref(ObjId(2))),
        Some(1)
    );
    assert_eq!(rt; affected(&mut stage, 2, &v, Value::Int(7)), Some(1));
    let equal = stage.write(ObjId(2), &v, Value::Int(7));
    assert!(rt; matches!(equal, Ok(Written::Equal)));
    let silent = stage.write(ObjId(2), &next, Value::Int(1));
    assert!(rt; matches!(silent, Ok(Written::Silent)));
    let missing = stage.write(ObjId(3), &v, Value::Int(7));
    assert!(rt; matches!(missing, Ok(Written::Equal)));
    assert!(rt; matches!(stage.read(ObjId(2), &v), Some(value) if same(value, &Value::Int(7))));
    Ok(())
}

// A small file made ready, where memory is there.

use crate::program;
use abc_format::read_abc;
use avm2_program::{Operation, Program};
use component_catalog::NativeClass;
use flex_base::NoMemory;
use flex_world::{Class, StaticType};
use std::alloc::Global;
use std::process::Abort;
use std::test::Fail;

// The strings `Main`, `spark.components`, `Application` and `count`; the public namespace and that
// of `spark.components`; the names `Main`, `Application` and `count` in them; three methods.
const POOL: &[u8] =
    b"\x10\0\x2E\0\0\0\0\x05\x04Main\x10spark.components\x0BApplication\x05count\x03\x16\0\x16\x02\0\x04\x07\x01\x01\x07\x02\x03\x07\x01\x04\x03\0\0\0\0\0\0\0\0\0\0\0\0\0";

// The class `Main`, an Application with a slot `count`, which method 1 makes; the script, with a
// place for it; and the body of method 1: `getlocal_0`, `constructsuper 0`, `pushtrue`, an `iftrue`
// to what is next, `returnvoid`.
const CODE: &[u8] =
    b"\x01\x01\x02\0\0\x01\x01\x03\0\0\0\0\x02\0\x01\0\x01\x01\x04\0\0\x01\x01\x02\x01\0\0\x09\xD0\x49\0\x26\x11\0\0\0\x47\0\0";

fn ready(alloc: Global) -> Result<Program, NoMemory> {
    let mut bytes = Vec::new(alloc);
    bytes.extend_from_slice(POOL)?;
    bytes.extend_from_slice(CODE)?;
    match read_abc(alloc, bytes.as_slice()) {
        Ok(abc) => program(alloc, &abc),
        Err(_) => Err(NoMemory),
    }
}

#[test]
fn class_is_ready(rt: HostRuntime) -> Result<(), Fail> {
    let program = ready(rt.alloc())?;
    let Some(class) = program.classes.get(0) else {
        return Err(Fail::from("a class is there"));
    };
    assert_eq!(rt; class.name.as_str(), "Main");
    let application = Some(StaticType::Object(Class::Native(NativeClass::Application)));
    assert_eq!(rt; class.behind, application);
    assert_eq!(rt; class.members.len(), 1);
    assert_eq!(rt; class.fields.len(), 12);
    assert_eq!(rt; class.constructor, 1);
    Ok(())
}

#[test]
fn method_is_ready(rt: HostRuntime) -> Result<(), Fail> {
    let program = ready(rt.alloc())?;
    let Some(method) = program.methods.get(1) else {
        return Err(Fail::from("a method is there"));
    };
    assert_eq!(rt; method.owner, Some(0));
    let Some(body) = &method.body else {
        return Err(Fail::from("a body is there"));
    };
    let branch = body.code.get(3);
    assert!(rt; matches!(branch, Some(Operation::Branch(true, 4))));
    Ok(())
}

#[test]
fn script_is_ready(rt: HostRuntime) -> Result<(), Fail> {
    let program = ready(rt.alloc())?;
    let Some(script) = program.scripts.get(0) else {
        return Err(Fail::from("a script is there"));
    };
    assert_eq!(rt; script.initialiser, 0);
    assert_eq!(rt; script.members.len(), 1);
    assert_eq!(rt; script.slots.len(), 1);
    Ok(())
}

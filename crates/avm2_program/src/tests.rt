// Names and types of a small pool.

use crate::{Space, name_at, own_name_at, type_at};
use abc_format::{Abc, MultinameIndex, read_abc};
use component_catalog::NativeClass;
use flex_base::NoMemory;
use flex_world::{Class, StaticType};
use std::alloc::Global;
use std::process::Abort;
use std::test::Fail;

// The strings `Main`, `spark.components` and `Application`; the public namespace, that of
// `spark.components` and a private one; and the names `Main` and `Application` in the first two,
// and `Main` in the third.
const BYTES: &[u8] =
    b"\x10\0\x2E\0\0\0\0\x04\x04Main\x10spark.components\x0BApplication\x04\x16\0\x16\x02\x05\x01\0\x04\x07\x01\x01\x07\x02\x03\x07\x03\x01\0\0\0\0\0";

fn type_of(alloc: Global, abc: &Abc, number: u32) -> Result<StaticType, NoMemory> {
    let classes = [own_name_at(alloc, abc, MultinameIndex::new(1))?];
    type_at(alloc, abc, &classes, MultinameIndex::new(number))
}

#[test]
fn names_name_types(rt: HostRuntime) -> Result<(), Fail> {
    let alloc = rt.alloc();
    let Ok(abc) = read_abc(alloc, BYTES) else {
        return Err(Fail::from("the pool is read"));
    };
    assert_eq!(rt; type_of(alloc, &abc, 0)?, StaticType::Any);
    assert_eq!(rt;
        type_of(alloc, &abc, 1)?,
        StaticType::Object(Class::File(0))
    );
    let application = StaticType::Object(Class::Native(NativeClass::Application));
    assert_eq!(rt; type_of(alloc, &abc, 2)?, application);
    assert_eq!(rt; type_of(alloc, &abc, 3)?, StaticType::Unnamed);
    let name = name_at(alloc, &abc, MultinameIndex::new(3))?;
    assert!(rt; name.has_space(&Space::Private(3)) && !name.has_package(""));
    Ok(())
}

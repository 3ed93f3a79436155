// Texts of code that are read where memory is there, and first faults.

use crate::{CodeRefusal, read_class_file, read_handler, read_members, read_metadata};
use source_sites::Code;
use std::alloc::Global;
use std::test::Fail;

const CLASS: &str = "package p.q {import a.b.*;import c; [Event] public class C{}}";

#[test]
fn classes_are_placed(rt: HostRuntime) -> Result<(), Fail> {
    let Ok(parsed) = read_class_file(rt.alloc(), CLASS) else {
        return Err(Fail::from("the text is no class file"));
    };
    assert_eq!(rt; (parsed.package_at, parsed.class_at), (0, 36));
    Ok(())
}

#[test]
fn texts_are_read(rt: HostRuntime) -> Result<(), Fail> {
    assert!(rt; read_members(rt.alloc(), "import a.b; var n:int;").is_ok());
    assert!(rt; read_metadata(rt.alloc(), "[Bindable]").is_ok());
    assert!(rt; read_handler(rt.alloc(), "f()").is_ok());
    Ok(())
}

fn fault_of_class(alloc: Global, text: &str) -> Option<CodeRefusal> {
    read_class_file(alloc, text).err()
}

#[test]
fn faults_are_placed(rt: HostRuntime) -> Result<(), Fail> {
    let bad = fault_of_class(rt.alloc(), "package \"abc");
    assert_eq!(rt; bad, Some(CodeRefusal::Fault(Code::BadToken, 8)));
    let wrong = fault_of_class(rt.alloc(), "package { }");
    assert_eq!(rt; wrong, Some(CodeRefusal::Fault(Code::Syntax, 10)));
    let cut = fault_of_class(rt.alloc(), "package { ");
    assert_eq!(rt; cut, Some(CodeRefusal::Fault(Code::Syntax, 10)));
    Ok(())
}

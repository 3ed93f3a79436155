// Members that are judged where memory is there.

use crate::check_class_members;
use as3_lexer::{LexRefusal, tokens};
use as3_parser::{ClassFile, ParseRefusal, parse_class_file};
use as3_types::ClassTable;
use component_catalog::NativeClass;
use flex_base::{NoMemory, Sequence, Text};
use flex_world::Class;
use source_sites::{Code, NamedClass, ParsedClass, Site};
use std::alloc::Global;
use std::test::Fail;

// The sources of one class, B, which extends UIComponent.
fn table(alloc: Global) -> Result<ClassTable, NoMemory> {
    let mut classes = Sequence::new(alloc);
    classes.push(NamedClass {
        folder: Text::make(alloc, "")?,
        name: Text::make(alloc, "B")?,
        is_document: false,
        imports: Sequence::new(alloc),
    })?;
    let mut bases = Sequence::new(alloc);
    bases.push(Some(Class::Native(NativeClass::UIComponent)))?;
    Ok(ClassTable {
        classes,
        bases,
        constructors: Sequence::new(alloc),
        members: Sequence::new(alloc),
        events: Sequence::new(alloc),
    })
}

// The first broken rule of the members of a class file whose class begins behind `package{`.
fn first_fault(alloc: Global, file: ClassFile) -> Result<Option<Site>, NoMemory> {
    let table = table(alloc)?;
    let Some(here) = table.classes.get(0) else {
        return Ok(None);
    };
    let parsed = ParsedClass {
        package_at: 0,
        class_at: 8,
        file,
    };
    check_class_members(alloc, &table, 0, here, &parsed)
}

// Where a text of a class file is at fault.
fn fault(alloc: Global, text: &str) -> Result<Option<(usize, Code)>, NoMemory> {
    let tokens = match tokens(alloc, text) {
        Ok(tokens) => tokens,
        Err(LexRefusal::NoMemory) => return Err(NoMemory),
        Err(LexRefusal::BadToken(at)) => return Ok(Some((at, Code::BadToken))),
    };
    let file = match parse_class_file(alloc, text, &tokens) {
        Ok(file) => file,
        Err(ParseRefusal::NoMemory) => return Err(NoMemory),
        Err(_) => return Ok(Some((0, Code::Syntax))),
    };
    match first_fault(alloc, file)? {
        Some(site) => Ok(Some((site.at, site.code))),
        None => Ok(None),
    }
}

#[test]
fn members_are_judged(rt: HostRuntime) -> Result<(), Fail> {
    assert_eq!(rt;
        fault(
            rt.alloc(),
            "package{public class B extends UIComponent{public var n:int;}}"
        )?,
        None
    );
    assert_eq!(rt;
        fault(
            rt.alloc(),
            "package{public class B extends UIComponent{public var x:int;}}"
        )?,
        Some((54, Code::DuplicateMember))
    );
    assert_eq!(rt;
        fault(
            rt.alloc(),
            "package{public class B extends UIComponent{public var a:int;public var a:int;}}"
        )?,
        Some((71, Code::DuplicateMember))
    );
    assert_eq!(rt;
        fault(
            rt.alloc(),
            "package{public class B extends UIComponent{public function f(a:Nope):void{}}}"
        )?,
        Some((63, Code::UnknownType))
    );
    assert_eq!(rt;
        fault(
            rt.alloc(),
            "package{public class B extends UIComponent{public function f():void{if(a){var v:Nope;}}}}"
        )?,
        Some((80, Code::UnknownType))
    );
    assert_eq!(rt;
        fault(
            rt.alloc(),
            "package{public class B extends UIComponent{public override function hasEventListener(t:String):Boolean{return true;}}}"
        )?,
        None
    );
    assert_eq!(rt;
        fault(
            rt.alloc(),
            "package{public class B extends UIComponent{protected override function hasEventListener(t:String):Boolean{return true;}}}"
        )?,
        Some((71, Code::WrongOverride))
    );
    assert_eq!(rt;
        fault(
            rt.alloc(),
            "package{public class B extends UIComponent{public function B(){}}}"
        )?,
        None
    );
    assert_eq!(rt;
        fault(
            rt.alloc(),
            "package{public class B extends UIComponent{var a:int;}}"
        )?,
        Some((43, Code::WrongModifiers))
    );
    assert_eq!(rt;
        fault(
            rt.alloc(),
            "package{import a.*.b;public class B extends UIComponent{}}"
        )?,
        Some((8, Code::WrongModifiers))
    );
    Ok(())
}

#[test]
fn metadata_are_judged(rt: HostRuntime) -> Result<(), Fail> {
    assert_eq!(rt;
        fault(
            rt.alloc(),
            "package{[Event(name='n',type='mx.events.Fle\\x78Event')]public class B{}}"
        )?,
        None
    );
    assert_eq!(rt;
        fault(
            rt.alloc(),
            "package{[Event(name='n',type='UIComponent')]public class B{}}"
        )?,
        Some((8, Code::BadMetadata))
    );
    assert_eq!(rt;
        fault(
            rt.alloc(),
            "package{public class B{[Bindable(event='n')]public var n:int;}}"
        )?,
        Some((23, Code::BadMetadata))
    );
    assert_eq!(rt;
        fault(rt.alloc(), "package{class B{}}")?,
        Some((8, Code::WrongModifiers))
    );
    Ok(())
}

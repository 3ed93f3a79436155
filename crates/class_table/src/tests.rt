// Columns of the class table that are made where memory is there.

use crate::{ClassCode, constructor_of, events_of, ids_on, members_of};
use as3_lexer::{LexRefusal, tokens};
use as3_parser::{ClassFile, ParseRefusal, parse_class_file};
use as3_types::ClassTable;
use flex_base::{NoMemory, Sequence, Text};
use mxml_tree::{Attribute, Element};
use source_sites::NamedClass;
use std::alloc::Global;
use std::test::Fail;

// The class B alone.
fn table(alloc: Global) -> Result<ClassTable, NoMemory> {
    let mut classes = Sequence::new(alloc);
    classes.push(NamedClass {
        folder: Text::make(alloc, "")?,
        name: Text::make(alloc, "B")?,
        is_document: false,
        imports: Sequence::new(alloc),
    })?;
    let mut bases = Sequence::new(alloc);
    bases.push(None)?;
    Ok(ClassTable {
        classes,
        bases,
        constructors: Sequence::new(alloc),
        members: Sequence::new(alloc),
        events: Sequence::new(alloc),
    })
}

fn parsed(alloc: Global, text: &str) -> Result<Option<ClassFile>, NoMemory> {
    let tokens = match tokens(alloc, text) {
        Ok(tokens) => tokens,
        Err(LexRefusal::NoMemory) => return Err(NoMemory),
        Err(LexRefusal::BadToken(_)) => return Ok(None),
    };
    match parse_class_file(alloc, text, &tokens) {
        Ok(file) => Ok(Some(file)),
        Err(ParseRefusal::NoMemory) => Err(NoMemory),
        Err(_) => Ok(None),
    }
}

// How many parameters the constructor of a class has, how many members the class, and how many
// events it declares.
fn counts(alloc: Global, text: &str) -> Result<Option<(usize, usize, usize)>, NoMemory> {
    let table = table(alloc)?;
    let Some(file) = parsed(alloc, text)? else {
        return Ok(None);
    };
    count(alloc, &table, &file)
}

fn count(
    alloc: Global,
    table: &ClassTable,
    file: &ClassFile,
) -> Result<Option<(usize, usize, usize)>, NoMemory> {
    let classes = table.classes.as_slice();
    let Some(here) = classes.first() else {
        return Ok(None);
    };
    let written = file.class.members.as_slice();
    let code = ClassCode {
        classes,
        here,
        bindable: false,
    };
    let members = members_of(alloc, &code, written)?;
    let events = events_of(alloc, table, here, file.class.metadata.as_slice())?;
    match constructor_of(alloc, classes, here, written)? {
        Some(taken) => Ok(Some((taken.parameters.len(), members.len(), events.len()))),
        None => Ok(Some((0, members.len(), events.len()))),
    }
}

#[test]
fn code_is_counted(rt: HostRuntime) -> Result<(), Fail> {
    let found = counts(
        rt.alloc(),
        "package{[Event(name='n',type='flash.events.Event')][Event(name='',type='flash.events.Event')]public class B{public function B(n:int,m:int){}public var a:int,b:String;public function f():void{}}}",
    )?;
    assert_eq!(rt; found, Some((2, 3, 1)));
    Ok(())
}

// `<s:LOCAL id="VALUE"/>`.
fn tag(alloc: Global, local: &str, value: &str) -> Result<Element, NoMemory> {
    let space = Text::make(alloc, "library://ns.adobe.com/flex/spark")?;
    let local = Text::make(alloc, local)?;
    let mut attributes = Sequence::new(alloc);
    attributes.push(id(alloc, value)?)?;
    Ok(Element {
        end: 0,
        space,
        local,
        attributes,
    })
}

fn id(alloc: Global, value: &str) -> Result<Attribute, NoMemory> {
    Ok(Attribute {
        at: 0,
        space: Text::make(alloc, "")?,
        local: Text::make(alloc, "id")?,
        value: Text::make(alloc, value)?,
    })
}

// How many members the id on a tag makes.
fn ids(alloc: Global, local: &str, value: &str) -> Result<usize, NoMemory> {
    let tag = tag(alloc, local, value)?;
    let owned = ids_on(alloc, &[], &[], &tag)?;
    Ok(owned.len())
}

#[test]
fn ids_are_members(rt: HostRuntime) -> Result<(), Fail> {
    assert_eq!(rt; ids(rt.alloc(), "Button", "go")?, 1);
    assert_eq!(rt; ids(rt.alloc(), "Button", "var")?, 0);
    assert_eq!(rt; ids(rt.alloc(), "UIComponent", "go")?, 0);
    Ok(())
}

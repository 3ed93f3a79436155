// Classes that are found and judged where memory is there.

ghost use Rattle.std.specs.Prelude.{◌≡◌, IfOk, length};

use crate::{Meaning, check_class_file, class_at, written_base};
use as3_parser::{Class as ClassTree, ClassFile, Lexeme, Modifier, Span};
use component_catalog::NativeClass;
use flex_base::{Names, NoMemory, Sequence, Text};
use flex_world::Class;
use source_sites::{Code, Import, NamedClass, ParsedClass};
use std::alloc::Global;
use std::test::Fail;

fn word(alloc: Global, start: usize, text: &str) -> Result<Lexeme, NoMemory> {
    let text = Text::make(alloc, text)?;
    Ok(Lexeme {
        span: Span { start, end: start },
        text,
    })
}

fn class(alloc: Global, folder: &str, name: &str) -> Result<NamedClass, NoMemory> {
    Ok(NamedClass {
        folder: Text::make(alloc, folder)?,
        name: Text::make(alloc, name)?,
        is_document: false,
        imports: Sequence::new(alloc),
    })
}

// `import model.*;`
fn model(alloc: Global) -> Result<Import, NoMemory> {
    let mut names = Names::new(alloc);
    names.push(Text::make(alloc, "model")?)?;
    names.push(Text::make(alloc, "*")?)?;
    Ok(Import { at: 0, names })
}

// The sources model/A.as and B.as, of which the second imports the first.
fn classes(alloc: Global) -> Result<Vec<NamedClass>, NoMemory>
    ensures { IfOk result (λ classes. length classes.items ≡ 2) }
{
    let mut importing = class(alloc, "", "B")?;
    importing.imports.push(model(alloc)?)?;
    let mut classes = Vec::new(alloc);
    classes.push(class(alloc, "model", "A")?)?;
    classes.push(importing)?;
    Ok(classes)
}

// What names joined by dots mean in the code of B.as: the number of a source class, or 9 for
// UIComponent.
fn meant(alloc: Global, names: &[&str]) -> Result<Option<u32>, NoMemory> {
    let classes = classes(alloc)?;
    let mut path = Vec::new(alloc);
    for name in names {
        path.push(word(alloc, 0, name)?)?;
    }
    let classes = classes.as_slice();
    let Some(here) = classes.get(1) else {
        return Ok(None);
    };
    match class_at(alloc, classes, here, path.as_slice())? {
        Meaning::Class(Class::File(number)) => Ok(Some(number)),
        Meaning::Class(Class::Native(NativeClass::UIComponent)) => Ok(Some(9)),
        _ => Ok(None),
    }
}

#[test]
fn names_are_found(rt: HostRuntime) -> Result<(), Fail> {
    assert_eq!(rt; meant(rt.alloc(), &["A"])?, Some(0));
    assert_eq!(rt; meant(rt.alloc(), &["B"])?, Some(1));
    assert_eq!(rt; meant(rt.alloc(), &["model", "A"])?, Some(0));
    assert_eq!(rt; meant(rt.alloc(), &["model", "B"])?, None);
    assert_eq!(rt; meant(rt.alloc(), &["UIComponent"])?, Some(9));
    assert_eq!(rt; meant(rt.alloc(), &["mx", "core", "UIComponent"])?, Some(9));
    Ok(())
}

// `package { public class NAME extends A {} }` in B.as, with the name at 21 and the base at 31.
fn parsed(alloc: Global, name: &str) -> Result<ParsedClass, NoMemory> {
    let mut modifiers = Vec::new(alloc);
    modifiers.push(Modifier::Public)?;
    let mut base = Vec::new(alloc);
    base.push(word(alloc, 31, "A")?)?;
    Ok(ParsedClass {
        package_at: 0,
        class_at: 10,
        file: ClassFile {
            package_name: None,
            imports: Vec::new(alloc),
            class: ClassTree {
                metadata: Vec::new(alloc),
                modifiers,
                name: word(alloc, 21, name)?,
                base: Some(base),
                members: Vec::new(alloc),
            },
        },
    })
}

// Where B.as is at fault, if A extends the class of this number.
fn fault(
    alloc: Global,
    name: &str,
    base: Option<Class>,
) -> Result<Option<(usize, Code)>, NoMemory> {
    let classes = classes(alloc)?;
    let classes = classes.as_slice();
    let parsed = parsed(alloc, name)?;
    let Some(here) = classes.get(1) else {
        return Ok(None);
    };
    let meaning = written_base(alloc, classes, here, &parsed.file.class.base)?;
    let bases = [base, Some(Class::File(0))];
    match check_class_file(alloc, classes, &bases, 1, here, &parsed, meaning)? {
        Some(site) => Ok(Some((site.at, site.code))),
        None => Ok(None),
    }
}

#[test]
fn class_files_are_judged(rt: HostRuntime) -> Result<(), Fail> {
    assert_eq!(rt; fault(rt.alloc(), "B", None)?, None);
    assert_eq!(rt;
        fault(rt.alloc(), "C", None)?,
        Some((21, Code::WrongClassName))
    );
    assert_eq!(rt;
        fault(rt.alloc(), "B", Some(Class::File(1)))?,
        Some((21, Code::BaseCycle))
    );
    Ok(())
}

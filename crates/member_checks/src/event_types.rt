// The types of the events that metadata declare.

ghost use Rattle.std.specs.Prelude.{◌≡◌, IfOk, map, option_map};
ghost use Rattle.source_sites.specs.Names.{path_names};
ghost use Rattle.source_sites.specs.Texts.{split};
ghost use Rattle.member_checks.specs.Dots.{Splits};
ghost use Rattle.member_checks.specs.EventTypes.{class_of_type, event_class, identifier_in, identifiers_in};

use as3_parser::{Lexeme, Span};
use as3_types::{ClassTable, Meaning, class_at, is_identifier};
use component_catalog::NativeClass;
use flex_base::{Bytes, NoMemory, Sequence, Text};
use flex_world::{Class, descends};
use source_sites::NamedClass;
use std::alloc::Global;

/// The class of events that names joined by dots stand for in the code of a class, if they are
/// identifiers and stand for one.
pub fn class_of_type(
    alloc: Global,
    table: &ClassTable,
    here: &NamedClass,
    written: &[u8],
) -> Result<Option<Class>, NoMemory>
    ensures { IfOk result (λ class. class ≡ class_of_type table.now here.now written.now) }
{
    let names = names_between_dots(alloc, written)?;
    let Some(path) = path_of(alloc, names.as_slice())? else {
        return Ok(None);
    };
    let meaning = class_at(alloc, table.classes.as_slice(), here, path.as_slice())?;
    Ok(event_class(table, meaning))
}

// A class of events.
fn event_class(table: &ClassTable, meaning: Meaning) -> Option<Class>
    ensures { result ≡ event_class table.now meaning }
{
    let Meaning::Class(class) = meaning else {
        return None;
    };
    let event = Class::Native(NativeClass::Event);
    if descends(table.bases.as_slice(), class, event) {
        Some(class)
    } else {
        None
    }
}

// The names between the dots, at least one.
fn names_between_dots(alloc: Global, written: &[u8]) -> Result<Sequence<Bytes>, NoMemory>
    ensures { IfOk result (λ names. names ≡ split 46 written.now) }
{
    let mut names = Sequence::new(alloc);
    let mut name = Bytes::new(alloc);
    for byte in written {
        name = add_byte(alloc, &mut names, name, *byte)?;
    }
    names.push(name)?;
    Ok(names)
}

// Ends a name at a dot, and otherwise makes it longer. The name that is begun then.
fn add_byte(
    alloc: Global,
    names: &mut Sequence<Bytes>,
    name: Bytes,
    byte: u8,
) -> Result<Bytes, NoMemory>
    ensures { IfOk result (Splits names.old names.new name byte) }
{
    if byte == b'.' {
        names.push(name)?;
        return Ok(Bytes::new(alloc));
    }
    let mut longer = name;
    longer.push(byte)?;
    Ok(longer)
}

// A path of these names, if they are identifiers.
fn path_of(alloc: Global, names: &[Bytes]) -> Result<Option<Vec<Lexeme>>, NoMemory>
    ensures { IfOk result (λ path. option_map (λ p. path_names p.items) path ≡ identifiers_in names.now) }
{
    let mut path = Vec::new(alloc);
    let mut rest = names;
    while let Some((name, others)) = rest.split_first() {
        let Some(word) = identifier(alloc, name)? else {
            return Ok(None);
        };
        path.push(word)?;
        rest = others;
    }
    Ok(Some(path))
}

fn identifier(alloc: Global, name: &Bytes) -> Result<Option<Lexeme>, NoMemory>
    ensures { IfOk result (λ word. option_map (λ l. l.text) word ≡ identifier_in name.now) }
{
    let Ok(text) = str::from_utf8(name.as_slice()) else {
        return Ok(None);
    };
    if !is_identifier(text) {
        return Ok(None);
    }
    let text = Text::make(alloc, text)?;
    Ok(Some(Lexeme {
        span: Span { start: 0, end: 0 },
        text,
    }))
}

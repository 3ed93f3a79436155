use super::*;
use as3_types::ValueType;
use class_table::Property;
use flex_base::{Bytes, NoMemory};
use std::alloc::Global;
use std::test::Fail;

#[test]
fn braces_are_bindings(rt: HostRuntime) -> Result<(), Fail> {
    assert!(rt; is_binding("Hello {name.text}!"));
    assert!(rt; is_binding("{"));
    assert!(rt; !is_binding("a \\{b\\} c}"));
    assert!(rt; is_binding("\\\\{b}") == false);
    assert_eq!(rt; bindings_of_text("@{field.text}"), 2);
    assert_eq!(rt; bindings_of_text("@{field.text} "), 1);
    assert_eq!(rt; bindings_of_text("{field.text}"), 1);
    Ok(())
}

fn is_literal(alloc: Global, text: &str, bytes: &[u8]) -> Result<bool, NoMemory> {
    let literal = literal_text(alloc, text)?;
    Ok(literal.as_slice() == bytes)
}

#[test]
fn backslashes_escape_braces(rt: HostRuntime) -> Result<(), Fail> {
    assert!(rt; is_literal(rt.alloc(), "a \\{b\\} c\\n", b"a {b} c\\n")?);
    assert!(rt; is_literal(rt.alloc(), "}", b"}")?);
    Ok(())
}

// What a text sets the width of an instance to: the bytes of the property's name, and the number.
fn width(alloc: Global, text: &str) -> Result<Option<(usize, i32)>, NoMemory> {
    let width = Property {
        name: "width",
        kind: ValueType::Int,
        read_only: false,
        bindable: true,
        native: true,
    };
    let Some(found) = setting_of_text(alloc, &width, text)? else {
        return Ok(None);
    };
    match found.value {
        Literal::Whole(number) => Ok(Some((found.name.len(), number))),
        _ => Ok(None),
    }
}

#[test]
fn widths_are_set(rt: HostRuntime) -> Result<(), Fail> {
    assert_eq!(rt; width(rt.alloc(), "50%")?, Some((12, 50)));
    assert_eq!(rt; width(rt.alloc(), "-7")?, Some((5, -7)));
    assert_eq!(rt; width(rt.alloc(), "-2147483648")?, Some((5, i32::MIN)));
    assert_eq!(rt; width(rt.alloc(), "2147483648")?, None);
    assert_eq!(rt; width(rt.alloc(), "1.5")?, None);
    Ok(())
}

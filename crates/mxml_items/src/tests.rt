// Items of a few texts, and places.

use crate::{Item, place_of, read_items};
use flex_base::{Bytes, NoMemory};
use std::alloc::Global;
use std::test::Fail;

// A letter for each item, and the place where the items end.
fn letters(alloc: Global, text: &str) -> Result<(Bytes, usize), NoMemory> {
    let found = read_items(alloc, text.as_bytes())?;
    let mut letters = Bytes::new(alloc);
    for placed in found.items.as_slice() {
        letters.push(letter(&placed.item))?;
    }
    Ok((letters, found.end))
}

fn letter(item: &Item<'_>) -> u8 {
    match item {
        Item::Instruction => b'I',
        Item::Comment => b'C',
        Item::CData(_) => b'D',
        Item::Tag { empty: true, .. } => b'E',
        Item::Tag { .. } => b'T',
        Item::EndTag(_) => b'/',
        Item::Words(_) => b'W',
    }
}

const TEXTS: [(&str, &str, usize); 15] = [
    (
        "\u{FEFF}<?x?><a b='1' c = \"&lt;\">t&#65;<b/><![CDATA[<]]></a >\n",
        "ITWED/W",
        57,
    ),
    ("<!-- a -- b --><!-->-->", "CC", 23),
    ("<\u{e9}:p a.b-c='>' \n _d=\"'\"/>", "E", 26),
    ("&#x10FFFF;&#1;", "W", 14),
    ("", "", 0),
    ("x & y", "W", 2),
    ("<a b=\"1\"c=\"2\">", "", 0),
    ("<a b=\"<\">", "", 0),
    ("<a b=\"&\">", "", 0),
    ("<a:b:c/>", "", 0),
    ("<1a/>", "", 0),
    ("x<!DOCTYPE a>", "W", 1),
    ("&#0;", "", 0),
    ("&#xD800;", "", 0),
    ("&#X41;", "", 0),
];

#[test]
fn items_are_the_longest(rt: HostRuntime) -> Result<(), Fail> {
    for (text, expected, end) in TEXTS.iter().copied() {
        let (found, place) = letters(rt.alloc(), text)?;
        assert_eq!(rt; found.as_slice(), expected.as_bytes());
        assert_eq!(rt; place, end);
    }
    Ok(())
}

#[test]
fn attributes_have_their_places(rt: HostRuntime) -> Result<(), Fail> {
    let text = "<a  b='&lt;\n' c=\"\"/>";
    let found = read_items(rt.alloc(), text.as_bytes())?;
    for placed in found.items.as_slice() {
        if let Item::Tag {
            name,
            attributes,
            ..
        } = &placed.item
        {
            assert_eq!(rt; *name, "a");
            assert_eq!(rt; attributes.len(), 2);
            for attribute in attributes.as_slice() {
                let is_first = attribute.name == "b";
                assert_eq!(rt; attribute.at, if is_first { 4 } else { 14 });
                assert_eq!(rt; attribute.value.len(), if is_first { 5 } else { 0 });
            }
        }
    }
    assert_eq!(rt; place_of(text.as_bytes(), 14), (2, 3));
    assert_eq!(rt; place_of(text.as_bytes(), 0), (1, 1));
    Ok(())
}

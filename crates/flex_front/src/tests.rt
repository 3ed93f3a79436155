// Sources, and the documents that are read from them.

use crate::document::{Document, Element};
use crate::reading::{SourceRefusal, read_source};
use flex_base::{Bytes, NoMemory};
use std::alloc::Global;
use std::test::Fail;

const OPENING: &str =
    "<s:Application xmlns:fx=\"http://ns.adobe.com/mxml/2009\" xmlns:s=\"library://ns.adobe.com/flex/spark\">";

const CLOSING: &str = "</s:Application>";

// Sources that have no document, by what stands between the opening tag and the source's end.
const REFUSED: &[&str] = &[
    "",
    "</s:Application>.",
    "<s:Button id=\"go\"/>.</s:Application>",
    "<s:Button id=\"go\"/><s:Label id=\"go\" text=\"Hi\"/></s:Application>",
    "<s:Button id=\"go\" click=\"trace('it's')\"/></s:Application>",
    "<s:Button id=\"go\" click=\"trace(1)\"/></s:Application>",
    "<s:Button id=\"visible\"/></s:Application>",
    "<s:Button id=\"go\"><s:Button id=\"on\"/></s:Button></s:Application>",
    "<fx:Button id=\"go\"/></s:Application>",
    "<s:Label id=\"one\"/></s:Application>",
    "<s:Label id=\"one\" text=\"{one}\"/></s:Application>",
    "<s:Label id=\"one\" text=\"Hi\" s:text=\"Hi\"/></s:Application>",
];

// The bytes of a source with this between its opening tag and its end.
fn source(alloc: Global, body: &[u8]) -> Result<Bytes, NoMemory> {
    let mut bytes = Bytes::new(alloc);
    bytes.extend(OPENING.as_bytes())?;
    bytes.extend(body)?;
    Ok(bytes)
}

// How many elements the document of a source has, or `None` where it isn't built.
fn count(alloc: Global, body: &[u8]) -> Result<Option<usize>, NoMemory> {
    let bytes = source(alloc, body)?;
    match read_source(alloc, "Main.mxml", bytes.as_slice()) {
        Ok(document) => Ok(Some(document.elements.len())),
        Err(SourceRefusal::Fault { .. } | SourceRefusal::NotYetBuilt) => Ok(None),
        Err(SourceRefusal::NoMemory) => Err(NoMemory),
    }
}

// What a document says: for each element its id, a colon, and its text if it has one.
fn said(alloc: Global, document: &Document) -> Result<Bytes, NoMemory> {
    let mut bytes = Bytes::new(alloc);
    for element in document.elements.as_slice() {
        let (id, text) = match element {
            Element::Label { id, text } => (id, Some(text)),
            Element::Button { id, click } => (id, click.as_ref()),
        };
        bytes.extend(id.as_str().as_bytes())?;
        bytes.push(b':')?;
        if let Some(text) = text {
            bytes.extend(text.as_str().as_bytes())?;
            bytes.push(b';')?;
        }
    }
    Ok(bytes)
}

#[test]
fn elements_are_read_in_order(rt: HostRuntime) -> Result<(), Fail> {
    let alloc = rt.alloc();
    let body =
        b"\r\n  <s:Label text='Hi, all' id=\"one\"/><!-- - -->\n  <t:Button xmlns:t=\"library://ns.adobe.com/flex/spark\" id=\"go\"\tclick=\"trace(&apos;on')\"></t:Button>\n<s:Button id=\"no\"/>\n</s:Application>\n";
    let bytes = source(alloc, body)?;
    match read_source(alloc, "Main.mxml", bytes.as_slice()) {
        Ok(document) => {
            assert_eq!(rt;
                said(alloc, &document)?.as_slice(),
                b"one:Hi, all;go:on;no:".as_slice()
            );
            Ok(())
        }
        Err(_) => Err(Fail::from("a source is refused")),
    }
}

#[test]
fn other_sources_are_refused(rt: HostRuntime) -> Result<(), Fail> {
    for body in REFUSED {
        if count(rt.alloc(), body.as_bytes())?.is_some() {
            return Err(Fail::from("a source is read"));
        }
    }
    Ok(())
}

// The body of a source with so many Buttons, of which each has another id.
fn buttons(alloc: Global, many: u8) -> Result<Bytes, NoMemory> {
    let mut body = Bytes::new(alloc);
    for number in 0..many {
        body.extend(b"<s:Button id=\"b")?;
        body.push(b'a' + number / 26)?;
        body.push(b'a' + number % 26)?;
        body.extend(b"\"/>")?;
    }
    body.extend(CLOSING.as_bytes())?;
    Ok(body)
}

// The body of a source with a Label that has a text of so many bytes.
fn label(alloc: Global, many: u8) -> Result<Bytes, NoMemory> {
    let mut body = Bytes::new(alloc);
    body.extend(b"<s:Label id=\"one\" text=\"")?;
    for _ in 0..many {
        body.push(b'.')?;
    }
    body.extend(b"\"/>")?;
    body.extend(CLOSING.as_bytes())?;
    Ok(body)
}

#[test]
fn sources_have_limits(rt: HostRuntime) -> Result<(), Fail> {
    let alloc = rt.alloc();
    let found = [
        count(alloc, buttons(alloc, 0)?.as_slice())?,
        count(alloc, buttons(alloc, 100)?.as_slice())?,
        count(alloc, buttons(alloc, 101)?.as_slice())?,
        count(alloc, label(alloc, 200)?.as_slice())?,
        count(alloc, label(alloc, 201)?.as_slice())?,
    ];
    assert_eq!(rt; found, [Some(0), Some(100), None, Some(1), None]);
    Ok(())
}

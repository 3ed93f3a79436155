// Trees of a document, and first faults.

use crate::{Node, NodeKind, TreeRefusal, read_tree};
use std::alloc::Global;
use std::fmt::Write;
use std::test::Fail;

const DOCUMENT: &str =
    "\u{FEFF}<?xml version=\"1.0\"?>\n<s:A xmlns:s=\"u&amp;v\" xmlns=\"w\" b='x\t&#9;&quot;' s:c=''>\r\n <B/>t&lt;<!-- -- --> <![CDATA[<&lt;\r]]>\n u<xml:C>v\r\nw</xml:C></s:A>\n";

const NODES: [&str; 6] = [
    "- 25 152 u&v A [58 b=x \t\"] [75 u&v c=]",
    "0 85 89 w B",
    "0 89 - t<",
    "0 106 - <&lt;\n\n u",
    "0 127 146 http://www.w3.org/XML/1998/namespace C",
    "4 134 134..138 v\nw",
];

// A line for a node: its parent, its place, its end or its span, and what it says.
fn line(alloc: Global, node: &Node) -> Result<String, Fail> {
    let mut line = String::new(alloc);
    match node.parent {
        Some(parent) => write!(line, "{parent}")?,
        None => line.push('-')?,
    }
    write!(line, " {}", node.at)?;
    match &node.kind {
        NodeKind::Element(element) => {
            let (space, local) = (element.space.as_str(), element.local.as_str());
            write!(line, " {} {space} {local}", element.end)?;
            for a in element.attributes.as_slice() {
                let space = a.space.as_str();
                write!(line, " [{} ", a.at)?;
                if !space.is_empty() {
                    write!(line, "{space} ")?;
                }
                write!(line, "{}={}]", a.local.as_str(), a.value.as_str())?;
            }
        }
        NodeKind::Characters(characters) => {
            match characters.span {
                Some((start, end)) => write!(line, " {start}..{end}")?,
                None => line.push_str(" -")?,
            }
            write!(line, " {}", characters.text.as_str())?;
        }
    }
    Ok(line)
}

#[test]
fn nodes_stand_in_text_order(rt: HostRuntime) -> Result<(), Fail> {
    let Ok(tree) = read_tree(rt.alloc(), DOCUMENT.as_bytes()) else {
        return Err(Fail::from("the document has no tree"));
    };
    assert_eq!(rt; tree.count() as usize, NODES.len());
    for n in 0..tree.count() {
        if let Some(node) = tree.node(n) {
            assert_eq!(rt; line(rt.alloc(), node)?.as_str(), NODES[n as usize]);
        }
    }
    Ok(())
}

// A text, and the name and the place of its first fault.
const FAULTS: &[(&[u8], &str, usize)] = &[
    (b"<a>\xC3</a>", "NotUtf8", 3),
    (b"<a/>\xFF<!DOCTYPE", "NotUtf8", 4),
    (b" <!DOCTYPE a><a/>", "Doctype", 1),
    (b"<a b='&x;'/>", "NotAnItem", 0),
    (b"<a>x & y</a>", "NotAnItem", 5),
    (b"x & y", "TextOutside", 0),
    (b"\n<![CDATA[]]>", "TextOutside", 1),
    (b"<a/>&#32;", "TextOutside", 4),
    (b"<a/><b c='' c='' d:e=''/>", "TextOutside", 4),
    (b"<a b='' xmlns:c='' d:e='' b=''/>", "DuplicateAttribute", 0),
    (b"<a xmlns:p='1' xmlns:p='2'/>", "DuplicateAttribute", 0),
    (b"<a><p:b xmlns:p=''/><p:b/></a>", "UnknownPrefix", 20),
    (b"<a p:b=''/>", "UnknownPrefix", 0),
    (b"<xmlns:a/>", "UnknownPrefix", 0),
    (b"<a><b></a>", "WrongEnd", 6),
    (b"</a>", "WrongEnd", 0),
    (b"<a><b/>", "Unclosed", 7),
    (b"\xEF\xBB\xBF <!-- a -->", "NoRoot", 14),
    (b"", "NoRoot", 0),
];

fn refuses(alloc: Global, text: &[u8], name: &str, place: usize) -> bool {
    match read_tree(alloc, text) {
        Err(TreeRefusal::Fault { code, at }) => code.name() == name && at == place,
        _ => false,
    }
}

#[test]
fn the_first_fault_counts(rt: HostRuntime) -> Result<(), Fail> {
    for fault in FAULTS {
        assert!(rt; refuses(rt.alloc(), fault.0, fault.1, fault.2));
    }
    Ok(())
}

// So many elements in one another.
fn nested(alloc: Global, levels: usize) -> Result<String, Fail> {
    let mut text = String::new(alloc);
    for _ in 0..levels {
        text.push_str("<a>")?;
    }
    for _ in 0..levels {
        text.push_str("</a>")?;
    }
    Ok(text)
}

#[test]
fn at_most_64_levels(rt: HostRuntime) -> Result<(), Fail> {
    let text = nested(rt.alloc(), 64)?;
    assert!(rt; read_tree(rt.alloc(), text.as_bytes()).is_ok());
    let text = nested(rt.alloc(), 65)?;
    assert!(rt; refuses(rt.alloc(), text.as_bytes(), "TooDeep", 192));
    Ok(())
}

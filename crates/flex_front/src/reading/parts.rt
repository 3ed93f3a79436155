// The parts of a source: what an element is made of, as its tag says it.

ghost use Rattle.std.specs.Prelude.{◌≡◌, ◌↔◌, IsTrue, MatchOption, codes, length, option_map};
ghost use Rattle.flex_front.specs.Parts.{HasNoPart, HasNoRow, HasNoText, IsFineRow, IsPartOf, element_of};
ghost use Rattle.flex_front.specs.Source.{IsApplication, call_of, is_named, value_of};

use crate::words::{is_id, is_text};
use mxml_tree::{Attribute, Element, Node, NodeKind};

const SPARK: &str = "library://ns.adobe.com/flex/spark";

// An element whose texts stand in the tree.
#[derive(Clone, Copy)]
pub enum Part<'a> {
    Label { id: &'a str, text: &'a str },
    Button { id: &'a str, click: Option<&'a str> },
}

// Whether a node is an Application without attributes.
pub fn is_application(node: &Node) -> bool
    ensures { IsTrue result ↔ IsApplication node.now }
{
    match &node.kind {
        NodeKind::Element(tag) => {
            tag.space.as_str() == SPARK
                && tag.local.as_str() == "Application"
                && tag.attributes.len() == 0
        }
        NodeKind::Characters(_) => false,
    }
}

// The element that a node is, directly in the root.
pub fn read_part(node: &Node) -> Option<Part<'_>>
    ensures { MatchOption result (HasNoRow node.now) (λ part. IsFineRow node.now (element_of part)) }
{
    let NodeKind::Element(tag) = &node.kind else {
        return None;
    };
    if node.parent != Some(0) || tag.space.as_str() != SPARK {
        return None;
    }
    read_tag(tag)
}

// The element that a tag says.
fn read_tag(tag: &Element) -> Option<Part<'_>>
    ensures { MatchOption result (HasNoPart tag.now) (λ part. IsPartOf tag.now (element_of part)) }
{
    match tag.local.as_str() {
        "Label" => read_label(tag),
        "Button" => read_button(tag),
        _ => None,
    }
}

// The Label that a tag says.
fn read_label(tag: &Element) -> Option<Part<'_>>
    requires { tag.now.local ≡ codes "Label" }
    ensures { MatchOption result (HasNoPart tag.now) (λ part. IsPartOf tag.now (element_of part)) }
{
    if tag.attributes.len() != 2 {
        return None;
    }
    let id = value(tag, "id")?;
    let text = value(tag, "text")?;
    (is_id(id) && is_text(text)).then_some(Part::Label { id, text })
}

// The Button that a tag says.
fn read_button(tag: &Element) -> Option<Part<'_>>
    requires { tag.now.local ≡ codes "Button" }
    ensures { MatchOption result (HasNoPart tag.now) (λ part. IsPartOf tag.now (element_of part)) }
{
    match tag.attributes.len() {
        1 => read_plain_button(tag),
        2 => read_clicked_button(tag),
        _ => None,
    }
}

// The Button without a handler that a tag with one attribute says.
fn read_plain_button(tag: &Element) -> Option<Part<'_>>
    requires is_button { tag.now.local ≡ codes "Button" }
    requires one { length tag.now.attributes ≡ 1 }
    ensures { MatchOption result (HasNoPart tag.now) (λ part. IsPartOf tag.now (element_of part)) }
{
    let id = value(tag, "id")?;
    is_id(id).then_some(Part::Button { id, click: None })
}

// The Button with a handler that a tag with two attributes says.
fn read_clicked_button(tag: &Element) -> Option<Part<'_>>
    requires is_button { tag.now.local ≡ codes "Button" }
    requires two { length tag.now.attributes ≡ 2 }
    ensures { MatchOption result (HasNoPart tag.now) (λ part. IsPartOf tag.now (element_of part)) }
{
    let id = value(tag, "id")?;
    let call = value(tag, "click")?;
    let text = traced_text(call)?;
    if !is_id(id) {
        return None;
    }
    if !is_text(text) {
        return None;
    }
    let click = Some(text);
    Some(Part::Button { id, click })
}

// The text that a call of `trace` traces.
fn traced_text(call: &str) -> Option<&str>
    ensures { MatchOption result (HasNoText call.now) (λ text. call.now ≡ call_of text.now) }
{
    call.strip_prefix("trace('")?.strip_suffix("')")
}

// The value of an attribute in no namespace.
fn value<'a>(tag: &'a Element, name: &str) -> Option<&'a str>
    ensures { option_map (λ value. value.now) result ≡ value_of name.now tag.now.attributes }
{
    for attribute in tag.attributes.as_slice() {
        if is_named(attribute, name) {
            return Some(attribute.value.as_str());
        }
    }
    None
}

// Whether an attribute is in no namespace and has this name.
fn is_named(attribute: &Attribute, name: &str) -> bool
    ensures { result ≡ is_named name.now attribute.now }
{
    attribute.space.as_str() == "" && attribute.local.as_str() == name
}

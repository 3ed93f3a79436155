// The elements that are open at a place of the text, and the namespaces that they declare.

ghost use Rattle.std.specs.Prelude.{◌≡◌, ◌++◌, IfOk, map, option_map, reverse};
ghost use Rattle.mxml_tree.specs.Faults.{closes};
ghost use Rattle.mxml_tree.specs.Namespaces.{at_first, space_of};
ghost use Rattle.mxml_tree.specs.Opened.{declared_in, open_of, own_of};

use flex_base::{NoMemory, Sequence, Text};
use std::alloc::Global;

// A prefix, empty for names without one, and the namespace that it stands for.
#[derive(Drop)]
pub struct Declaration<'a> {
    pub prefix: &'a str,
    pub space: Text,
}

// An element whose end tag is still to come.
#[derive(Drop)]
pub struct OpenElement<'a> {
    // The written name of its start tag.
    pub name: &'a str,
    // Its number in the table of nodes.
    pub node: u32,
    // What its start tag declares, in text order.
    pub declarations: Sequence<Declaration<'a>>,
}

// The namespace of a prefix in a tag that declares these, inside open elements, the outermost first.
pub fn space_of(
    alloc: Global,
    own: &[Declaration<'_>],
    opened: &[OpenElement<'_>],
    prefix: &str,
) -> Result<Option<Text>, NoMemory>
    ensures { IfOk result (λ space. space ≡ space_of (own_of own.now ++ declared_in (reverse opened.now)) prefix.now) }
{
    match declared_space(own, prefix) {
        Some(space) => Ok(Some(space.clone()?)),
        None => space_around(alloc, opened, prefix),
    }
}

// The namespace of a prefix inside open elements, the outermost first.
fn space_around(
    alloc: Global,
    opened: &[OpenElement<'_>],
    prefix: &str,
) -> Result<Option<Text>, NoMemory>
    ensures { IfOk result (λ space. space ≡ space_of (declared_in (reverse opened.now)) prefix.now) }
{
    for element in opened.iter().rev() {
        if let Some(space) = declared_space(element.declarations.as_slice(), prefix) {
            return Ok(Some(space.clone()?));
        }
    }
    space_at_first(alloc, prefix)
}

// The namespace of a prefix outside the root.
fn space_at_first(alloc: Global, prefix: &str) -> Result<Option<Text>, NoMemory>
    ensures { IfOk result (λ space. space ≡ space_of at_first prefix.now) }
{
    match prefix {
        "" => Ok(Some(Text::make(alloc, "")?)),
        "xml" => Ok(Some(Text::make(alloc, "http://www.w3.org/XML/1998/namespace")?)),
        _ => Ok(None),
    }
}

// The namespace that declarations give a prefix.
fn declared_space<'d>(declarations: &'d [Declaration<'_>], prefix: &str) -> Option<&'d Text>
    ensures { option_map (λ space. space.now) result ≡ space_of (own_of declarations.now) prefix.now }
{
    for declaration in declarations {
        if declaration.prefix == prefix {
            return Some(&declaration.space);
        }
    }
    None
}

// Whether an end tag with this name ends the innermost of the open elements, the last of these.
pub fn closes(name: &str, opened: &[OpenElement<'_>]) -> bool
    ensures { result ≡ closes name.now (map open_of (reverse opened.now)) }
{
    match opened.split_last() {
        Some((innermost, _)) => name == innermost.name,
        None => false,
    }
}

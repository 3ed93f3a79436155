// A tree while its items are read.

ghost use Rattle.std.specs.Prelude.{◌≡◌, ◌++◌, [], ◌∷◌, IfErr, IfOk, IsFalse, OnOk, All, map, reverse};
ghost use Rattle.mxml_items.specs.Items as i;
ghost use Rattle.mxml_items.specs.Reading.{item_of, written};
ghost use Rattle.mxml_items.specs.Texts.{placed_of};
ghost use Rattle.mxml_tree.specs.Building.{BeginsIn, Finishes, Opens, Reads, ReadsTexts, RefusesEnd, RefusesIn, RefusesTag, Stands, around, end_at, innermost, is_after_root};
ghost use Rattle.mxml_tree.specs.declared.fault.TreeRefusal.TheVariants as refusal;
ghost use Rattle.mxml_tree.specs.Faults.{fault_at_end};
ghost use Rattle.mxml_tree.specs.Readable.{AreReadable, HasReadableValue, IsReadableItem};
ghost use Rattle.mxml_tree.specs.Texts.{AreTexts, is_text};

use crate::attributes::{declarations, is_repeated, plain_attributes};
use crate::elements::{Declaration, OpenElement, closes, space_of};
use crate::fault::{TreeCode, TreeRefusal};
use crate::names::{local_of, prefix_of};
use crate::texts::characters;
use crate::tree::{Element, Node, NodeKind};
use flex_base::{NoMemory, Sequence, Text};
use mxml_items::{Attribute, Item, Placed};
use std::alloc::Global;

// At most so many elements lie in one another.
const MOST_LEVELS: usize = 64;

// The elements that are open, the outermost first, and the nodes so far.
#[derive(Drop)]
pub struct Building<'a> {
    opened: Vec<OpenElement<'a>>,
    nodes: Sequence<Node>,
}

impl<'a> Building<'a> {
    pub fn new(alloc: Global) -> Building<'a>
        ensures { (all : _) → Stands all all result }
    {
        Building {
            opened: Vec::new(alloc),
            nodes: Sequence::new(alloc),
        }
    }

    // Reads an item that is no text and no CDATA.
    pub fn add(&mut self, alloc: Global, placed: &Placed<'a>) -> Result<(), TreeRefusal>
        requires readable { IsReadableItem (item_of placed.now.item) }
        requires no_text { IsFalse (is_text (item_of placed.now.item)) }
        ensures ok { OnOk result (Reads (placed_of placed.now ∷ []) self.old self.new) }
        ensures err { IfErr result (RefusesIn (placed_of placed.now ∷ []) self.old) }
    {
        match &placed.item {
            Item::Tag {
                name,
                attributes,
                empty,
            } => {
                let attributes = attributes.as_slice();
                self.add_tag(alloc, placed, name, attributes, *empty)
            }
            Item::EndTag(name) => self.close(name, placed),
            _ => Ok(()),
        }
    }

    // Reads texts and CDATA behind which no others stand.
    pub fn add_texts(&mut self, alloc: Global, texts: &[Placed<'a>]) -> Result<(), TreeRefusal>
        requires readable { AreReadable (map placed_of texts.now) }
        requires texts { AreTexts (map placed_of texts.now) }
        ensures ok { OnOk result (ReadsTexts (map placed_of texts.now) self.old self.new) }
        ensures err { IfErr result (RefusesIn (map placed_of texts.now) self.old) }
    {
        let Some((at, characters)) = characters(alloc, texts)? else {
            return Ok(());
        };
        let Some(parent) = self.parent() else {
            return Err(fault(TreeCode::TextOutside, at));
        };
        let node = Node {
            parent: Some(parent),
            at,
            kind: NodeKind::Characters(characters),
        };
        self.nodes.push(node)?;
        Ok(())
    }

    // The nodes, where all items are read; behind their end stands the rest of the text.
    pub fn finish(self, end: usize, rest: &[u8]) -> Result<Sequence<Node>, TreeRefusal>
        ensures ok { IfOk result (Finishes self.entry rest.now) }
        ensures err { IfErr result (RefusesEnd self.entry end rest.now) }
    {
        match self.fault_at_end(rest) {
            Some(code) => Err(fault(code, end)),
            None => Ok(self.nodes),
        }
    }

    // The number of the innermost open element.
    fn parent(&self) -> Option<u32>
        ensures { result ≡ innermost (reverse self.now.opened.items) }
    {
        let element = self.opened.last()?;
        Some(element.node)
    }

    // Reads a start tag or an empty element.
    fn add_tag(
        &mut self,
        alloc: Global,
        placed: &Placed<'a>,
        name: &'a str,
        attributes: &[Attribute<'a>],
        empty: bool,
    ) -> Result<(), TreeRefusal>
        requires readable { All HasReadableValue (map written attributes.now) }
        requires is_tag { (placed_of placed.now).item ≡ i.Tag name.now (map written attributes.now) empty }
        ensures ok { OnOk result (Reads (placed_of placed.now ∷ []) self.old self.new) }
        ensures err { IfErr result (RefusesIn (placed_of placed.now ∷ []) self.old) }
    {
        if self.is_after_root() {
            return Err(fault(TreeCode::TextOutside, placed.at));
        }
        let (declarations, element) = self.begin(alloc, placed, name, attributes)?;
        let node = Node {
            parent: self.parent(),
            at: placed.at,
            kind: NodeKind::Element(element),
        };
        if empty {
            self.nodes.push(node)?;
            return Ok(());
        }
        self.open(name, declarations, node)?;
        Ok(())
    }

    // Whether a further element would be a second root.
    fn is_after_root(&self) -> bool
        ensures { result ≡ is_after_root self.now }
    {
        self.opened.is_empty() && !self.nodes.is_empty()
    }

    // What a tag begins: what it declares, and its element, whose end is the tag's for now.
    fn begin(
        &self,
        alloc: Global,
        placed: &Placed<'a>,
        name: &'a str,
        attributes: &[Attribute<'a>],
    ) -> Result<(Sequence<Declaration<'a>>, Element), TreeRefusal>
        requires readable { All HasReadableValue (map written attributes.now) }
        ensures ok { IfOk result (λ r. BeginsIn self.now.opened.items name.now (map written attributes.now) placed.now.end r.0 r.1) }
        ensures err { IfErr result (RefusesTag self.now.opened.items name.now (map written attributes.now) placed.now.at) }
    {
        if self.opened.len() >= MOST_LEVELS {
            return Err(fault(TreeCode::TooDeep, placed.at));
        }
        if is_repeated(alloc, attributes)? {
            return Err(fault(TreeCode::DuplicateAttribute, placed.at));
        }
        let declarations = declarations(alloc, attributes)?;
        let own = declarations.as_slice();
        let opened = self.opened.as_slice();
        let Some(space) = space_of(alloc, own, opened, prefix_of(name))? else {
            return Err(fault(TreeCode::UnknownPrefix, placed.at));
        };
        let Some(attributes) = plain_attributes(alloc, own, opened, attributes)? else {
            return Err(fault(TreeCode::UnknownPrefix, placed.at));
        };
        let local = Text::make(alloc, local_of(name))?;
        let end = placed.end;
        Ok((
            declarations,
            Element {
                end,
                space,
                local,
                attributes,
            },
        ))
    }

    // Opens an element, and adds its node.
    fn open(
        &mut self,
        name: &'a str,
        declarations: Sequence<Declaration<'a>>,
        node: Node,
    ) -> Result<(), NoMemory>
        ensures { OnOk result (Opens name.now declarations.entry node self.old self.new) }
    {
        let Ok(number) = u32::try_from(self.nodes.len()) else {
            return Err(NoMemory);
        };
        self.opened.push(OpenElement {
            name,
            node: number,
            declarations,
        })?;
        self.nodes.push(node)
    }

    // Reads an end tag.
    fn close(&mut self, name: &str, placed: &Placed<'a>) -> Result<(), TreeRefusal>
        requires is_end_tag { (placed_of placed.now).item ≡ i.End_tag name.now }
        ensures ok { OnOk result (Reads (placed_of placed.now ∷ []) self.old self.new) }
        ensures err { IfErr result (RefusesIn (placed_of placed.now ∷ []) self.old) }
    {
        if !closes(name, self.opened.as_slice()) {
            return Err(fault(TreeCode::WrongEnd, placed.at));
        }
        if let Some(element) = self.opened.pop() {
            end_element(&mut self.nodes, element.node, placed.end);
        }
        Ok(())
    }

    // What is wrong where the items end, behind which stands the rest of the text.
    fn fault_at_end(&self, rest: &[u8]) -> Option<TreeCode>
        ensures { result ≡ fault_at_end (around self.now) rest.now }
    {
        if rest.starts_with(b"<!DOCTYPE") {
            Some(TreeCode::Doctype)
        } else if !rest.is_empty() {
            Some(TreeCode::NotAnItem)
        } else if !self.opened.is_empty() {
            Some(TreeCode::Unclosed)
        } else if self.nodes.is_empty() {
            Some(TreeCode::NoRoot)
        } else {
            None
        }
    }
}

fn fault(code: TreeCode, at: usize) -> TreeRefusal
    ensures { result ≡ refusal.Fault code at }
{
    TreeRefusal::Fault { code, at }
}

// Says where the element with this number ends.
fn end_element(nodes: &mut Sequence<Node>, number: u32, end: usize)
    ensures { nodes.new ≡ end_at number end nodes.old }
{
    if let Some(node) = nodes.get_mut(number as usize) {
        if let NodeKind::Element(element) = &mut node.kind {
            element.end = end;
        }
    }
}

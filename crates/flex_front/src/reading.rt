// The reading of a source: an Application with Labels and Buttons.

ghost use Rattle.std.specs.Prelude.{◌≡◌, ◌↔◌, IsTrue, IfErr, IfOk};
ghost use Rattle.flex_front.specs.Parts.{IsElementless, IsFineRow, IsNoElement, IsSourceless, element_of};
ghost use Rattle.flex_front.specs.Source.{AreElements, HasDocument, IsApplication, IsNewId, IsOneDocument, IsRefused, IsSmall, IsSmallDocument, IsSource, id_of, main_name};

mod parts;

use crate::document::{Document, Element};
use flex_base::{NoMemory, Sequence, Text};
use mxml_tree::{Node, Tree, TreeCode, TreeRefusal, read_tree};
use parts::{Part, is_application, read_part};
use std::alloc::Global;

/// Why a source isn't built.
#[derive(Clone, Copy, Debug, PartialEq, Eq)]
pub enum SourceRefusal {
    /// It has no tree, but this first fault.
    Fault {
        code: TreeCode,
        /// The place in its bytes, from 0.
        at: usize,
    },
    /// It is of a form that isn't built yet.
    NotYetBuilt,
    /// Memory was refused.
    NoMemory,
}

impl From<NoMemory> for SourceRefusal {
    ghost use Rattle.std.specs.Prelude.{◌≡◌};
    ghost use Rattle.flex_front.specs.declared.reading.SourceRefusal.TheVariants as refusal;

    ghost from_gives = { λ _ r. r ≡ refusal.NoMemory };

    fn from(_refusal: NoMemory) -> SourceRefusal {
        SourceRefusal::NoMemory
    }
}

/// The only name that a main source may have.
const MAIN_NAME: &str = "Main.mxml";

/// The greatest number of elements of a document.
const MOST_ELEMENTS: usize = 100;

/// The document of a source, which has this name and these bytes: what its tree says. MXML and Flex 4,
/// in this project's profile: an Application with up to 100 Labels and Buttons in it and nothing else.
///
/// A source with a fault of its text is refused with the first one, also under another name.
pub fn read_source(alloc: Global, name: &str, bytes: &[u8]) -> Result<Document, SourceRefusal>
    ensures document { IfOk result (HasDocument name.now bytes.now) }
    ensures small { IfOk result IsSmall }
    ensures refused { IfErr result (IsRefused name.now bytes.now) }
{
    let tree = match read_tree(alloc, bytes) {
        Ok(tree) => tree,
        Err(TreeRefusal::Fault { code, at }) => return Err(SourceRefusal::Fault { code, at }),
        Err(TreeRefusal::NoMemory) => return Err(SourceRefusal::NoMemory),
    };
    if !is_main(name) {
        return Err(SourceRefusal::NotYetBuilt);
    }
    read_document(alloc, tree.nodes())
}

// Whether a main source may have this name.
fn is_main(name: &str) -> bool
    ensures { IsTrue result ↔ name.now ≡ main_name }
{
    name == MAIN_NAME
}

// The document of a tree with these nodes.
fn read_document(alloc: Global, nodes: &[Node]) -> Result<Document, SourceRefusal>
    ensures found { IfOk result (IsSource nodes.now) }
    ensures refused { IfErr result (IsSourceless nodes.now) }
{
    let Some((root, rows)) = nodes.split_first() else {
        return Err(SourceRefusal::NotYetBuilt);
    };
    if !is_application(root) {
        return Err(SourceRefusal::NotYetBuilt);
    }
    let elements = read_elements(alloc, rows)?;
    Ok(Document { elements })
}

// The elements that the nodes behind the root are.
fn read_elements(alloc: Global, rows: &[Node]) -> Result<Sequence<Element>, SourceRefusal>
    ensures found { IfOk result (AreElements rows.now) }
    ensures refused { IfErr result (IsElementless rows.now) }
{
    let mut elements = Sequence::new(alloc);
    for row in rows {
        if elements.len() == MOST_ELEMENTS {
            return Err(SourceRefusal::NotYetBuilt);
        }
        let element = read_element(alloc, row)?;
        if !is_new(id_of(&element), elements.as_slice()) {
            return Err(SourceRefusal::NotYetBuilt);
        }
        elements.push(element)?;
    }
    Ok(elements)
}

// The element that a node is.
fn read_element(alloc: Global, row: &Node) -> Result<Element, SourceRefusal>
    ensures found { IfOk result (IsFineRow row.now) }
    ensures refused { IfErr result (IsNoElement row.now) }
{
    let Some(part) = read_part(row) else {
        return Err(SourceRefusal::NotYetBuilt);
    };
    let element = make_element(alloc, part)?;
    Ok(element)
}

// An element of its own, with the texts of a part of a source.
fn make_element(alloc: Global, part: Part<'_>) -> Result<Element, NoMemory>
    ensures { IfOk result (λ element. element ≡ element_of part.entry) }
{
    match part {
        Part::Label { id, text } => {
            let id = Text::make(alloc, id)?;
            let text = Text::make(alloc, text)?;
            Ok(Element::Label { id, text })
        }
        Part::Button { id, click: None } => {
            let id = Text::make(alloc, id)?;
            Ok(Element::Button { id, click: None })
        }
        Part::Button {
            id,
            click: Some(text),
        } => {
            let id = Text::make(alloc, id)?;
            let text = Text::make(alloc, text)?;
            Ok(Element::Button {
                id,
                click: Some(text),
            })
        }
    }
}

// The id of an element.
fn id_of(element: &Element) -> &str
    ensures { result.now ≡ id_of element.now }
{
    match element {
        Element::Label { id, .. } | Element::Button { id, .. } => id.as_str(),
    }
}

// Whether no element has this id.
fn is_new(id: &str, elements: &[Element]) -> bool
    ensures { IsTrue result ↔ IsNewId id.now elements.now }
{
    elements.iter().all(|element| id_of(element) != id)
}

/// A source has at most one document, and that document is small.
pub fn laws_of_sources()
    ensures one { IsOneDocument }
    ensures small { IsSmallDocument }
{}

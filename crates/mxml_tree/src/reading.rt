// Documents, read from their text.

ghost use Rattle.std.specs.Prelude.{◌≤◌, [], IfErr, IfOk, length};
ghost use Rattle.mxml_tree.specs.Building.{Stands};
ghost use Rattle.mxml_tree.specs.IsTree.{HasNodes, IsRefusalOf};
ghost use Rattle.mxml_tree.specs.Readable.{AreReadable};
ghost use Rattle.mxml_tree.specs.Reading.{Advances, RefusesAt, RefusesItems, placed_in};

use crate::building::Building;
use crate::fault::{TreeCode, TreeRefusal};
use crate::texts::split_texts;
use crate::tree::Tree;
use mxml_items::{Placed, read_items};
use std::alloc::Global;

/// The tree of an MXML document's text, or the first fault of the text. XML 1.0 and Namespaces in
/// XML 1.0, in the profile of this project: items are nested, with one root; no document type; at most
/// 64 levels. A first U+FEFF is passed over.
///
/// Of the faults that an item has the one that comes first in `TreeCode` counts. That the text isn't
/// UTF-8 comes before all others.
pub fn read_tree(alloc: Global, text: &[u8]) -> Result<Tree, TreeRefusal>
    ensures tree { IfOk result (HasNodes text.now) }
    ensures refused { IfErr result (IsRefusalOf text.now) }
{
    if let Err(error) = str::from_utf8(text) {
        let at = error.valid_up_to();
        return Err(TreeRefusal::Fault {
            code: TreeCode::NotUtf8,
            at,
        });
    }
    let found = read_items(alloc, text)?;
    let building = build(alloc, found.items.as_slice())?;
    let (_, rest) = text.split_at(found.end);
    let nodes = building.finish(found.end, rest)?;
    let tree = Tree::of(nodes)?;
    Ok(tree)
}

// The state of a reading, where all items are read.
fn build<'a>(alloc: Global, items: &[Placed<'a>]) -> Result<Building<'a>, TreeRefusal>
    requires { AreReadable (placed_in items.now) }
    ensures ok { IfOk result (Stands (placed_in items.now) []) }
    ensures err { IfErr result (RefusesItems items.now) }
{
    let mut building = Building::new(alloc);
    let mut at = 0;
    while at < items.len() {
        at += advance(alloc, &mut building, &items[at..])?;
    }
    Ok(building)
}

// Reads the texts and CDATA at the front, or the one other item there, and gives how many there are.
fn advance<'a>(
    alloc: Global,
    building: &mut Building<'a>,
    items: &[Placed<'a>],
) -> Result<usize, TreeRefusal>
    requires readable { AreReadable (placed_in items.now) }
    requires some { 1 ≤ length items.now }
    ensures ok { IfOk result (Advances items.now building.old building.new) }
    ensures err { IfErr result (RefusesAt items.now building.old) }
{
    let (texts, _) = split_texts(items);
    if texts.is_empty() {
        building.add(alloc, &items[0])?;
        return Ok(1);
    }
    building.add_texts(alloc, texts)?;
    Ok(texts.len())
}

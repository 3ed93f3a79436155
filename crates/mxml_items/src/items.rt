// The items of a text, one behind another.

ghost use Rattle.std.specs.Prelude.{◌+◌, ◌-◌, ◌<◌, ◌≤◌, ◌^◌, length, IfOk, MatchOption};
ghost use Rattle.mxml_items.specs.Items.{BeginsWithItem, NoItemBegins};
ghost use Rattle.mxml_items.specs.Reading.{item_of};
ghost use Rattle.mxml_items.specs.Texts.{HasItems, IsBegun, IsPlacedAt, placed_of};

use crate::bytes::behind;
use crate::item::Item;
use crate::tags::{enclosed, end_tag, tag, words};
use flex_base::{NoMemory, Sequence};
use std::alloc::Global;

// The item at the front of a text that begins at a place, and what stands behind it.
pub fn item<'a>(
    alloc: Global,
    text: &'a [u8],
    at: usize,
) -> Result<Option<(Item<'a>, &'a [u8])>, NoMemory>
    requires { at + length text.now < 2 ^ 64 }
    ensures { IfOk result (λ r. MatchOption r (NoItemBegins at text.now) (λ f. BeginsWithItem (item_of f.0) at text.now f.1.now)) }
{
    if let Some((_, rest)) = enclosed(text, b"<?", b"?>") {
        return Ok(Some((Item::Instruction, rest)));
    }
    if let Some((_, rest)) = enclosed(text, b"<!--", b"-->") {
        return Ok(Some((Item::Comment, rest)));
    }
    if let Some((content, rest)) = enclosed(text, b"<![CDATA[", b"]]>") {
        return Ok(Some((Item::CData(content), rest)));
    }
    if let Some((name, rest)) = end_tag(text) {
        return Ok(Some((Item::EndTag(name), rest)));
    }
    if let Some((content, rest)) = words(text) {
        return Ok(Some((Item::Words(content), rest)));
    }
    tag(alloc, text, at)
}

/// An item where it stands in a file.
#[derive(Drop)]
pub struct Placed<'a> {
    pub item: Item<'a>,
    /// The place of its first byte, in bytes from 0.
    pub at: usize,
    /// The place past its last byte.
    pub end: usize,
}

/// The items of a text, one behind another, as far as there are any.
#[derive(Drop)]
pub struct Items<'a> {
    pub items: Sequence<Placed<'a>>,
    /// The place past the last item: the text's end, or the place where no item begins.
    pub end: usize,
}

/// The items of a document's text, each the longest that stands at its place, behind a first U+FEFF,
/// which is passed over. XML 1.0 in the profile of this project: an instruction, a comment, CDATA,
/// a start tag or an empty element, an end tag, or a text. Whether they are nested is not looked at.
pub fn read_items(alloc: Global, text: &[u8]) -> Result<Items<'_>, NoMemory>
    ensures { IfOk result (HasItems text.now) }
{
    let mut items = Sequence::new(alloc);
    let mut rest = behind_mark(text);
    while let Some((placed, unread)) = next_item(alloc, text.len(), rest)? {
        items.push(placed)?;
        rest = unread;
    }
    let end = text.len() - rest.len();
    Ok(Items { items, end })
}

// What stands behind a first U+FEFF, or the whole text.
fn behind_mark(text: &[u8]) -> &[u8]
    ensures { IsBegun text.now result.now }
{
    match behind(text, b"\xEF\xBB\xBF") {
        Some(rest) => rest,
        None => text,
    }
}

// The item at the front of the last part of a text of this length, and what stands behind it.
fn next_item(
    alloc: Global,
    size: usize,
    rest: &[u8],
) -> Result<Option<(Placed<'_>, &[u8])>, NoMemory>
    requires { length rest.now ≤ size }
    ensures { IfOk result (λ r. MatchOption r (NoItemBegins (size - length rest.now) rest.now) (λ f. IsPlacedAt size rest.now (placed_of f.0) f.1.now)) }
{
    let at = size - rest.len();
    match item(alloc, rest, at)? {
        Some((item, unread)) => {
            let end = size - unread.len();
            Ok(Some((Placed { item, at, end }, unread)))
        }
        None => Ok(None),
    }
}

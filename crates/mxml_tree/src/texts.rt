// Texts and CDATA, and the nodes that they make.

ghost use Rattle.std.specs.Prelude.{◌≡◌, ◌∷◌, ◌++◌, [], IfOk, IsTrue, MatchOption, map};
ghost use Rattle.mxml_items.specs.Pieces.{is_white};
ghost use Rattle.mxml_items.specs.Texts.{placed_of};
ghost use Rattle.mxml_items.specs.Reading.{item_of};
ghost use Rattle.mxml_tree.specs.Readable.{AreReadable, HasMarks, IsReadableItem};
ghost use Rattle.mxml_tree.specs.Texts.{AreAllTexts, AreCharacters, AreTexts, AreTextsIn, IsTextIn, is_text, is_white_text, not_white, span_of};

use crate::tree::Characters;
use crate::values::{cdata_text, text_of};
use flex_base::{NoMemory, Text};
use mxml_items::{Item, Placed};
use std::alloc::Global;

// Whether an item is a text or CDATA.
pub fn is_text(item: &Item<'_>) -> bool
    ensures { result ≡ is_text (item_of item.now) }
{
    matches!(item, Item::Words(_) | Item::CData(_))
}

// Whether an item is a text that is written with white space alone.
pub fn is_white_text(item: &Item<'_>) -> bool
    ensures { result ≡ is_white_text (item_of item.now) }
{
    match item {
        Item::Words(content) => content.iter().all(|byte| is_white(*byte)),
        _ => false,
    }
}

fn is_white(byte: u8) -> bool
    ensures { result ≡ is_white byte }
{
    matches!(byte, b' ' | b'\t' | b'\n' | b'\r')
}

// The texts and CDATA at the front of items, and the others.
pub fn split_texts<'i, 'a>(items: &'i [Placed<'a>]) -> (&'i [Placed<'a>], &'i [Placed<'a>])
    ensures is { items.now ≡ result.0.now ++ result.1.now }
    ensures all { AreAllTexts (map placed_of result.0.now) (map placed_of result.1.now) }
{
    let count = items
        .iter()
        .position(|placed| !is_text(&placed.item))
        .unwrap_or(items.len());
    items.split_at(count)
}

// The place and the characters of the node that texts and CDATA make, or `None` where all of them are
// texts written with white space alone.
pub fn characters(
    alloc: Global,
    texts: &[Placed<'_>],
) -> Result<Option<(usize, Characters)>, NoMemory>
    requires readable { AreReadable (map placed_of texts.now) }
    requires texts { AreTexts (map placed_of texts.now) }
    ensures { let items = map placed_of texts.now in
        IfOk result (λ r. MatchOption r (not_white items ≡ []) (λ node. AreCharacters node.0 node.1 items)) }
{
    let Some((first, others)) = first_not_white(texts) else {
        return Ok(None);
    };
    let characters = match first_not_white(others) {
        None => Characters {
            text: text_in(alloc, &first.item)?,
            span: span_of(first),
        },
        Some(_) => Characters {
            text: joined_text(alloc, texts)?,
            span: None,
        },
    };
    Ok(Some((first.at, characters)))
}

// The first item that isn't a text written with white space alone, and those behind it.
fn first_not_white<'i, 'a>(texts: &'i [Placed<'a>]) -> Option<(&'i Placed<'a>, &'i [Placed<'a>])>
    ensures { let items = not_white (map placed_of texts.now) in
        MatchOption result (items ≡ []) (λ r. items ≡ placed_of r.0.now ∷ not_white (map placed_of r.1.now)) }
{
    for (index, placed) in texts.iter().enumerate() {
        if !is_white_text(&placed.item) {
            return Some((placed, &texts[index + 1..]));
        }
    }
    None
}

// The joined characters of texts and CDATA, but for texts written with white space alone.
fn joined_text(alloc: Global, texts: &[Placed<'_>]) -> Result<Text, NoMemory>
    requires readable { AreReadable (map placed_of texts.now) }
    requires texts { AreTexts (map placed_of texts.now) }
    ensures { IfOk result (AreTextsIn (not_white (map placed_of texts.now))) }
{
    let mut joined = String::new(alloc);
    for placed in texts {
        if !is_white_text(&placed.item) {
            let text = text_in(alloc, &placed.item)?;
            joined.push_str(text.as_str())?;
        }
    }
    Text::make(alloc, &joined)
}

// The characters of a text or CDATA.
fn text_in(alloc: Global, item: &Item<'_>) -> Result<Text, NoMemory>
    requires readable { IsReadableItem (item_of item.now) }
    requires text { IsTrue (is_text (item_of item.now)) }
    ensures { IfOk result (IsTextIn (item_of item.now)) }
{
    match item {
        Item::Words(content) => text_of(alloc, content),
        Item::CData(content) => cdata_text(alloc, content),
        _ => unreachable!(),
    }
}

// The bytes of the file between which the characters of an item stand: `None` where a reference is
// among them.
fn span_of(placed: &Placed<'_>) -> Option<(usize, usize)>
    requires { HasMarks (placed_of placed.now) }
    ensures { result ≡ span_of (placed_of placed.now) }
{
    let (at, end) = (placed.at, placed.end);
    match &placed.item {
        Item::Words(content) if !content.contains(&b'&') => Some((at, end)),
        Item::CData(_) => Some((at + b"<![CDATA[".len(), end - b"]]>".len())),
        _ => None,
    }
}

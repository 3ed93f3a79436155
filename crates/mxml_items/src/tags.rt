// Tags, and what else stands between marks.

ghost use Rattle.std.specs.Prelude.{◌≡◌, ◌++◌, ◌+◌, ◌<◌, ◌^◌, length, IfOk, MatchOption};
ghost use Rattle.mxml_items.specs.Reading.{BeginsWithEnclosed, BeginsWithEndTag, BeginsWithWords, HasNoClosing, HasNoEnclosed, HasNoEndTag, HasNoTag, HasNoWords, IsTagAt};
ghost use Rattle.mxml_items.specs.Items.{closing};

use crate::attributes::attributes;
use crate::bytes::{ByteKind, around, behind, run};
use crate::item::Item;
use crate::names::name;
use crate::pieces::pieces;
use flex_base::NoMemory;
use std::alloc::Global;

// What stands between an opening at the front of a text and the first ending behind it, and what
// stands behind that.
pub fn enclosed<'a>(text: &'a [u8], opening: &[u8], ending: &[u8]) -> Option<(&'a [u8], &'a [u8])>
    ensures { MatchOption result (HasNoEnclosed opening.now ending.now text.now) (λ r. BeginsWithEnclosed opening.now ending.now text.now r.0.now r.1.now) }
{
    let body = behind(text, opening)?;
    around(body, ending)
}

// The name of the end tag at the front of a text, and what stands behind the tag.
pub fn end_tag(text: &[u8]) -> Option<(&str, &[u8])>
    ensures { MatchOption result (HasNoEndTag text.now) (λ r. BeginsWithEndTag text.now r.0.now r.1.now) }
{
    let body = behind(text, b"</")?;
    let (name, behind_name) = name(body)?;
    let (_, end) = run(ByteKind::White, behind_name);
    let rest = behind(end, b">")?;
    Some((name, rest))
}

// The text item at the front of a text, and what stands behind it.
pub fn words(text: &[u8]) -> Option<(&[u8], &[u8])>
    ensures { MatchOption result (HasNoWords text.now) (λ r. BeginsWithWords text.now r.0.now r.1.now) }
{
    let (content, rest) = pieces(None, text);
    if content.is_empty() {
        None
    } else {
        Some((content, rest))
    }
}

// The start tag or empty element at the front of a text that begins at a place, and what stands
// behind it.
pub fn tag<'a>(
    alloc: Global,
    text: &'a [u8],
    at: usize,
) -> Result<Option<(Item<'a>, &'a [u8])>, NoMemory>
    requires { at + length text.now < 2 ^ 64 }
    ensures { IfOk result (λ r. MatchOption r (HasNoTag text.now) (λ f. IsTagAt at text.now f.0 f.1.now)) }
{
    let Some(body) = behind(text, b"<") else {
        return Ok(None);
    };
    let Some((name, behind_name)) = name(body) else {
        return Ok(None);
    };
    let (attributes, behind_attributes) = attributes(alloc, behind_name, at + 1 + name.len())?;
    let (_, end) = run(ByteKind::White, behind_attributes);
    let Some((empty, rest)) = closing(end) else {
        return Ok(None);
    };
    let tag = Item::Tag {
        name,
        attributes,
        empty,
    };
    Ok(Some((tag, rest)))
}

// Whether `/>` or `>` stands at the front of a text, and what stands behind it.
fn closing(text: &[u8]) -> Option<(bool, &[u8])>
    ensures { MatchOption result (HasNoClosing text.now) (λ r. text.now ≡ closing r.0 ++ r.1.now) }
{
    if let Some(rest) = behind(text, b"/>") {
        return Some((true, rest));
    }
    let rest = behind(text, b">")?;
    Some((false, rest))
}

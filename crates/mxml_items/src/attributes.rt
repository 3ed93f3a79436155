// Attributes.

ghost use Rattle.std.specs.Prelude.{◌≡◌, ◌⊎◌, ◌+◌, ◌<◌, ◌^◌, length, map, IfOk, MatchOption};
ghost use Rattle.mxml_items.specs.Reading.{BeginsWithAttribute, BeginsWithAttributes, BeginsWithGiven, BeginsWithQuoted, BeginsWithValue, HasNoAttribute, HasNoGiven, HasNoQuoted, HasNoValue, written};

use crate::bytes::{ByteKind, behind, run};
use crate::item::Attribute;
use crate::names::name;
use crate::pieces::pieces;
use flex_base::{NoMemory, Sequence};
use std::alloc::Global;

// The attributes at the front of a text that begins at a place, and what stands behind them.
pub fn attributes<'a>(
    alloc: Global,
    text: &'a [u8],
    at: usize,
) -> Result<(Sequence<Attribute<'a>>, &'a [u8]), NoMemory>
    requires { at + length text.now < 2 ^ 64 }
    ensures { IfOk result (λ r. BeginsWithAttributes at text.now (map written r.0) r.1.now) }
{
    let mut list = Sequence::new(alloc);
    let mut rest = text;
    while let Some((attribute, unread)) = attribute(rest, at + (text.len() - rest.len())) {
        list.push(attribute)?;
        rest = unread;
    }
    Ok((list, rest))
}

// The attribute at the front of a text that begins at a place, and what stands behind it.
fn attribute(text: &[u8], at: usize) -> Option<(Attribute<'_>, &[u8])>
    requires { at + length text.now < 2 ^ 64 }
    ensures { MatchOption result (HasNoAttribute text.now) (λ r. BeginsWithAttribute at text.now (written r.0) r.1.now) }
{
    let (gap, behind_gap) = run(ByteKind::White, text);
    if gap.is_empty() {
        return None;
    }
    let (name, behind_name) = name(behind_gap)?;
    let (value, rest) = value(behind_name)?;
    let at = at + gap.len();
    Some((Attribute { at, name, value }, rest))
}

// The value behind `=` at the front of a text, with white space around the `=` or not, and what
// stands behind its quotes.
fn value(text: &[u8]) -> Option<(&[u8], &[u8])>
    ensures { MatchOption result (HasNoGiven text.now) (λ r. BeginsWithGiven text.now r.0.now r.1.now) }
{
    let (_, behind_white) = run(ByteKind::White, text);
    let behind_equals = behind(behind_white, b"=")?;
    let (_, value) = run(ByteKind::White, behind_equals);
    quoted(value)
}

// The value in quotes at the front of a text, and what stands behind them.
fn quoted(text: &[u8]) -> Option<(&[u8], &[u8])>
    ensures { MatchOption result (HasNoQuoted text.now) (λ r. BeginsWithQuoted text.now r.0.now r.1.now) }
{
    if let Some(body) = behind(text, b"\"") {
        return quoted_by(b'"', body);
    }
    let body = behind(text, b"'")?;
    quoted_by(b'\'', body)
}

// The value up to a quote, and what stands behind that.
fn quoted_by(quote: u8, body: &[u8]) -> Option<(&[u8], &[u8])>
    requires { (quote ≡ 34) ⊎ (quote ≡ 39) }
    ensures { MatchOption result (HasNoValue quote body.now) (λ r. BeginsWithValue quote body.now r.0.now r.1.now) }
{
    let (value, end) = pieces(Some(quote), body);
    let rest = behind(end, &[quote])?;
    Some((value, rest))
}

// Texts with parts in braces, and how many bindings they are.

ghost use Rattle.std.specs.Prelude.{◌≡◌};
ghost use Rattle.document_sites.specs.BindingTexts as texts;
ghost use Rattle.document_sites.specs.BindingTexts.{binding_text};
ghost use Rattle.document_texts.specs.Scanning.{closes_at_end, is_inside, is_one_part};

use crate::scanning::{Stand, next_stand};

/// Whether a text has a `{` that no backslash escapes. MXML 2009.
#[tactic(auto, using(crate::proofs::Pieces::all_plain))]
pub fn is_binding(text: &str) -> bool
    ensures { result ≡ texts.is_binding text.now }
{
    let mut stand = Stand::Outside;
    let mut rest = text.as_bytes();
    while let Some((byte, others)) = rest.split_first() {
        stand = next_stand(stand, *byte, others);
        if is_inside(stand) {
            return true;
        }
        rest = others;
    }
    false
}

fn is_inside(stand: Stand) -> bool
    ensures { result ≡ is_inside stand }
{
    matches!(stand, Stand::Inside)
}

/// How many bindings a text with parts is: two where it is two-way, and otherwise one.
pub fn bindings_of_text(text: &str) -> u32
    ensures { result ≡ texts.bindings_of_text text.now }
{
    if is_two_way(text) { 2 } else { 1 }
}

/// Whether a text is `@` and one part, and nothing else. Using Flex 4.
#[tactic(auto, using(crate::proofs::TwoWay::two_way_text))]
pub fn is_two_way(text: &str) -> bool
    ensures { result ≡ texts.is_two_way (binding_text text.now) }
{
    match text.as_bytes().split_first() {
        Some((first, others)) => *first == b'@' && is_one_part(others),
        None => false,
    }
}

// Whether a text is one part in braces, and nothing else.
fn is_one_part(text: &[u8]) -> bool
    ensures { result ≡ is_one_part text.now }
{
    match text.split_first() {
        Some((first, part)) => *first == b'{' && closes_at_end(part),
        None => false,
    }
}

// Whether the first `}` is the last byte.
#[tactic(auto, using(crate::proofs::TwoWay::ends_there, crate::proofs::TwoWay::goes_past, crate::proofs::TwoWay::never_closed))]
fn closes_at_end(part: &[u8]) -> bool
    ensures { result ≡ closes_at_end part.now }
{
    let mut rest = part;
    while let Some((byte, others)) = rest.split_first() {
        if *byte == b'}' {
            return others.is_empty();
        }
        rest = others;
    }
    false
}

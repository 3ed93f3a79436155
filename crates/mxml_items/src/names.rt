// Names.

ghost use Rattle.std.specs.Prelude.{◌≡◌, ◌↔◌, IsTrue, MatchOption};
ghost use Rattle.mxml_items.specs.Names.{BeginsWithName, BeginsWithStart, HasNoName, HasNoStart, IsName, IsPart, continues_part, starts_part};
ghost use Rattle.std.specs.List.{list_all};
ghost use Rattle.std.specs.Str.{chars};

use crate::bytes::{ByteKind, run};

// The name that a text begins with, and what stands behind it, where nothing stands behind it that
// names are made of.
pub fn name(text: &[u8]) -> Option<(&str, &[u8])>
    ensures { MatchOption result (HasNoName text.now) (λ r. BeginsWithName text.now r.0.now r.1.now) }
{
    let (front, rest) = run(ByteKind::Name, text);
    match str::from_utf8(front) {
        Ok(name) => {
            if is_name(name) {
                Some((name, rest))
            } else {
                None
            }
        }
        Err(_) => None,
    }
}

// Whether a word is one part of a name, or two joined by `:`.
fn is_name(word: &str) -> bool
    ensures { IsTrue result ↔ IsName word.now }
{
    match word.split_once(':') {
        Some((prefix, local)) => is_part(prefix) && is_part(local),
        None => is_part(word),
    }
}

// Whether a word is a part of a name.
fn is_part(word: &str) -> bool
    ensures { IsTrue result ↔ IsPart word.now }
{
    match behind_start(word) {
        Some(others) => all_continue(others),
        None => false,
    }
}

// What stands behind the first character, where that may begin a part of a name.
fn behind_start(word: &str) -> Option<&str>
    ensures { MatchOption result (HasNoStart word.now) (λ rest. BeginsWithStart word.now rest.now) }
{
    word.strip_prefix(|c: char| starts_part(c))
}

// Whether a part of a name may go on with each of these characters.
fn all_continue(others: &str) -> bool
    ensures { result ≡ list_all continues_part (chars others.now) }
{
    others.chars().all(|c| continues_part(c))
}

// Whether a part of a name may begin with a character.
fn starts_part(c: char) -> bool
    ensures { result ≡ starts_part c }
{
    unicode_ident::is_xid_start(c) || c == '_'
}

// Whether a part of a name may go on with a character.
fn continues_part(c: char) -> bool
    ensures { result ≡ continues_part c }
{
    unicode_ident::is_xid_continue(c) || c == '-' || c == '.'
}

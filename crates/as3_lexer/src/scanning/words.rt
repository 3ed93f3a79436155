// Words: identifiers and keywords.

ghost use Rattle.std.specs.Prelude.{◌≡◌, ◌≤◌, IfSome, length};
ghost use Rattle.std.specs.Str.{chars};
ghost use Rattle.as3_lexer.specs.Forms.{continues_word, starts_word};
ghost use Rattle.as3_lexer.specs.Scanning.{continued_len, word_len};

use unicode_ident::{is_xid_continue, is_xid_start};

// The length of the word that begins a text.
pub fn word_len(text: &str) -> Option<usize>
    ensures value { result ≡ word_len text.now }
    ensures within { IfSome result (λ len. len ≤ length text.now) }
{
    let mut characters = text.chars();
    let first = characters.next()?;
    if !starts_word(first) {
        return None;
    }
    Some(continued_len(characters.as_str()) + first.len_utf8())
}

// How many bytes the characters at the front of a text have that continue a word.
fn continued_len(text: &str) -> usize
    ensures value { result ≡ continued_len (chars text.now) }
    ensures within { result ≤ length text.now }
{
    let mut len = 0;
    for character in text.chars() {
        if !continues_word(character) {
            return len;
        }
        len += character.len_utf8();
    }
    len
}

// Whether a character begins a word.
fn starts_word(character: char) -> bool
    ensures { result ≡ starts_word character }
{
    is_xid_start(character) || character == '$' || character == '_'
}

// Whether a character continues a word.
fn continues_word(character: char) -> bool
    ensures { result ≡ continues_word character }
{
    is_xid_continue(character) || character == '$'
}

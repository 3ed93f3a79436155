// The longest match at the front of a text.

ghost use Rattle.std.specs.Prelude.{◌≡◌, MatchOption};
ghost use Rattle.as3_lexer.specs.Tokens.{NothingBegins};
ghost use Rattle.as3_lexer.specs.Spelling.{keyword_of};
ghost use Rattle.as3_lexer.specs.Scanning.{Begins, match_of, mark_match, word_kind};

mod gaps;
mod numbers;
mod texts;
mod words;

use crate::keyword::keyword_of;
use crate::mark::mark_of;
use crate::token::TokenKind;
pub use gaps::behind;
use gaps::gap_len;
use numbers::number_len;
use texts::text_len;
use words::word_len;

// What was found at the front of a text.
#[derive(Clone, Copy)]
pub struct Match {
    // The kind of a token: none for white space and for a comment.
    pub kind: Option<TokenKind>,
    // How many bytes it has.
    pub len: usize,
}

// The longest match at the front of a text.
pub fn longest_match(text: &str) -> Option<Match>
    ensures { MatchOption result (NothingBegins text.now) (λ found. Begins found text.now) }
{
    match_of(text)
}

// The same, by the forms of the matches.
fn match_of(text: &str) -> Option<Match>
    ensures { result ≡ match_of text.now }
{
    if let Some(len) = gap_len(text) {
        return Some(Match { kind: None, len });
    }
    if let Some(len) = word_len(text) {
        let kind = Some(word_kind(&text.as_bytes()[..len]));
        return Some(Match { kind, len });
    }
    if let Some(len) = number_len(text) {
        let kind = Some(TokenKind::Number);
        return Some(Match { kind, len });
    }
    if let Some(len) = text_len(text.as_bytes()) {
        let kind = Some(TokenKind::Text);
        return Some(Match { kind, len });
    }
    mark_match(text)
}

// The kind of a word.
fn word_kind(word: &[u8]) -> TokenKind
    ensures { result ≡ word_kind (keyword_of word.now) }
{
    match keyword_of(word) {
        Some(keyword) => TokenKind::Keyword(keyword),
        None => TokenKind::Identifier,
    }
}

// The longest mark at the front of a text, unless a comment begins there that isn't closed.
fn mark_match(text: &str) -> Option<Match>
    ensures { result ≡ mark_match text.now }
{
    if behind(text, "/*").is_some() {
        return None;
    }
    let mark = mark_of(text)?;
    let kind = Some(TokenKind::Mark(mark));
    let len = mark.spelling().len();
    Some(Match { kind, len })
}

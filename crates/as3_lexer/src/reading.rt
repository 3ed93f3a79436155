// The reading of a text.

ghost use Rattle.std.specs.Prelude.{◌≡◌, IfOk, IfErr, drop};
ghost use Rattle.as3_lexer.specs.Tokens.{HasTokens, IsRefusal, start_of};
ghost use Rattle.as3_lexer.specs.Laws.{IsReadable, IsReadOneWay, HasOneList, HasOneBadToken};

use crate::scanning::{behind, longest_match};
use crate::token::{Token, TokenList};
use flex_base::NoMemory;
use std::alloc::Global;

/// Why a text has no tokens.
#[derive(Clone, Copy, Debug, PartialEq, Eq)]
pub enum LexRefusal {
    /// At this place, counted in bytes from the beginning of the text, and at none before it, no
    /// token, white space or comment begins. A text in quotation marks and a block comment that
    /// aren't closed begin none.
    BadToken(usize),
    /// Memory was refused.
    NoMemory,
}

impl From<NoMemory> for LexRefusal {
    ghost use Rattle.std.specs.Prelude.{◌≡◌};
    ghost use Rattle.as3_lexer.specs.declared.reading.LexRefusal.{LexRefusal};

    ghost from_gives = { λ _ refusal. refusal ≡ LexRefusal.NoMemory };

    fn from(_refusal: NoMemory) -> LexRefusal {
        LexRefusal::NoMemory
    }
}

/// The tokens of a text, each the longest that begins at its place; between them stand white space
/// and comments. A first U+FEFF is passed over, and is counted in the places.
pub fn tokens(alloc: Global, text: &str) -> Result<TokenList, LexRefusal>
    ensures tokens { IfOk result (HasTokens text.now) }
    ensures bad { IfErr result (IsRefusal text.now) }
{
    let mut tokens = TokenList::new(alloc);
    let mut rest = behind_mark(text);
    while !rest.is_empty() {
        let start = text.len() - rest.len();
        let Some(found) = longest_match(rest) else {
            return Err(LexRefusal::BadToken(start));
        };
        if let Some(kind) = found.kind {
            let end = start + found.len;
            tokens.push(Token { start, end, kind })?;
        }
        rest = &rest[found.len..];
    }
    Ok(tokens)
}

// What stands behind a first U+FEFF of a text.
fn behind_mark(text: &str) -> &str
    ensures { result.now ≡ drop (start_of text.now) text.now }
{
    behind(text, "\u{feff}").unwrap_or(text)
}

/// A text has tokens or a bad token, and not both; it has one list of tokens, and one place of its
/// first bad token.
pub fn laws_of_tokens()
    ensures readable { IsReadable }
    ensures one_way { IsReadOneWay }
    ensures one_list { HasOneList }
    ensures one_bad_token { HasOneBadToken }
{}

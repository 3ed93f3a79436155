// The kinds of tokens by their numbers in the table.

ghost use Rattle.std.specs.Prelude.{◌≡◌, IfOk, Some, None};
ghost use Rattle.std.specs.List.{last_or};
ghost use Rattle.as3_parser.specs.Kinds.{keyword_number, kind_number, kinds_of, mark_number};
ghost use Rattle.as3_parser.specs.Syntax.{asked, lacks_semicolon};

use crate::start::Start;
use as3_lexer::{Keyword, Mark, Token, TokenKind};
use std::alloc::{AllocError, Global};

/// The kind of a token that no production names.
const OTHER: u8 = 60;

/// The kinds of tokens, and of the `;` that is added to a handler where it lacks one.
pub fn kinds_asked(alloc: Global, start: Start, tokens: &[Token]) -> Result<Vec<u8>, AllocError>
    ensures { IfOk result (λ kinds. kinds.items ≡ asked start tokens.now) }
{
    let mut kinds = kinds_of(alloc, tokens)?;
    if matches!(start, Start::Handler) && lacks_semicolon(kinds.as_slice()) {
        kinds.push(mark_number(Mark::Semicolon))?;
    }
    Ok(kinds)
}

// Whether a handler lacks its last `;`.
fn lacks_semicolon(kinds: &[u8]) -> bool
    ensures { result ≡ lacks_semicolon (last_or None kinds.now) }
{
    match kinds.last() {
        None => false,
        Some(kind) => {
            *kind != mark_number(Mark::Semicolon) && *kind != mark_number(Mark::RightBrace)
        }
    }
}

// The kinds of tokens, in order.
fn kinds_of(alloc: Global, tokens: &[Token]) -> Result<Vec<u8>, AllocError>
    ensures { IfOk result (λ kinds. kinds.items ≡ kinds_of tokens.now) }
{
    tokens
        .iter()
        .map(|token| kind_number(token.kind))
        .collect(alloc)
}

// The number of a kind.
fn kind_number(kind: TokenKind) -> u8
    ensures { result ≡ kind_number kind }
{
    match kind {
        TokenKind::Identifier => 3,
        TokenKind::Keyword(keyword) => keyword_number(keyword),
        TokenKind::Number => 53,
        TokenKind::Text => 16,
        TokenKind::Mark(mark) => mark_number(mark),
    }
}

// The number of a keyword.
fn keyword_number(keyword: Keyword) -> u8
    ensures { result ≡ keyword_number keyword }
{
    match keyword {
        Keyword::As => OTHER,
        Keyword::Break => 30,
        Keyword::Case => OTHER,
        Keyword::Catch => OTHER,
        Keyword::Class => 2,
        Keyword::Const => OTHER,
        Keyword::Continue => 31,
        Keyword::Default => OTHER,
        Keyword::Delete => OTHER,
        Keyword::Do => 28,
        Keyword::Else => 26,
        Keyword::Extends => 4,
        Keyword::False => 55,
        Keyword::Finally => OTHER,
        Keyword::For => 29,
        Keyword::Function => 23,
        Keyword::If => 25,
        Keyword::Implements => OTHER,
        Keyword::Import => 6,
        Keyword::In => OTHER,
        Keyword::InstanceOf => OTHER,
        Keyword::Interface => OTHER,
        Keyword::Internal => OTHER,
        Keyword::Is => OTHER,
        Keyword::Native => OTHER,
        Keyword::New => 59,
        Keyword::Null => 56,
        Keyword::Override => 20,
        Keyword::Package => 0,
        Keyword::Private => 18,
        Keyword::Protected => 19,
        Keyword::Public => 17,
        Keyword::Return => 32,
        Keyword::Super => 58,
        Keyword::Switch => OTHER,
        Keyword::This => 57,
        Keyword::Throw => OTHER,
        Keyword::To => OTHER,
        Keyword::True => 54,
        Keyword::Try => OTHER,
        Keyword::TypeOf => OTHER,
        Keyword::Use => OTHER,
        Keyword::Var => 21,
        Keyword::Void => 24,
        Keyword::While => 27,
        Keyword::With => OTHER,
    }
}

// The number of a mark.
fn mark_number(mark: Mark) -> u8
    ensures { result ≡ mark_number mark }
{
    match mark {
        Mark::LeftBrace => 1,
        Mark::RightBrace => 5,
        Mark::LeftParenthesis => 11,
        Mark::RightParenthesis => 13,
        Mark::LeftBracket => 10,
        Mark::RightBracket => 14,
        Mark::Semicolon => 9,
        Mark::Comma => 12,
        Mark::Dot => 7,
        Mark::Colon => 22,
        Mark::Question => 38,
        Mark::Assign => 15,
        Mark::Equal => 41,
        Mark::StrictEqual => 43,
        Mark::NotEqual => 42,
        Mark::StrictNotEqual => 44,
        Mark::Less => 45,
        Mark::LessOrEqual => 46,
        Mark::Greater => 47,
        Mark::GreaterOrEqual => 48,
        Mark::Plus => 49,
        Mark::Minus => 50,
        Mark::Star => 8,
        Mark::Slash => OTHER,
        Mark::Percent => 51,
        Mark::Not => 52,
        Mark::And => 40,
        Mark::Or => 39,
        Mark::PlusAssign => 35,
        Mark::MinusAssign => 36,
        Mark::StarAssign => 37,
        Mark::Increment => 33,
        Mark::Decrement => 34,
    }
}

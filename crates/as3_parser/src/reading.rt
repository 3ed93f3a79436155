// The reading of single tokens, where all of them make a sentence.

ghost use Rattle.std.specs.Prelude.{◌≡◌, ◌↔◌, IsTrue, IfOk, Some};
ghost use Rattle.as3_parser.specs.Ahead.{IsCut, IsThere, Lexed, Skips, kind_at};
ghost use Rattle.as3_parser.specs.Trees.{lexeme_of};
ghost use Rattle.as3_parser.specs.Spans.{span_between};

use crate::tree::{Lexeme, Span};
use as3_lexer::{Keyword, Mark, Token, TokenKind};
use flex_base::{NoMemory, Text};
use std::alloc::Global;

/// The kind of the token at a place.
pub fn next_kind(tokens: &[Token], at: usize) -> Option<TokenKind>
    ensures { result ≡ kind_at tokens.now at }
{
    match tokens.get(at) {
        Some(token) => Some(token.kind),
        None => None,
    }
}

/// Whether the token at a place is a mark.
pub fn is_next(tokens: &[Token], at: usize, mark: Mark) -> bool
    ensures { IsTrue result ↔ (kind_at tokens.now at ≡ Some (TokenKind.Mark mark)) }
{
    match next_kind(tokens, at) {
        Some(TokenKind::Mark(next)) => next == mark,
        _ => false,
    }
}

/// Whether the token at a place is an identifier.
pub fn is_identifier_next(tokens: &[Token], at: usize) -> bool
    ensures { IsTrue result ↔ (kind_at tokens.now at ≡ Some TokenKind.Identifier) }
{
    matches!(next_kind(tokens, at), Some(TokenKind::Identifier))
}

/// Whether the token at a place is a keyword.
pub fn is_keyword_next(tokens: &[Token], at: usize, keyword: Keyword) -> bool
    ensures { IsTrue result ↔ (kind_at tokens.now at ≡ Some (TokenKind.Keyword keyword)) }
{
    match next_kind(tokens, at) {
        Some(TokenKind::Keyword(next)) => next == keyword,
        _ => false,
    }
}

/// Passes the next token, which is known.
pub fn skip(tokens: &[Token], at: &mut usize)
    ensures { Skips tokens.now at.old at.new }
{
    if *at < tokens.len() {
        *at += 1;
    }
}

/// The next token with its own text.
pub fn lexeme(
    alloc: Global,
    text: &str,
    tokens: &[Token],
    at: &mut usize,
) -> Result<Lexeme, NoMemory>
    requires { IsThere text.now tokens.now at.old }
    ensures { IfOk result (Lexed text.now tokens.now at.old at.new) }
{
    let token = tokens[*at];
    *at += 1;
    lexeme_of(alloc, text, token)
}

// A token with its own text.
fn lexeme_of(alloc: Global, text: &str, token: Token) -> Result<Lexeme, NoMemory>
    requires { IsCut text.now token }
    ensures { IfOk result (λ l. l ≡ lexeme_of text.now token) }
{
    let text = Text::make(alloc, &text[token.start..token.end])?;
    Ok(Lexeme {
        span: Span {
            start: token.start,
            end: token.end,
        },
        text,
    })
}

/// Where the tokens from one place to another stand.
pub fn span(tokens: &[Token], from: usize, to: usize) -> Span
    ensures { result ≡ span_between tokens.now from to }
{
    let start = tokens.get(from).map_or(0, |token| token.start);
    let end = tokens
        .get(to.saturating_sub(1))
        .map_or(0, |token| token.end);
    Span { start, end }
}

// The reading of handlers, where the tokens make a sentence.

ghost use Rattle.std.specs.Prelude.{◌≡◌, IfOk};
ghost use Rattle.as3_parser.specs.Forms.{AreAllStatements, ReadsAllStatements};
ghost use Rattle.as3_parser.specs.Handlers.{ended_tokens, ends_handler, semicolon_behind};

use crate::statements::statement;
use crate::tree::Statement;
use as3_lexer::{Mark, Token, TokenKind};
use flex_base::NoMemory;
use std::alloc::{AllocError, Global};

/// The statements that all tokens are.
pub fn all_statements(
    alloc: Global,
    text: &str,
    tokens: &[Token],
    levels: usize,
) -> Result<Vec<Statement>, NoMemory>
    requires { AreAllStatements text.now tokens.now levels }
    ensures { IfOk result (ReadsAllStatements text.now tokens.now) }
{
    let mut statements = Vec::new(alloc);
    let mut at = 0;
    while at < tokens.len() {
        let next = statement(alloc, text, tokens, &mut at, levels)?;
        statements.push(next)?;
    }
    Ok(statements)
}

/// A handler's tokens, with a `;` behind the last one where that is neither `;` nor `}`.
pub fn ended_tokens(alloc: Global, tokens: &[Token]) -> Result<Vec<Token>, AllocError>
    ensures { IfOk result (λ ended. ended.items ≡ ended_tokens tokens.now) }
{
    let mut ended = Vec::from_slice(alloc, tokens)?;
    if let Some(last) = tokens.last() {
        if !ends_handler(last.kind) {
            ended.push(semicolon_behind(*last))?;
        }
    }
    Ok(ended)
}

// Whether a handler may end in a token of a kind.
fn ends_handler(kind: TokenKind) -> bool
    ensures { result ≡ ends_handler kind }
{
    matches!(kind, TokenKind::Mark(Mark::Semicolon | Mark::RightBrace))
}

// A `;` without a byte of its own, directly behind a token.
fn semicolon_behind(last: Token) -> Token
    ensures { result ≡ semicolon_behind last }
{
    Token {
        start: last.end,
        end: last.end,
        kind: TokenKind::Mark(Mark::Semicolon),
    }
}

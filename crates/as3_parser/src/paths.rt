// The reading of names with dots between them, where the tokens make a sentence.

ghost use Rattle.std.specs.Prelude.{◌≡◌, IfOk};
ghost use Rattle.as3_parser.specs.Ahead.{Begun};
ghost use Rattle.as3_parser.specs.Forms.{ReadsPath, part};
ghost use Rattle.as3_parser.specs.Productions.{path};
ghost use Rattle.as3_parser.specs.Syntax.{limit};

use crate::reading::{is_next, lexeme, skip};
use crate::tree::Lexeme;
use as3_lexer::{Mark, Token};
use flex_base::NoMemory;
use std::alloc::Global;

/// Names with dots between them.
pub fn path(
    alloc: Global,
    text: &str,
    tokens: &[Token],
    at: &mut usize,
) -> Result<Vec<Lexeme>, NoMemory>
    requires { Begun text.now tokens.now at.old limit (part path) }
    ensures { IfOk result (ReadsPath text.now tokens.now at.old at.new) }
{
    let mut names = Vec::new(alloc);
    let first = lexeme(alloc, text, tokens, at)?;
    names.push(first)?;
    while is_next(tokens, *at, Mark::Dot) {
        skip(tokens, at);
        let name = lexeme(alloc, text, tokens, at)?;
        names.push(name)?;
    }
    Ok(names)
}

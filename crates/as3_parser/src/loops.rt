// The reading of the head of a `for`, where the tokens make a sentence.

ghost use Rattle.std.specs.Prelude.{IfOk};
ghost use Rattle.as3_parser.specs.Ahead.{Begun};
ghost use Rattle.as3_parser.specs.Forms.{ReadsLoopHead, ReadsLoopStart, ReadsLoopStep, ReadsOptionalExpression, loop_head_symbols, loop_start_symbols, loop_step_symbols, optional_expression_symbols};

use crate::declarations::variables;
use crate::expressions::expression;
use crate::reading::{is_keyword_next, is_next, skip, span};
use crate::simple::simple_statement;
use crate::tree::{Expression, LoopHead, LoopStart, SimpleStatement};
use as3_lexer::{Keyword, Mark, Token};
use flex_base::NoMemory;
use std::alloc::Global;

/// `(` start `;` condition `;` step `)`
pub fn loop_head(
    alloc: Global,
    text: &str,
    tokens: &[Token],
    at: &mut usize,
    levels: usize,
) -> Result<LoopHead, NoMemory>
    requires { Begun text.now tokens.now at.old levels loop_head_symbols }
    ensures { IfOk result (ReadsLoopHead text.now tokens.now at.old at.new) }
{
    skip(tokens, at);
    let start = loop_start(alloc, text, tokens, at, levels)?;
    let condition = optional_expression(alloc, text, tokens, at, levels)?;
    let step = loop_step(alloc, text, tokens, at, levels)?;
    Ok(LoopHead {
        start,
        condition,
        step,
    })
}

/// An expression, if there is one, and `;`
pub fn optional_expression(
    alloc: Global,
    text: &str,
    tokens: &[Token],
    at: &mut usize,
    levels: usize,
) -> Result<Option<Expression>, NoMemory>
    requires { Begun text.now tokens.now at.old levels optional_expression_symbols }
    ensures { IfOk result (ReadsOptionalExpression text.now tokens.now at.old at.new) }
{
    if is_next(tokens, *at, Mark::Semicolon) {
        skip(tokens, at);
        return Ok(None);
    }
    let value = expression(alloc, text, tokens, at, levels)?;
    skip(tokens, at);
    Ok(Some(value))
}

// Variables or a simple statement, if there are any, and `;`
fn loop_start(
    alloc: Global,
    text: &str,
    tokens: &[Token],
    at: &mut usize,
    levels: usize,
) -> Result<Option<LoopStart>, NoMemory>
    requires { Begun text.now tokens.now at.old levels loop_start_symbols }
    ensures { IfOk result (ReadsLoopStart text.now tokens.now at.old at.new) }
{
    if is_next(tokens, *at, Mark::Semicolon) {
        skip(tokens, at);
        return Ok(None);
    }
    if is_keyword_next(tokens, *at, Keyword::Var) {
        let start = *at;
        skip(tokens, at);
        let variables = variables(alloc, text, tokens, at, levels)?;
        let span = span(tokens, start, *at);
        skip(tokens, at);
        return Ok(Some(LoopStart::Variables(span, variables)));
    }
    let simple = simple_statement(alloc, text, tokens, at, levels)?;
    skip(tokens, at);
    Ok(Some(LoopStart::Simple(simple)))
}

// A simple statement, if there is one, and `)`
fn loop_step(
    alloc: Global,
    text: &str,
    tokens: &[Token],
    at: &mut usize,
    levels: usize,
) -> Result<Option<SimpleStatement>, NoMemory>
    requires { Begun text.now tokens.now at.old levels loop_step_symbols }
    ensures { IfOk result (ReadsLoopStep text.now tokens.now at.old at.new) }
{
    if is_next(tokens, *at, Mark::RightParenthesis) {
        skip(tokens, at);
        return Ok(None);
    }
    let simple = simple_statement(alloc, text, tokens, at, levels)?;
    skip(tokens, at);
    Ok(Some(simple))
}

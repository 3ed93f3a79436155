// The reading of simple statements, where the tokens make a sentence.

ghost use Rattle.std.specs.Prelude.{◌≡◌, IfOk, None};
ghost use Rattle.as3_parser.specs.Ahead.{Begun, kind_at};
ghost use Rattle.as3_parser.specs.Forms.{ReadsSimple, part};
ghost use Rattle.as3_parser.specs.Operators.{step_operator_at};
ghost use Rattle.as3_parser.specs.Productions.{simple};

use crate::expressions::{expression, postfix};
use crate::operators::{assignment_operator_at, step_operator_at};
use crate::reading::{skip, span};
use crate::tree::SimpleStatement;
use as3_lexer::Token;
use flex_base::NoMemory;
use std::alloc::Global;

/// A simple statement.
pub fn simple_statement(
    alloc: Global,
    text: &str,
    tokens: &[Token],
    at: &mut usize,
    levels: usize,
) -> Result<SimpleStatement, NoMemory>
    requires { Begun text.now tokens.now at.old levels (part simple) }
    ensures { IfOk result (ReadsSimple text.now tokens.now at.old at.new) }
{
    let Some(operator) = step_operator_at(tokens, *at) else {
        return begun_by_expression(alloc, text, tokens, at, levels);
    };
    let start = *at;
    skip(tokens, at);
    let operand = postfix(alloc, text, tokens, at, levels)?;
    Ok(SimpleStatement::Prefix(span(tokens, start, *at), operator, operand))
}

// A simple statement that begins with an expression.
fn begun_by_expression(
    alloc: Global,
    text: &str,
    tokens: &[Token],
    at: &mut usize,
    levels: usize,
) -> Result<SimpleStatement, NoMemory>
    requires first { step_operator_at (kind_at tokens.now at.old) ≡ None }
    requires begun { Begun text.now tokens.now at.old levels (part simple) }
    ensures { IfOk result (ReadsSimple text.now tokens.now at.old at.new) }
{
    let start = *at;
    let target = expression(alloc, text, tokens, at, levels)?;
    let Some(operator) = assignment_operator_at(tokens, *at) else {
        let Some(step) = step_operator_at(tokens, *at) else {
            return Ok(SimpleStatement::Expression(target));
        };
        skip(tokens, at);
        return Ok(SimpleStatement::Postfix(span(tokens, start, *at), step, target));
    };
    skip(tokens, at);
    let value = expression(alloc, text, tokens, at, levels)?;
    Ok(SimpleStatement::Assignment(span(tokens, start, *at), operator, target, value))
}

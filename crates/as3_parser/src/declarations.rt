// The reading of variables, where the tokens make a sentence.

ghost use Rattle.std.specs.Prelude.{IfOk};
ghost use Rattle.as3_parser.specs.Ahead.{Begun};
ghost use Rattle.as3_parser.specs.Forms.{ReadsVariable, ReadsVariables, declarations, part};
ghost use Rattle.as3_parser.specs.Productions.{declaration};

use crate::expressions::expression;
use crate::paths::path;
use crate::reading::{is_next, lexeme, skip};
use crate::tree::Variable;
use as3_lexer::{Mark, Token};
use flex_base::NoMemory;
use std::alloc::Global;

/// Variables with commas between them.
pub fn variables(
    alloc: Global,
    text: &str,
    tokens: &[Token],
    at: &mut usize,
    levels: usize,
) -> Result<Vec<Variable>, NoMemory>
    requires { Begun text.now tokens.now at.old levels declarations }
    ensures { IfOk result (ReadsVariables text.now tokens.now at.old at.new) }
{
    let mut variables = Vec::new(alloc);
    let first = variable(alloc, text, tokens, at, levels)?;
    variables.push(first)?;
    while is_next(tokens, *at, Mark::Comma) {
        skip(tokens, at);
        let next = variable(alloc, text, tokens, at, levels)?;
        variables.push(next)?;
    }
    Ok(variables)
}

// A variable with its type, and perhaps a value.
fn variable(
    alloc: Global,
    text: &str,
    tokens: &[Token],
    at: &mut usize,
    levels: usize,
) -> Result<Variable, NoMemory>
    requires { Begun text.now tokens.now at.old levels (part declaration) }
    ensures { IfOk result (ReadsVariable text.now tokens.now at.old at.new) }
{
    let name = lexeme(alloc, text, tokens, at)?;
    skip(tokens, at);
    let type_name = path(alloc, text, tokens, at)?;
    if !is_next(tokens, *at, Mark::Assign) {
        return Ok(Variable {
            name,
            type_name,
            value: None,
        });
    }
    skip(tokens, at);
    let value = expression(alloc, text, tokens, at, levels)?;
    Ok(Variable {
        name,
        type_name,
        value: Some(value),
    })
}

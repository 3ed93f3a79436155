// The reading of imports, where the tokens make a sentence.

ghost use Rattle.std.specs.Prelude.{IfOk};
ghost use Rattle.as3_parser.specs.Ahead.{Begun};
ghost use Rattle.as3_parser.specs.MemberForms.{ReadsImport, ReadsImportStep, ReadsImportSteps};
ghost use Rattle.as3_parser.specs.Forms.{part};
ghost use Rattle.as3_parser.specs.Productions.{import_directive, import_step, import_steps};
ghost use Rattle.as3_parser.specs.Syntax.{limit};

use crate::reading::{is_next, lexeme, skip, span};
use crate::tree::{Import, ImportStep};
use as3_lexer::{Mark, Token};
use flex_base::NoMemory;
use std::alloc::Global;

/// An import.
pub fn import_directive(
    alloc: Global,
    text: &str,
    tokens: &[Token],
    at: &mut usize,
) -> Result<Import, NoMemory>
    requires { Begun text.now tokens.now at.old limit (part import_directive) }
    ensures { IfOk result (ReadsImport text.now tokens.now at.old at.new) }
{
    let start = *at;
    skip(tokens, at);
    let first = lexeme(alloc, text, tokens, at)?;
    let steps = import_steps(alloc, text, tokens, at)?;
    skip(tokens, at);
    Ok(Import {
        span: span(tokens, start, *at),
        first,
        steps,
    })
}

// The steps behind the first name.
fn import_steps(
    alloc: Global,
    text: &str,
    tokens: &[Token],
    at: &mut usize,
) -> Result<Vec<ImportStep>, NoMemory>
    requires { Begun text.now tokens.now at.old limit (part import_steps) }
    ensures { IfOk result (ReadsImportSteps text.now tokens.now at.old at.new) }
{
    let mut steps = Vec::new(alloc);
    while is_next(tokens, *at, Mark::Dot) {
        skip(tokens, at);
        let step = import_step(alloc, text, tokens, at)?;
        steps.push(step)?;
    }
    Ok(steps)
}

// A name, or `*`
fn import_step(
    alloc: Global,
    text: &str,
    tokens: &[Token],
    at: &mut usize,
) -> Result<ImportStep, NoMemory>
    requires { Begun text.now tokens.now at.old limit (part import_step) }
    ensures { IfOk result (ReadsImportStep text.now tokens.now at.old at.new) }
{
    if is_next(tokens, *at, Mark::Star) {
        let start = *at;
        skip(tokens, at);
        return Ok(ImportStep::All(span(tokens, start, *at)));
    }
    Ok(ImportStep::Name(lexeme(alloc, text, tokens, at)?))
}

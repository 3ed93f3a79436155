// The reading of statements, where the tokens make a sentence. Each function takes how many levels
// may still be opened, so that no call is nested deeper than the levels of the sentence.

ghost use Rattle.std.specs.Prelude.{◌≡◌, IfOk};
ghost use Rattle.as3_parser.specs.Ahead.{Begun, kind_at};
ghost use Rattle.as3_parser.specs.Forms.{ReadsBlock, ReadsCondition, ReadsStatement, SkipsOne, SkipsTwo, condition_symbols, part, statement_form};
ghost use Rattle.as3_parser.specs.Productions.{block, statement};

use crate::declarations::variables;
use crate::expressions::expression;
use crate::loops::{loop_head, optional_expression};
use crate::reading::{is_keyword_next, is_next, next_kind, skip, span};
use crate::simple::simple_statement;
use crate::tree::{Expression, Span, Statement};
use as3_lexer::{Keyword, Mark, Token, TokenKind};
use flex_base::NoMemory;
use std::alloc::Global;

// The forms of statements, by the token that begins them.
#[derive(Clone, Copy)]
enum StatementForm {
    Block,
    Variables,
    If,
    While,
    DoWhile,
    For,
    Break,
    Continue,
    Return,
    Empty,
    Simple,
}

// The form of a statement that begins with a token of a kind.
fn statement_form(kind: Option<TokenKind>) -> StatementForm
    ensures { result ≡ statement_form kind }
{
    match kind {
        Some(TokenKind::Mark(Mark::LeftBrace)) => StatementForm::Block,
        Some(TokenKind::Keyword(Keyword::Var)) => StatementForm::Variables,
        Some(TokenKind::Keyword(Keyword::If)) => StatementForm::If,
        Some(TokenKind::Keyword(Keyword::While)) => StatementForm::While,
        Some(TokenKind::Keyword(Keyword::Do)) => StatementForm::DoWhile,
        Some(TokenKind::Keyword(Keyword::For)) => StatementForm::For,
        Some(TokenKind::Keyword(Keyword::Break)) => StatementForm::Break,
        Some(TokenKind::Keyword(Keyword::Continue)) => StatementForm::Continue,
        Some(TokenKind::Keyword(Keyword::Return)) => StatementForm::Return,
        Some(TokenKind::Mark(Mark::Semicolon)) => StatementForm::Empty,
        _ => StatementForm::Simple,
    }
}

/// A block, and what is in it.
#[cycle(statements)]
pub fn block(
    alloc: Global,
    text: &str,
    tokens: &[Token],
    at: &mut usize,
    levels: usize,
) -> Result<Vec<Statement>, NoMemory>
    requires { Begun text.now tokens.now at.old levels (part block) }
    ensures { IfOk result (ReadsBlock text.now tokens.now at.old at.new) }
{
    let mut items = Vec::new(alloc);
    skip(tokens, at);
    while !is_next(tokens, *at, Mark::RightBrace) {
        let item = statement(alloc, text, tokens, at, levels)?;
        items.push(item)?;
    }
    skip(tokens, at);
    Ok(items)
}

/// A statement.
#[cycle(statements)]
pub fn statement(
    alloc: Global,
    text: &str,
    tokens: &[Token],
    at: &mut usize,
    levels: usize,
) -> Result<Statement, NoMemory>
    requires { Begun text.now tokens.now at.old levels (part statement) }
    ensures { IfOk result (ReadsStatement text.now tokens.now at.old at.new) }
{
    let form = statement_form(next_kind(tokens, *at));
    match form {
        StatementForm::Block => block_statement(alloc, text, tokens, at, levels),
        StatementForm::Variables => variables_statement(alloc, text, tokens, at, levels),
        StatementForm::If => if_statement(alloc, text, tokens, at, levels),
        StatementForm::While => while_statement(alloc, text, tokens, at, levels),
        StatementForm::DoWhile => do_statement(alloc, text, tokens, at, levels),
        StatementForm::For => for_statement(alloc, text, tokens, at, levels),
        StatementForm::Break => Ok(Statement::Break(word_and_semicolon(tokens, at))),
        StatementForm::Continue => Ok(Statement::Continue(word_and_semicolon(tokens, at))),
        StatementForm::Return => return_statement(alloc, text, tokens, at, levels),
        StatementForm::Empty => Ok(Statement::Empty(semicolon(tokens, at))),
        StatementForm::Simple => plain_statement(alloc, text, tokens, at, levels),
    }
}

// A statement in another one.
#[cycle(statements)]
fn nested_statement(
    alloc: Global,
    text: &str,
    tokens: &[Token],
    at: &mut usize,
    levels: usize,
) -> Result<Box<Statement>, NoMemory>
    requires { Begun text.now tokens.now at.old levels (part statement) }
    ensures { IfOk result (λ b. ReadsStatement text.now tokens.now at.old at.new b.value) }
{
    let inner = statement(alloc, text, tokens, at, levels)?;
    Ok(Box::new(alloc, inner)?)
}

// `{` statements `}`
#[cycle(statements)]
fn block_statement(
    alloc: Global,
    text: &str,
    tokens: &[Token],
    at: &mut usize,
    levels: usize,
) -> Result<Statement, NoMemory>
    requires form { statement_form (kind_at tokens.now at.old) ≡ StatementForm.Block }
    requires begun { Begun text.now tokens.now at.old levels (part statement) }
    ensures { IfOk result (ReadsStatement text.now tokens.now at.old at.new) }
{
    let start = *at;
    let items = block(alloc, text, tokens, at, levels - 1)?;
    Ok(Statement::Block(span(tokens, start, *at), items))
}

// `if` condition statement, and perhaps `else` statement
#[cycle(statements)]
fn if_statement(
    alloc: Global,
    text: &str,
    tokens: &[Token],
    at: &mut usize,
    levels: usize,
) -> Result<Statement, NoMemory>
    requires form { statement_form (kind_at tokens.now at.old) ≡ StatementForm.If }
    requires begun { Begun text.now tokens.now at.old levels (part statement) }
    ensures { IfOk result (ReadsStatement text.now tokens.now at.old at.new) }
{
    let start = *at;
    skip(tokens, at);
    let test = condition(alloc, text, tokens, at, levels - 1)?;
    let first = nested_statement(alloc, text, tokens, at, levels - 1)?;
    if !is_keyword_next(tokens, *at, Keyword::Else) {
        return Ok(Statement::If(span(tokens, start, *at), test, first));
    }
    skip(tokens, at);
    let second = nested_statement(alloc, text, tokens, at, levels - 1)?;
    Ok(Statement::IfElse(span(tokens, start, *at), test, first, second))
}

// `while` condition statement
#[cycle(statements)]
fn while_statement(
    alloc: Global,
    text: &str,
    tokens: &[Token],
    at: &mut usize,
    levels: usize,
) -> Result<Statement, NoMemory>
    requires form { statement_form (kind_at tokens.now at.old) ≡ StatementForm.While }
    requires begun { Begun text.now tokens.now at.old levels (part statement) }
    ensures { IfOk result (ReadsStatement text.now tokens.now at.old at.new) }
{
    let start = *at;
    skip(tokens, at);
    let test = condition(alloc, text, tokens, at, levels - 1)?;
    let body = nested_statement(alloc, text, tokens, at, levels - 1)?;
    Ok(Statement::While(span(tokens, start, *at), test, body))
}

// `do` statement `while` condition `;`
#[cycle(statements)]
fn do_statement(
    alloc: Global,
    text: &str,
    tokens: &[Token],
    at: &mut usize,
    levels: usize,
) -> Result<Statement, NoMemory>
    requires form { statement_form (kind_at tokens.now at.old) ≡ StatementForm.DoWhile }
    requires begun { Begun text.now tokens.now at.old levels (part statement) }
    ensures { IfOk result (ReadsStatement text.now tokens.now at.old at.new) }
{
    let start = *at;
    skip(tokens, at);
    let body = nested_statement(alloc, text, tokens, at, levels - 1)?;
    skip(tokens, at);
    let test = condition(alloc, text, tokens, at, levels - 1)?;
    skip(tokens, at);
    Ok(Statement::DoWhile(span(tokens, start, *at), body, test))
}

// `for` `(` start `;` condition `;` step `)` statement
#[cycle(statements)]
fn for_statement(
    alloc: Global,
    text: &str,
    tokens: &[Token],
    at: &mut usize,
    levels: usize,
) -> Result<Statement, NoMemory>
    requires form { statement_form (kind_at tokens.now at.old) ≡ StatementForm.For }
    requires begun { Begun text.now tokens.now at.old levels (part statement) }
    ensures { IfOk result (ReadsStatement text.now tokens.now at.old at.new) }
{
    let start = *at;
    skip(tokens, at);
    let head = loop_head(alloc, text, tokens, at, levels - 1)?;
    let body = nested_statement(alloc, text, tokens, at, levels - 1)?;
    Ok(Statement::For(span(tokens, start, *at), head, body))
}

// `var` variables `;`
fn variables_statement(
    alloc: Global,
    text: &str,
    tokens: &[Token],
    at: &mut usize,
    levels: usize,
) -> Result<Statement, NoMemory>
    requires form { statement_form (kind_at tokens.now at.old) ≡ StatementForm.Variables }
    requires begun { Begun text.now tokens.now at.old levels (part statement) }
    ensures { IfOk result (ReadsStatement text.now tokens.now at.old at.new) }
{
    let start = *at;
    skip(tokens, at);
    let variables = variables(alloc, text, tokens, at, levels - 1)?;
    skip(tokens, at);
    Ok(Statement::Variables(span(tokens, start, *at), variables))
}

// `return` value `;`
fn return_statement(
    alloc: Global,
    text: &str,
    tokens: &[Token],
    at: &mut usize,
    levels: usize,
) -> Result<Statement, NoMemory>
    requires form { statement_form (kind_at tokens.now at.old) ≡ StatementForm.Return }
    requires begun { Begun text.now tokens.now at.old levels (part statement) }
    ensures { IfOk result (ReadsStatement text.now tokens.now at.old at.new) }
{
    let start = *at;
    skip(tokens, at);
    let value = optional_expression(alloc, text, tokens, at, levels - 1)?;
    Ok(Statement::Return(span(tokens, start, *at), value))
}

// A simple statement and `;`
fn plain_statement(
    alloc: Global,
    text: &str,
    tokens: &[Token],
    at: &mut usize,
    levels: usize,
) -> Result<Statement, NoMemory>
    requires form { statement_form (kind_at tokens.now at.old) ≡ StatementForm.Simple }
    requires begun { Begun text.now tokens.now at.old levels (part statement) }
    ensures { IfOk result (ReadsStatement text.now tokens.now at.old at.new) }
{
    let start = *at;
    let simple = simple_statement(alloc, text, tokens, at, levels - 1)?;
    skip(tokens, at);
    Ok(Statement::Simple(span(tokens, start, *at), simple))
}

// `(` expression `)`
fn condition(
    alloc: Global,
    text: &str,
    tokens: &[Token],
    at: &mut usize,
    levels: usize,
) -> Result<Expression, NoMemory>
    requires { Begun text.now tokens.now at.old levels condition_symbols }
    ensures { IfOk result (ReadsCondition text.now tokens.now at.old at.new) }
{
    skip(tokens, at);
    let test = expression(alloc, text, tokens, at, levels)?;
    skip(tokens, at);
    Ok(test)
}

// A word and `;`
fn word_and_semicolon(tokens: &[Token], at: &mut usize) -> Span
    ensures { SkipsTwo tokens.now at.old at.new result }
{
    let start = *at;
    skip(tokens, at);
    skip(tokens, at);
    span(tokens, start, *at)
}

// `;`
fn semicolon(tokens: &[Token], at: &mut usize) -> Span
    ensures { SkipsOne tokens.now at.old at.new result }
{
    let start = *at;
    skip(tokens, at);
    span(tokens, start, *at)
}

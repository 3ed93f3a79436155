// The reading of expressions, where the tokens make a sentence. Each function takes how many levels
// may still be opened, so that no call is nested deeper than the levels of the sentence.

ghost use Rattle.std.specs.Prelude.{◌≡◌, ◌≤◌, IfOk, IsTrue, Some};
ghost use Rattle.as3_parser.specs.Ahead.{Begun, kind_at};
ghost use Rattle.as3_parser.specs.Forms.{ReadsArguments, ReadsExpression, arguments_before, closes_arguments, part, part_of_strength};

use crate::operators::{operator_at, unary_operator_at};
use crate::paths::path;
use crate::reading::{is_next, lexeme, next_kind, skip, span};
use crate::tree::Expression;
use as3_lexer::{Keyword, Mark, Token, TokenKind};
use flex_base::NoMemory;
use std::alloc::Global;

// The strengths of operators.
const WEAKEST_OPERATOR: u8 = 1;

const PREFIX: u8 = 7;

/// An expression.
#[cycle(expressions)]
pub fn expression(
    alloc: Global,
    text: &str,
    tokens: &[Token],
    at: &mut usize,
    levels: usize,
) -> Result<Expression, NoMemory>
    requires { Begun text.now tokens.now at.old levels (part (part_of_strength 0)) }
    ensures { IfOk result (ReadsExpression text.now tokens.now at.old at.new 0) }
{
    let start = *at;
    let condition = operation(alloc, text, tokens, at, levels - 1, WEAKEST_OPERATOR)?;
    if !is_next(tokens, *at, Mark::Question) {
        return Ok(condition);
    }
    skip(tokens, at);
    let first = expression(alloc, text, tokens, at, levels - 1)?;
    skip(tokens, at);
    let second = expression(alloc, text, tokens, at, levels - 1)?;
    let condition = Box::new(alloc, condition)?;
    let first = Box::new(alloc, first)?;
    let second = Box::new(alloc, second)?;
    Ok(Expression::Conditional(span(tokens, start, *at), condition, first, second))
}

// Operands with operators of a strength between them, each of which binds more strongly.
#[cycle(expressions)]
fn operation(
    alloc: Global,
    text: &str,
    tokens: &[Token],
    at: &mut usize,
    levels: usize,
    strength: u8,
) -> Result<Expression, NoMemory>
    requires some { 1 ≤ strength }
    requires few { strength ≤ 7 }
    requires begun { Begun text.now tokens.now at.old levels (part (part_of_strength strength)) }
    ensures { IfOk result (ReadsExpression text.now tokens.now at.old at.new strength) }
{
    if strength == PREFIX {
        return unary(alloc, text, tokens, at, levels);
    }
    let start = *at;
    let mut left = operation(alloc, text, tokens, at, levels, strength + 1)?;
    while let Some(operator) = operator_at(tokens, *at, strength) {
        skip(tokens, at);
        let right = operation(alloc, text, tokens, at, levels, strength + 1)?;
        let first = Box::new(alloc, left)?;
        let second = Box::new(alloc, right)?;
        left = Expression::Binary(span(tokens, start, *at), operator, first, second);
    }
    Ok(left)
}

// An operand, with any number of prefix operators.
#[cycle(expressions)]
fn unary(
    alloc: Global,
    text: &str,
    tokens: &[Token],
    at: &mut usize,
    levels: usize,
) -> Result<Expression, NoMemory>
    requires { Begun text.now tokens.now at.old levels (part (part_of_strength 7)) }
    ensures { IfOk result (ReadsExpression text.now tokens.now at.old at.new 7) }
{
    let Some(operator) = unary_operator_at(tokens, *at) else {
        return postfix(alloc, text, tokens, at, levels);
    };
    let start = *at;
    skip(tokens, at);
    let operand = unary(alloc, text, tokens, at, levels - 1)?;
    let operand = Box::new(alloc, operand)?;
    Ok(Expression::Unary(span(tokens, start, *at), operator, operand))
}

/// An operand without prefix operators.
#[cycle(expressions)]
pub fn postfix(
    alloc: Global,
    text: &str,
    tokens: &[Token],
    at: &mut usize,
    levels: usize,
) -> Result<Expression, NoMemory>
    requires { Begun text.now tokens.now at.old levels (part (part_of_strength 8)) }
    ensures { IfOk result (ReadsExpression text.now tokens.now at.old at.new 8) }
{
    let start = *at;
    let mut object = primary(alloc, text, tokens, at, levels)?;
    loop {
        if is_next(tokens, *at, Mark::Dot) {
            skip(tokens, at);
            let name = lexeme(alloc, text, tokens, at)?;
            let whole = Box::new(alloc, object)?;
            object = Expression::Member(span(tokens, start, *at), whole, name);
        } else if is_next(tokens, *at, Mark::LeftBracket) {
            skip(tokens, at);
            let index = expression(alloc, text, tokens, at, levels)?;
            skip(tokens, at);
            let whole = Box::new(alloc, object)?;
            let index = Box::new(alloc, index)?;
            object = Expression::Index(span(tokens, start, *at), whole, index);
        } else if is_next(tokens, *at, Mark::LeftParenthesis) {
            skip(tokens, at);
            let items = arguments(alloc, text, tokens, at, levels, Mark::RightParenthesis)?;
            let whole = Box::new(alloc, object)?;
            object = Expression::Call(span(tokens, start, *at), whole, items);
        } else {
            return Ok(object);
        }
    }
}

// Expressions with commas between them, if any, and the mark behind them.
#[cycle(expressions)]
fn arguments(
    alloc: Global,
    text: &str,
    tokens: &[Token],
    at: &mut usize,
    levels: usize,
    close: Mark,
) -> Result<Vec<Expression>, NoMemory>
    requires closes { IsTrue (closes_arguments close) }
    requires begun { Begun text.now tokens.now at.old levels (arguments_before close) }
    ensures { IfOk result (ReadsArguments text.now tokens.now at.old at.new close) }
{
    let mut items = Vec::new(alloc);
    if is_next(tokens, *at, close) {
        skip(tokens, at);
        return Ok(items);
    }
    let first = expression(alloc, text, tokens, at, levels)?;
    items.push(first)?;
    while is_next(tokens, *at, Mark::Comma) {
        skip(tokens, at);
        let item = expression(alloc, text, tokens, at, levels)?;
        items.push(item)?;
    }
    skip(tokens, at);
    Ok(items)
}

// An operand without operators.
#[cycle(expressions)]
fn primary(
    alloc: Global,
    text: &str,
    tokens: &[Token],
    at: &mut usize,
    levels: usize,
) -> Result<Expression, NoMemory>
    requires { Begun text.now tokens.now at.old levels (part (part_of_strength 9)) }
    ensures { IfOk result (ReadsExpression text.now tokens.now at.old at.new 9) }
{
    match next_kind(tokens, *at) {
        Some(TokenKind::Identifier) => Ok(Expression::Name(lexeme(alloc, text, tokens, at)?)),
        Some(TokenKind::Number) => Ok(Expression::Number(lexeme(alloc, text, tokens, at)?)),
        Some(TokenKind::Text) => Ok(Expression::Text(lexeme(alloc, text, tokens, at)?)),
        Some(TokenKind::Keyword(keyword)) => word(alloc, text, tokens, at, levels, keyword),
        Some(TokenKind::Mark(mark)) => bracketed(alloc, text, tokens, at, levels, mark),
        None => unreachable!(),
    }
}

// An operand that begins with a keyword.
#[cycle(expressions)]
fn word(
    alloc: Global,
    text: &str,
    tokens: &[Token],
    at: &mut usize,
    levels: usize,
    keyword: Keyword,
) -> Result<Expression, NoMemory>
    requires next { kind_at tokens.now at.old ≡ Some (TokenKind.Keyword keyword) }
    requires begun { Begun text.now tokens.now at.old levels (part (part_of_strength 9)) }
    ensures { IfOk result (ReadsExpression text.now tokens.now at.old at.new 9) }
{
    let start = *at;
    skip(tokens, at);
    match keyword {
        Keyword::True => Ok(Expression::True(span(tokens, start, *at))),
        Keyword::False => Ok(Expression::False(span(tokens, start, *at))),
        Keyword::Null => Ok(Expression::Null(span(tokens, start, *at))),
        Keyword::This => Ok(Expression::This(span(tokens, start, *at))),
        Keyword::Super => Ok(Expression::Super(span(tokens, start, *at))),
        Keyword::New => {
            let class = path(alloc, text, tokens, at)?;
            skip(tokens, at);
            let items = arguments(alloc, text, tokens, at, levels, Mark::RightParenthesis)?;
            Ok(Expression::New(span(tokens, start, *at), class, items))
        }
        _ => unreachable!(),
    }
}

// An operand in brackets.
#[cycle(expressions)]
fn bracketed(
    alloc: Global,
    text: &str,
    tokens: &[Token],
    at: &mut usize,
    levels: usize,
    mark: Mark,
) -> Result<Expression, NoMemory>
    requires next { kind_at tokens.now at.old ≡ Some (TokenKind.Mark mark) }
    requires begun { Begun text.now tokens.now at.old levels (part (part_of_strength 9)) }
    ensures { IfOk result (ReadsExpression text.now tokens.now at.old at.new 9) }
{
    let start = *at;
    skip(tokens, at);
    match mark {
        Mark::LeftParenthesis => {
            let inner = expression(alloc, text, tokens, at, levels)?;
            skip(tokens, at);
            let inner = Box::new(alloc, inner)?;
            Ok(Expression::Parenthesized(span(tokens, start, *at), inner))
        }
        Mark::LeftBracket => {
            let items = arguments(alloc, text, tokens, at, levels, Mark::RightBracket)?;
            Ok(Expression::Array(span(tokens, start, *at), items))
        }
        _ => unreachable!(),
    }
}

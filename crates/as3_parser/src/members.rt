// The reading of members, where the tokens make a sentence.

ghost use Rattle.std.specs.Prelude.{◌≡◌, IfOk};
ghost use Rattle.as3_parser.specs.Ahead.{Begun, kind_at};
ghost use Rattle.as3_parser.specs.MemberForms.{AreAllItems, BegunItem, ReadsAllItems, ReadsItem, ReadsMember, ReadsMemberKind, ReadsMethod, ReadsModifiers, ReadsParameter, ReadsParameters, ReadsResult, modifier_at, parameter_symbols, parameters_behind};
ghost use Rattle.as3_parser.specs.Forms.{part};
ghost use Rattle.as3_parser.specs.Productions.{member, method, modifiers, optional_result, variables_or_method};
ghost use Rattle.as3_parser.specs.Syntax.{limit};

use crate::declarations::variables;
use crate::imports::import_directive;
use crate::metadata::metadata_tags;
use crate::paths::path;
use crate::reading::{is_keyword_next, is_next, lexeme, next_kind, skip, span};
use crate::statements::block;
use crate::tree::{Member, MemberKind, MembersItem, Modifier, Parameter, ResultType};
use as3_lexer::{Keyword, Mark, Token, TokenKind};
use flex_base::NoMemory;
use std::alloc::Global;

/// The imports and members that all tokens are.
pub fn all_items(
    alloc: Global,
    text: &str,
    tokens: &[Token],
    levels: usize,
) -> Result<Vec<MembersItem>, NoMemory>
    requires { AreAllItems text.now tokens.now levels }
    ensures { IfOk result (ReadsAllItems text.now tokens.now) }
{
    let mut items = Vec::new(alloc);
    let mut at = 0;
    while at < tokens.len() {
        let next = item(alloc, text, tokens, &mut at, levels)?;
        items.push(next)?;
    }
    Ok(items)
}

// An import or a member.
fn item(
    alloc: Global,
    text: &str,
    tokens: &[Token],
    at: &mut usize,
    levels: usize,
) -> Result<MembersItem, NoMemory>
    requires { BegunItem text.now tokens.now at.old levels }
    ensures { IfOk result (ReadsItem text.now tokens.now at.old at.new) }
{
    if is_keyword_next(tokens, *at, Keyword::Import) {
        let import = import_directive(alloc, text, tokens, at)?;
        return Ok(MembersItem::Import(import));
    }
    let member = member(alloc, text, tokens, at, levels)?;
    Ok(MembersItem::Member(member))
}

/// A member.
pub fn member(
    alloc: Global,
    text: &str,
    tokens: &[Token],
    at: &mut usize,
    levels: usize,
) -> Result<Member, NoMemory>
    requires { Begun text.now tokens.now at.old levels (part member) }
    ensures { IfOk result (ReadsMember text.now tokens.now at.old at.new) }
{
    let start = *at;
    let metadata = metadata_tags(alloc, text, tokens, at)?;
    let modifiers = modifiers(alloc, text, tokens, at)?;
    let kind = member_kind(alloc, text, tokens, at, levels)?;
    Ok(Member {
        span: span(tokens, start, *at),
        metadata,
        modifiers,
        kind,
    })
}

/// Any number of modifiers.
pub fn modifiers(
    alloc: Global,
    text: &str,
    tokens: &[Token],
    at: &mut usize,
) -> Result<Vec<Modifier>, NoMemory>
    requires { Begun text.now tokens.now at.old limit (part modifiers) }
    ensures { IfOk result (ReadsModifiers text.now tokens.now at.old at.new) }
{
    let mut modifiers = Vec::new(alloc);
    while let Some(modifier) = modifier_at(tokens, *at) {
        skip(tokens, at);
        modifiers.push(modifier)?;
    }
    Ok(modifiers)
}

// The modifier at a place.
fn modifier_at(tokens: &[Token], at: usize) -> Option<Modifier>
    ensures { result ≡ modifier_at (kind_at tokens.now at) }
{
    match next_kind(tokens, at) {
        Some(TokenKind::Keyword(Keyword::Public)) => Some(Modifier::Public),
        Some(TokenKind::Keyword(Keyword::Private)) => Some(Modifier::Private),
        Some(TokenKind::Keyword(Keyword::Protected)) => Some(Modifier::Protected),
        Some(TokenKind::Keyword(Keyword::Override)) => Some(Modifier::Override),
        _ => None,
    }
}

// Variables or a method.
fn member_kind(
    alloc: Global,
    text: &str,
    tokens: &[Token],
    at: &mut usize,
    levels: usize,
) -> Result<MemberKind, NoMemory>
    requires { Begun text.now tokens.now at.old levels (part variables_or_method) }
    ensures { IfOk result (ReadsMemberKind text.now tokens.now at.old at.new) }
{
    if !is_keyword_next(tokens, *at, Keyword::Var) {
        return method(alloc, text, tokens, at, levels);
    }
    skip(tokens, at);
    let variables = variables(alloc, text, tokens, at, levels)?;
    skip(tokens, at);
    Ok(MemberKind::Variables(variables))
}

// A method.
fn method(
    alloc: Global,
    text: &str,
    tokens: &[Token],
    at: &mut usize,
    levels: usize,
) -> Result<MemberKind, NoMemory>
    requires { Begun text.now tokens.now at.old levels (part method) }
    ensures { IfOk result (ReadsMethod text.now tokens.now at.old at.new) }
{
    skip(tokens, at);
    let name = lexeme(alloc, text, tokens, at)?;
    skip(tokens, at);
    let parameters = parameters(alloc, text, tokens, at)?;
    let result = optional_result(alloc, text, tokens, at)?;
    let statements = block(alloc, text, tokens, at, levels)?;
    Ok(MemberKind::Method(name, parameters, result, statements))
}

// The parameters of a method, if any, and the `)` behind them.
fn parameters(
    alloc: Global,
    text: &str,
    tokens: &[Token],
    at: &mut usize,
) -> Result<Vec<Parameter>, NoMemory>
    requires { Begun text.now tokens.now at.old limit parameters_behind }
    ensures { IfOk result (ReadsParameters text.now tokens.now at.old at.new) }
{
    let mut parameters = Vec::new(alloc);
    if is_next(tokens, *at, Mark::RightParenthesis) {
        skip(tokens, at);
        return Ok(parameters);
    }
    let first = parameter(alloc, text, tokens, at)?;
    parameters.push(first)?;
    while is_next(tokens, *at, Mark::Comma) {
        skip(tokens, at);
        let next = parameter(alloc, text, tokens, at)?;
        parameters.push(next)?;
    }
    skip(tokens, at);
    Ok(parameters)
}

// A parameter with its type.
fn parameter(
    alloc: Global,
    text: &str,
    tokens: &[Token],
    at: &mut usize,
) -> Result<Parameter, NoMemory>
    requires { Begun text.now tokens.now at.old limit parameter_symbols }
    ensures { IfOk result (ReadsParameter text.now tokens.now at.old at.new) }
{
    let name = lexeme(alloc, text, tokens, at)?;
    skip(tokens, at);
    let type_name = path(alloc, text, tokens, at)?;
    Ok(Parameter { name, type_name })
}

// What a method gives, if it is said.
fn optional_result(
    alloc: Global,
    text: &str,
    tokens: &[Token],
    at: &mut usize,
) -> Result<Option<ResultType>, NoMemory>
    requires { Begun text.now tokens.now at.old limit (part optional_result) }
    ensures { IfOk result (ReadsResult text.now tokens.now at.old at.new) }
{
    if !is_next(tokens, *at, Mark::Colon) {
        return Ok(None);
    }
    skip(tokens, at);
    if is_keyword_next(tokens, *at, Keyword::Void) {
        let start = *at;
        skip(tokens, at);
        return Ok(Some(ResultType::Void(span(tokens, start, *at))));
    }
    let names = path(alloc, text, tokens, at)?;
    Ok(Some(ResultType::Path(names)))
}

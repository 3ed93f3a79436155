// The reading of metadata, where the tokens make a sentence.

ghost use Rattle.std.specs.Prelude.{IfOk};
ghost use Rattle.as3_parser.specs.Ahead.{Begun};
ghost use Rattle.as3_parser.specs.Forms.{ReadsMetadataArgument, ReadsMetadataArguments, ReadsMetadataTag, ReadsMetadataTags, arguments_behind, part};
ghost use Rattle.as3_parser.specs.Productions.{metadata_tag, metadata_tags, pair};
ghost use Rattle.as3_parser.specs.Syntax.{limit};

use crate::reading::{is_identifier_next, is_next, lexeme, skip, span};
use crate::tree::{MetadataArgument, MetadataTag};
use as3_lexer::{Mark, Token};
use flex_base::NoMemory;
use std::alloc::Global;

/// Any number of metadata tags.
pub fn metadata_tags(
    alloc: Global,
    text: &str,
    tokens: &[Token],
    at: &mut usize,
) -> Result<Vec<MetadataTag>, NoMemory>
    requires { Begun text.now tokens.now at.old limit (part metadata_tags) }
    ensures { IfOk result (ReadsMetadataTags text.now tokens.now at.old at.new) }
{
    let mut tags = Vec::new(alloc);
    while is_next(tokens, *at, Mark::LeftBracket) {
        let tag = metadata_tag(alloc, text, tokens, at)?;
        tags.push(tag)?;
    }
    Ok(tags)
}

// A metadata tag.
fn metadata_tag(
    alloc: Global,
    text: &str,
    tokens: &[Token],
    at: &mut usize,
) -> Result<MetadataTag, NoMemory>
    requires { Begun text.now tokens.now at.old limit (part metadata_tag) }
    ensures { IfOk result (ReadsMetadataTag text.now tokens.now at.old at.new) }
{
    let start = *at;
    skip(tokens, at);
    let name = lexeme(alloc, text, tokens, at)?;
    if !is_next(tokens, *at, Mark::LeftParenthesis) {
        skip(tokens, at);
        return Ok(MetadataTag {
            span: span(tokens, start, *at),
            name,
            arguments: Vec::new(alloc),
        });
    }
    skip(tokens, at);
    let arguments = arguments(alloc, text, tokens, at)?;
    skip(tokens, at);
    Ok(MetadataTag {
        span: span(tokens, start, *at),
        name,
        arguments,
    })
}

// The arguments of a tag, if any, and the `)` behind them.
fn arguments(
    alloc: Global,
    text: &str,
    tokens: &[Token],
    at: &mut usize,
) -> Result<Vec<MetadataArgument>, NoMemory>
    requires { Begun text.now tokens.now at.old limit arguments_behind }
    ensures { IfOk result (ReadsMetadataArguments text.now tokens.now at.old at.new) }
{
    let mut arguments = Vec::new(alloc);
    if is_next(tokens, *at, Mark::RightParenthesis) {
        skip(tokens, at);
        return Ok(arguments);
    }
    let first = argument(alloc, text, tokens, at)?;
    arguments.push(first)?;
    while is_next(tokens, *at, Mark::Comma) {
        skip(tokens, at);
        let next = argument(alloc, text, tokens, at)?;
        arguments.push(next)?;
    }
    skip(tokens, at);
    Ok(arguments)
}

// An argument, with or without a key.
fn argument(
    alloc: Global,
    text: &str,
    tokens: &[Token],
    at: &mut usize,
) -> Result<MetadataArgument, NoMemory>
    requires { Begun text.now tokens.now at.old limit (part pair) }
    ensures { IfOk result (ReadsMetadataArgument text.now tokens.now at.old at.new) }
{
    if is_identifier_next(tokens, *at) {
        let key = lexeme(alloc, text, tokens, at)?;
        skip(tokens, at);
        let value = lexeme(alloc, text, tokens, at)?;
        return Ok(MetadataArgument {
            key: Some(key),
            value,
        });
    }
    let value = lexeme(alloc, text, tokens, at)?;
    Ok(MetadataArgument { key: None, value })
}

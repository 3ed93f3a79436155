// Texts of code.

ghost use Rattle.std.specs.Prelude.{IfErr, IfOk};
ghost use Rattle.as3_lexer.specs.Tokens.{HasTokens};
ghost use Rattle.source_reading.specs.CodeTexts.{AreMembersIn, AreMetadataIn, IsCodeRefusal, IsHandlerIn, IsLexRefusal};

use crate::code::CodeRefusal;
use crate::places::placed;
use as3_lexer::{LexRefusal, TokenList, tokens};
use as3_parser::{Body, Members, Metadata, Start, parse_handler, parse_members, parse_metadata};
use source_sites::Code;
use std::alloc::Global;

/// The imports and members that a script is, or its first fault.
pub fn read_members(alloc: Global, text: &str) -> Result<Members, CodeRefusal>
    ensures tree { IfOk result (AreMembersIn text.now) }
    ensures refused { IfErr result (IsCodeRefusal Start.Members text.now) }
{
    let tokens = tokens_of(alloc, text)?;
    match parse_members(alloc, text, &tokens) {
        Ok(members) => Ok(members),
        Err(refusal) => Err(placed(text, &tokens, refusal)),
    }
}

/// The metadata that a text is, or its first fault.
pub fn read_metadata(alloc: Global, text: &str) -> Result<Metadata, CodeRefusal>
    ensures tree { IfOk result (AreMetadataIn text.now) }
    ensures refused { IfErr result (IsCodeRefusal Start.Metadata text.now) }
{
    let tokens = tokens_of(alloc, text)?;
    match parse_metadata(alloc, text, &tokens) {
        Ok(metadata) => Ok(metadata),
        Err(refusal) => Err(placed(text, &tokens, refusal)),
    }
}

/// The statements that the handler of an event is, or its first fault.
pub fn read_handler(alloc: Global, text: &str) -> Result<Body, CodeRefusal>
    ensures tree { IfOk result (IsHandlerIn text.now) }
    ensures refused { IfErr result (IsCodeRefusal Start.Handler text.now) }
{
    let tokens = tokens_of(alloc, text)?;
    match parse_handler(alloc, text, &tokens) {
        Ok(body) => Ok(body),
        Err(refusal) => Err(placed(text, &tokens, refusal)),
    }
}

// The tokens of a text, or the place of its first bad one.
pub(crate) fn tokens_of(alloc: Global, text: &str) -> Result<TokenList, CodeRefusal>
    ensures tokens { IfOk result (HasTokens text.now) }
    ensures bad { IfErr result (IsLexRefusal text.now) }
{
    match tokens(alloc, text) {
        Ok(tokens) => Ok(tokens),
        Err(LexRefusal::BadToken(at)) => Err(CodeRefusal::Fault(Code::BadToken, at)),
        Err(LexRefusal::NoMemory) => Err(CodeRefusal::NoMemory),
    }
}

// The trees of whole texts.

ghost use Rattle.std.specs.Prelude.{IfOk, IfErr};
ghost use Rattle.as3_lexer.specs.Tokens.{HasTokens};
ghost use Rattle.as3_parser.specs.Parsed.{IsClassFileOf, IsExpressionOf, IsHandlerOf, IsMembersOf, IsMetadataOf};
ghost use Rattle.as3_parser.specs.Syntax.{IsRefusal};

use crate::classes::class_file;
use crate::expressions::expression;
use crate::handler::{all_statements, ended_tokens};
use crate::members::all_items;
use crate::metadata::metadata_tags;
use crate::refusal::ParseRefusal;
use crate::start::Start;
use crate::syntax::check_syntax;
use crate::tree::{Body, ClassFile, Expression, Members, Metadata};
use as3_lexer::TokenList;
use std::alloc::Global;

/// How many levels may be open.
const LEVELS: usize = 64;

/// The expression that the tokens of a text are, or the fault that counts, as `check_syntax` says.
pub fn parse_expression(
    alloc: Global,
    text: &str,
    tokens: &TokenList,
) -> Result<Expression, ParseRefusal>
    requires { HasTokens text.now tokens.now }
    ensures tree { IfOk result (IsExpressionOf text.now tokens.now) }
    ensures refused { IfErr result (IsRefusal Start.Expression tokens.now) }
{
    check_syntax(alloc, Start::Expression, tokens)?;
    let mut at = 0;
    let expression = expression(alloc, text, tokens.as_slice(), &mut at, LEVELS)?;
    Ok(expression)
}

/// The metadata tags that the tokens of a text are, or the fault that counts, as `check_syntax`
/// says.
pub fn parse_metadata(
    alloc: Global,
    text: &str,
    tokens: &TokenList,
) -> Result<Metadata, ParseRefusal>
    requires { HasTokens text.now tokens.now }
    ensures tree { IfOk result (IsMetadataOf text.now tokens.now) }
    ensures refused { IfErr result (IsRefusal Start.Metadata tokens.now) }
{
    check_syntax(alloc, Start::Metadata, tokens)?;
    let mut at = 0;
    let tags = metadata_tags(alloc, text, tokens.as_slice(), &mut at)?;
    Ok(Metadata { tags })
}

/// The statements that the tokens of a handler are, or the fault that counts, as `check_syntax`
/// says. Where the last token is neither `;` nor `}`, a `;` is added, which takes no bytes.
pub fn parse_handler(alloc: Global, text: &str, tokens: &TokenList) -> Result<Body, ParseRefusal>
    requires { HasTokens text.now tokens.now }
    ensures tree { IfOk result (IsHandlerOf text.now tokens.now) }
    ensures refused { IfErr result (IsRefusal Start.Handler tokens.now) }
{
    check_syntax(alloc, Start::Handler, tokens)?;
    let ended = ended_tokens(alloc, tokens.as_slice())?;
    let statements = all_statements(alloc, text, ended.as_slice(), LEVELS)?;
    Ok(Body { statements })
}

/// The imports and members that the tokens of a script are, or the fault that counts, as
/// `check_syntax` says.
pub fn parse_members(alloc: Global, text: &str, tokens: &TokenList) -> Result<Members, ParseRefusal>
    requires { HasTokens text.now tokens.now }
    ensures tree { IfOk result (IsMembersOf text.now tokens.now) }
    ensures refused { IfErr result (IsRefusal Start.Members tokens.now) }
{
    check_syntax(alloc, Start::Members, tokens)?;
    let items = all_items(alloc, text, tokens.as_slice(), LEVELS)?;
    Ok(Members { items })
}

/// The class file that the tokens of a text are, or the fault that counts, as `check_syntax` says.
pub fn parse_class_file(
    alloc: Global,
    text: &str,
    tokens: &TokenList,
) -> Result<ClassFile, ParseRefusal>
    requires { HasTokens text.now tokens.now }
    ensures tree { IfOk result (IsClassFileOf text.now tokens.now) }
    ensures refused { IfErr result (IsRefusal Start.ClassFile tokens.now) }
{
    check_syntax(alloc, Start::ClassFile, tokens)?;
    let mut at = 0;
    let file = class_file(alloc, text, tokens.as_slice(), &mut at, LEVELS)?;
    Ok(file)
}

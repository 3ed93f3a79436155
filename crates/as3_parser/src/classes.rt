// The reading of class files, where the tokens make a sentence.

ghost use Rattle.std.specs.Prelude.{IfOk};
ghost use Rattle.as3_parser.specs.Ahead.{Begun};
ghost use Rattle.as3_parser.specs.ClassForms.{ReadsBase, ReadsClass, ReadsClassFile, ReadsClassMembers, ReadsImports, ReadsPackage, class_symbols, members_symbols, package_symbols};
ghost use Rattle.as3_parser.specs.Forms.{part};
ghost use Rattle.as3_parser.specs.Productions.{base_class, class_file, imports};
ghost use Rattle.as3_parser.specs.Syntax.{limit};

use crate::imports::import_directive;
use crate::members::{member, modifiers};
use crate::metadata::metadata_tags;
use crate::paths::path;
use crate::reading::{is_keyword_next, is_next, lexeme, skip};
use crate::tree::{Class, ClassFile, Import, Lexeme, Member};
use as3_lexer::{Keyword, Mark, Token};
use flex_base::NoMemory;
use std::alloc::Global;

/// A class file.
pub fn class_file(
    alloc: Global,
    text: &str,
    tokens: &[Token],
    at: &mut usize,
    levels: usize,
) -> Result<ClassFile, NoMemory>
    requires { Begun text.now tokens.now at.old levels (part class_file) }
    ensures { IfOk result (ReadsClassFile text.now tokens.now at.old at.new) }
{
    skip(tokens, at);
    let package_name = package(alloc, text, tokens, at)?;
    let imports = imports(alloc, text, tokens, at)?;
    let class = class(alloc, text, tokens, at, levels)?;
    skip(tokens, at);
    Ok(ClassFile {
        package_name,
        imports,
        class,
    })
}

// The path of a package, if it has one, and the `{` behind it.
fn package(
    alloc: Global,
    text: &str,
    tokens: &[Token],
    at: &mut usize,
) -> Result<Option<Vec<Lexeme>>, NoMemory>
    requires { Begun text.now tokens.now at.old limit package_symbols }
    ensures { IfOk result (ReadsPackage text.now tokens.now at.old at.new) }
{
    if is_next(tokens, *at, Mark::LeftBrace) {
        skip(tokens, at);
        return Ok(None);
    }
    let names = path(alloc, text, tokens, at)?;
    skip(tokens, at);
    Ok(Some(names))
}

// Any number of imports.
fn imports(
    alloc: Global,
    text: &str,
    tokens: &[Token],
    at: &mut usize,
) -> Result<Vec<Import>, NoMemory>
    requires { Begun text.now tokens.now at.old limit (part imports) }
    ensures { IfOk result (ReadsImports text.now tokens.now at.old at.new) }
{
    let mut imports = Vec::new(alloc);
    while is_keyword_next(tokens, *at, Keyword::Import) {
        let next = import_directive(alloc, text, tokens, at)?;
        imports.push(next)?;
    }
    Ok(imports)
}

// A class.
fn class(
    alloc: Global,
    text: &str,
    tokens: &[Token],
    at: &mut usize,
    levels: usize,
) -> Result<Class, NoMemory>
    requires { Begun text.now tokens.now at.old levels class_symbols }
    ensures { IfOk result (ReadsClass text.now tokens.now at.old at.new) }
{
    let metadata = metadata_tags(alloc, text, tokens, at)?;
    let modifiers = modifiers(alloc, text, tokens, at)?;
    skip(tokens, at);
    let name = lexeme(alloc, text, tokens, at)?;
    let base = base_class(alloc, text, tokens, at)?;
    skip(tokens, at);
    let members = class_members(alloc, text, tokens, at, levels)?;
    Ok(Class {
        metadata,
        modifiers,
        name,
        base,
        members,
    })
}

// The base of a class, if it has one.
fn base_class(
    alloc: Global,
    text: &str,
    tokens: &[Token],
    at: &mut usize,
) -> Result<Option<Vec<Lexeme>>, NoMemory>
    requires { Begun text.now tokens.now at.old limit (part base_class) }
    ensures { IfOk result (ReadsBase text.now tokens.now at.old at.new) }
{
    if !is_keyword_next(tokens, *at, Keyword::Extends) {
        return Ok(None);
    }
    skip(tokens, at);
    let names = path(alloc, text, tokens, at)?;
    Ok(Some(names))
}

// The members of a class, and the `}` behind them.
fn class_members(
    alloc: Global,
    text: &str,
    tokens: &[Token],
    at: &mut usize,
    levels: usize,
) -> Result<Vec<Member>, NoMemory>
    requires { Begun text.now tokens.now at.old levels members_symbols }
    ensures { IfOk result (ReadsClassMembers text.now tokens.now at.old at.new) }
{
    let mut members = Vec::new(alloc);
    while !is_next(tokens, *at, Mark::RightBrace) {
        let next = member(alloc, text, tokens, at, levels)?;
        members.push(next)?;
    }
    skip(tokens, at);
    Ok(members)
}

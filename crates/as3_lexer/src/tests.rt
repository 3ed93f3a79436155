// The tokens of texts.

use crate::{LexRefusal, Token, TokenKind, tokens};
use std::alloc::{AllocError, Global};
use std::fmt::Write;
use std::test::Fail;

// Every keyword and every mark.
const RESERVED: &str = "as break case catch class const continue default delete do else extends \
    false finally for function if implements import in instanceof interface internal is native \
    new null override package private protected public return super switch this throw to true \
    try typeof use var void while with { } ( ) [ ] ; , . : ? = == === != !== < <= > >= + - * / % \
    ! && || += -= *= ++ --";

// Texts, and what is read in each: the place and the kind of each token, or the bad place.
const TEXTS: &[&str] = &[
    // An assignment.
    "a+=1;",
    "0-1 id, 1-3 +=, 3-4 num, 4-5 ;, ",
    // Nothing at all.
    "",
    "",
    // A first U+FEFF, which the places count, and a second.
    "\u{feff}a",
    "3-4 id, ",
    "\u{feff}\u{feff}a",
    "bad 3",
    // White space, with FF.
    " \t\r\n\u{c}a",
    "5-6 id, ",
    // No white space.
    "a\u{b}",
    "bad 1",
    "a\u{a0}b",
    "bad 1",
    // Numbers.
    "0x1F 0x 0xg 007 1.5 12ab",
    "0-4 num, 5-6 num, 6-7 id, 8-9 num, 9-11 id, 12-15 num, 16-17 num, 17-18 ., 18-19 num, 20-22 num, 22-24 id, ",
    // Identifiers.
    "$ _ $_9 iff été α1 ifé",
    "0-1 id, 2-3 id, 4-7 id, 8-11 id, 12-17 id, 18-21 id, 22-26 id, ",
    // Three of a mark that has two.
    "a &&& b",
    "bad 4",
    // Characters that begin none.
    "a \u{2192}",
    "bad 2",
    "@",
    "bad 0",
    "a & b",
    "bad 2",
    "a | b",
    "bad 2",
    "^",
    "bad 0",
    "~",
    "bad 0",
    "#",
    "bad 0",
    "\\",
    "bad 0",
    "`",
    "bad 0",
    // Texts, and marks of the other kind in them.
    "\"it's\" 'a \"b\"' ''",
    "0-6 text, 7-14 text, 15-17 text, ",
    // Escapes.
    "'\\b\\t\\n\\f\\r\\\"\\'\\\\' '\\x4a\\u00E9' '\\q\\é'",
    "0-18 text, 19-31 text, 32-39 text, ",
    // Escapes without their digits, and of surrogates.
    "a '\\x4g'",
    "bad 2",
    "'\\u12'",
    "bad 0",
    "'\\uD800'",
    "bad 0",
    "'\\udfff'",
    "bad 0",
    "'\\uD7FF\\uE000'",
    "0-14 text, ",
    // Texts that aren't closed, or hold a line end.
    "\"abc",
    "bad 0",
    "b = 'abc\"",
    "bad 4",
    "'a\nb'",
    "bad 0",
    "'a\\\nb'",
    "bad 0",
    "'a\\'",
    "bad 0",
    "'a\rb'",
    "0-5 text, ",
    // Comments.
    "a//b\nc//d",
    "0-1 id, 5-6 id, ",
    "a//b\rc",
    "0-1 id, ",
    "a/* b * / */c/**/d/***/e",
    "0-1 id, 12-13 id, 17-18 id, 23-24 id, ",
    "/*/ a",
    "bad 0",
    "a /* b *",
    "bad 2",
    "a / b /",
    "0-1 id, 2-3 /, 4-5 id, 6-7 /, ",
    // Marks one behind another.
    "===== !==== a+++b /= %=",
    "0-3 ===, 3-5 ==, 6-9 !==, 9-11 ==, 12-13 id, 13-15 ++, 15-16 +, 16-17 id, 18-19 /, 19-20 =, 21-22 %, 22-23 =, ",
];

// How a token's kind is shown.
fn kind_of(token: &Token) -> &'static str {
    match token.kind {
        TokenKind::Identifier => "id",
        TokenKind::Keyword(keyword) => keyword.spelling(),
        TokenKind::Number => "num",
        TokenKind::Text => "text",
        TokenKind::Mark(mark) => mark.spelling(),
    }
}

// The places and the kinds of a text's tokens, or its bad place.
fn said(alloc: Global, text: &str) -> Result<String, AllocError> {
    match tokens(alloc, text) {
        Ok(list) => {
            let mut said = String::new(alloc);
            for token in list.as_slice() {
                let start = token.start;
                let end = token.end;
                let kind = kind_of(token);
                write!(said, "{start}-{end} {kind}, ")?;
            }
            Ok(said)
        }
        Err(LexRefusal::BadToken(place)) => format!(in alloc; "bad {place}"),
        Err(LexRefusal::NoMemory) => Err(AllocError),
    }
}

// The kinds of a text's tokens, with spaces between them.
fn kinds(alloc: Global, text: &str) -> Result<String, LexRefusal> {
    let mut kinds = String::new(alloc);
    for token in tokens(alloc, text)?.as_slice() {
        if !kinds.is_empty() && kinds.push(' ').is_err() {
            return Err(LexRefusal::NoMemory);
        }
        if kinds.push_str(kind_of(token)).is_err() {
            return Err(LexRefusal::NoMemory);
        }
    }
    Ok(kinds)
}

#[test]
fn keywords_and_marks_are_told_apart(rt: HostRuntime) -> Result<(), Fail> {
    let kinds = kinds(rt.alloc(), RESERVED)?;
    assert_eq!(rt; kinds.as_str(), RESERVED);
    Ok(())
}

#[test]
fn texts_are_read(rt: HostRuntime) -> Result<(), Fail> {
    for pair in TEXTS.chunks(2) {
        if let [text, expected] = pair {
            let said = said(rt.alloc(), text)?;
            assert_eq!(rt; said.as_str(), *expected, "in {text:?}");
        }
    }
    Ok(())
}

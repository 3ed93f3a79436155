// What is wrong with texts.

ghost use Rattle.as3_lexer.specs.Tokens.{HasTokens};

use crate::{
    BinaryOperator, Expression, ParseRefusal, Start, Statement, parse_class_file, parse_expression,
    parse_handler, parse_members, parse_metadata,
};
use as3_lexer::{LexRefusal, TokenList, tokens};
use std::alloc::{AllocError, Global};
use std::test::Fail;

// What each text is to be, the text, and what is wrong with it.
const TEXTS: &[&str] = &[
    // Expressions.
    "expression",
    "1 + * 2",
    "syntax 2",
    "expression",
    "f(",
    "syntax 2",
    "expression",
    "",
    "syntax 0",
    "expression",
    "a ? b : c.d[1](x, 'y')",
    "ok",
    "expression",
    "a b",
    "syntax 1",
    "expression",
    "-this + super.n * !null",
    "ok",
    // Handlers, with and without their last `;`.
    "handler",
    "f()",
    "ok",
    "handler",
    "f();",
    "ok",
    "handler",
    "",
    "ok",
    "handler",
    "{ f(); }",
    "ok",
    "handler",
    "{trace(1)}",
    "syntax 5",
    "handler",
    "f(",
    "syntax 2",
    "handler",
    "a / b;",
    "syntax 1",
    // An `else`.
    "handler",
    "if (a) if (b) c(); else d(); else e();",
    "ok",
    "handler",
    "if (a) { } else { } else { }",
    "syntax 9",
    // Members, metadata and class files.
    "members",
    "public var n:int;",
    "ok",
    "metadata",
    "[Bindable]",
    "ok",
    "class file",
    "package { }",
    "syntax 2",
    "class file",
    "package a.b { public class A extends B { private function f():void { } } }",
    "ok",
    // 64 levels, and 65.
    "expression",
    "- - - - - - - - - - - - - - - - - - - - - - - - - - - - - - - - \
        - - - - - - - - - - - - - - - - - - - - - - - - - - - - - - - x",
    "ok",
    "expression",
    "- - - - - - - - - - - - - - - - - - - - - - - - - - - - - - - - \
        - - - - - - - - - - - - - - - - - - - - - - - - - - - - - - - - x",
    "deep 63",
    // Level 65 at the `;` that is added, where all of it is no handler.
    "handler",
    "{{{{{{{{{{{{{{{{{{{{{{{{{{{{{{{{{{{{{{{{{{{{{{{{{{{{{{{{{{{{{{{{",
    "syntax 64",
];

// What a text is to be, by its name.
fn start_of(name: &str) -> Start {
    match name {
        "class file" => Start::ClassFile,
        "members" => Start::Members,
        "handler" => Start::Handler,
        "metadata" => Start::Metadata,
        _ => Start::Expression,
    }
}

// What is wrong with tokens, by the call that builds their tree.
fn judge(alloc: Global, start: Start, text: &str, tokens: &TokenList) -> Result<(), ParseRefusal>
    requires { HasTokens text.now tokens.now }
{
    match start {
        Start::Expression => {
            let _tree = parse_expression(alloc, text, tokens)?;
            Ok(())
        }
        Start::Handler => {
            let _tree = parse_handler(alloc, text, tokens)?;
            Ok(())
        }
        Start::Metadata => {
            let _tree = parse_metadata(alloc, text, tokens)?;
            Ok(())
        }
        Start::ClassFile => {
            let _tree = parse_class_file(alloc, text, tokens)?;
            Ok(())
        }
        Start::Members => {
            let _tree = parse_members(alloc, text, tokens)?;
            Ok(())
        }
    }
}

// What is wrong with a text.
fn said(alloc: Global, start: Start, text: &str) -> Result<String, AllocError> {
    match tokens(alloc, text) {
        Ok(tokens) => match judge(alloc, start, text, &tokens) {
            Ok(()) => format!(in alloc; "ok"),
            Err(ParseRefusal::Syntax(at)) => format!(in alloc; "syntax {at}"),
            Err(ParseRefusal::TooDeep(at)) => format!(in alloc; "deep {at}"),
            Err(ParseRefusal::NoMemory) => Err(AllocError),
        },
        Err(LexRefusal::BadToken(place)) => format!(in alloc; "bad {place}"),
        Err(LexRefusal::NoMemory) => Err(AllocError),
    }
}

#[test]
fn texts_are_judged(rt: HostRuntime) -> Result<(), Fail> {
    for row in TEXTS.chunks(3) {
        if let [start, text, expected] = row {
            let said = said(rt.alloc(), start_of(start), text)?;
            assert_eq!(rt; said.as_str(), *expected, "in {text:?}");
        }
    }
    Ok(())
}

// Whether an expression is `x - y - z`, with its place and that of `x - y`.
fn is_difference_of_difference(expression: &Expression) -> bool {
    match expression {
        Expression::Binary(whole, BinaryOperator::Subtract, left, _) => {
            let whole_fits = whole.start == 0 && whole.end == 9;
            match &**left {
                Expression::Binary(inner, BinaryOperator::Subtract, _, _) => {
                    whole_fits && inner.start == 0 && inner.end == 5
                }
                _ => false,
            }
        }
        _ => false,
    }
}

// Whether a statement is an `if` without an `else`, whose statement is an `if` with one.
fn has_inner_else(statement: &Statement) -> bool {
    match statement {
        Statement::If(_, _, inner) => matches!(&**inner, Statement::IfElse(..)),
        _ => false,
    }
}

#[test]
fn operators_group_to_the_left(rt: HostRuntime) -> Result<(), Fail> {
    let text = "a - b - c";
    match tokens(rt.alloc(), text) {
        Ok(tokens) => match parse_expression(rt.alloc(), text, &tokens) {
            Ok(tree) => assert!(rt; is_difference_of_difference(&tree)),
            Err(_) => assert!(rt; false),
        },
        Err(_) => assert!(rt; false),
    }
    Ok(())
}

#[test]
fn an_else_belongs_to_the_nearest_if(rt: HostRuntime) -> Result<(), Fail> {
    let text = "if (a) if (b) c(); else d()";
    match tokens(rt.alloc(), text) {
        Ok(tokens) => match parse_handler(rt.alloc(), text, &tokens) {
            Ok(body) => assert!(rt; body.statements.iter().all(has_inner_else)),
            Err(_) => assert!(rt; false),
        },
        Err(_) => assert!(rt; false),
    }
    Ok(())
}

// A sum of 20,001 names.
fn long_sum(alloc: Global) -> Result<String, AllocError> {
    let mut text = String::from_str(alloc, "a")?;
    for _ in 0..20_000 {
        text.push_str("+a")?;
    }
    Ok(text)
}

#[test]
fn a_long_sum_is_read_and_dropped(rt: HostRuntime) -> Result<(), Fail> {
    let text = long_sum(rt.alloc())?;
    match tokens(rt.alloc(), &text) {
        Ok(tokens) => assert!(rt; parse_expression(rt.alloc(), &text, &tokens).is_ok()),
        Err(_) => assert!(rt; false),
    }
    Ok(())
}

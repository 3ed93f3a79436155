// The types of the local variables of a body.

ghost use Rattle.std.specs.Prelude.{IfOk};
ghost use Rattle.source_sites.specs.Trees.{locals_of, locals_of_body, locals_of_start};
ghost use Rattle.member_checks.specs.CodeRules.{Finds, local_rules};

use crate::functions::check_local_types;
use crate::scope::ClassScope;
use as3_parser::{LoopStart, Statement};
use flex_base::NoMemory;
use source_sites::Site;
use std::alloc::Global;

/// The first broken rule of the types of the local variables of statements, in text order.
#[cycle(locals)]
pub fn check_locals(
    alloc: Global,
    scope: &ClassScope,
    statements: &[Statement],
) -> Result<Option<Site>, NoMemory>
    ensures { IfOk result (Finds scope.now (local_rules scope.now (locals_of_body statements.now))) }
{
    for statement in statements {
        let site = check_statement(alloc, scope, statement)?;
        if site.is_some() {
            return Ok(site);
        }
    }
    Ok(None)
}

// The first broken rule of the types of the local variables of a statement.
#[cycle(locals)]
fn check_statement(
    alloc: Global,
    scope: &ClassScope,
    statement: &Statement,
) -> Result<Option<Site>, NoMemory>
    ensures { IfOk result (Finds scope.now (local_rules scope.now (locals_of statement.now))) }
{
    match statement {
        Statement::Block(_, statements) => check_locals(alloc, scope, statements.as_slice()),
        Statement::Variables(_, variables) => {
            check_local_types(alloc, scope, variables.as_slice())
        }
        Statement::If(_, _, body) => check_statement(alloc, scope, body),
        Statement::IfElse(_, _, body, other) => {
            let site = check_statement(alloc, scope, body)?;
            if site.is_some() {
                return Ok(site);
            }
            check_statement(alloc, scope, other)
        }
        Statement::While(_, _, body) => check_statement(alloc, scope, body),
        Statement::DoWhile(_, body, _) => check_statement(alloc, scope, body),
        Statement::For(_, head, body) => {
            let site = check_start(alloc, scope, &head.start)?;
            if site.is_some() {
                return Ok(site);
            }
            check_statement(alloc, scope, body)
        }
        Statement::Break(_)
        | Statement::Continue(_)
        | Statement::Return(_, _)
        | Statement::Empty(_)
        | Statement::Simple(_, _) => Ok(None),
    }
}

// The first broken rule of the types of the variables at the head of a `for`.
fn check_start(
    alloc: Global,
    scope: &ClassScope,
    start: &Option<LoopStart>,
) -> Result<Option<Site>, NoMemory>
    ensures { IfOk result (Finds scope.now (local_rules scope.now (locals_of_start start.now))) }
{
    match start {
        Some(LoopStart::Variables(_, variables)) => {
            check_local_types(alloc, scope, variables.as_slice())
        }
        Some(LoopStart::Simple(_)) | None => Ok(None),
    }
}

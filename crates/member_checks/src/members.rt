// The rules of what a member declares.

ghost use Rattle.std.specs.Prelude.{◌++◌, ◌∷◌, [], IfOk, List, map};
ghost use Rattle.std.specs.List.{flat_map};
ghost use Rattle.as3_parser.specs.declared.tree.Modifier.{Modifier};
ghost use Rattle.source_sites.specs.Trees.{locals_of_body, member_of, variable_of};
ghost use Rattle.class_sites.specs.MemberSites.{wrong_modifiers};
ghost use Rattle.as3_types.specs.Types.{function_of};
ghost use Rattle.member_checks.specs.CodeRules.{Finds, body_rules, code_and_words, code_rules, function_rules, member_rules, members_rules, named_type_rules, variable_rules};

use crate::functions::{check_parameters, check_result};
use crate::locals::check_locals;
use crate::metadata::check_metadata;
use crate::naming::{check_function_name, check_variable_name};
use crate::rules::unknown_type;
use crate::scope::ClassScope;
use as3_parser::{
    Lexeme, Member, MemberKind, Modifier, Parameter, ResultType, Statement, Variable,
};
use as3_types::wrong_modifiers;
use flex_base::NoMemory;
use source_sites::Site;
use std::alloc::Global;

/// The first broken rule of members, one behind another.
pub fn check_members(
    alloc: Global,
    scope: &ClassScope,
    members: &[Member],
) -> Result<Option<Site>, NoMemory>
    ensures { IfOk result (Finds scope.now (members_rules scope.now members.now)) }
{
    let mut rest = members;
    while let Some((member, others)) = rest.split_first() {
        let site = check_member(alloc, scope, member)?;
        if site.is_some() {
            return Ok(site);
        }
        rest = others;
    }
    Ok(None)
}

/// The first broken rule of a member: its metadata, what it declares, and then its words.
pub fn check_member(
    alloc: Global,
    scope: &ClassScope,
    member: &Member,
) -> Result<Option<Site>, NoMemory>
    ensures { IfOk result (Finds scope.now (member_rules scope.now (member_of member.now))) }
{
    let metadata = check_metadata(alloc, scope, member.metadata.as_slice())?;
    if metadata.is_some() {
        return Ok(metadata);
    }
    let site = check_member_code(alloc, scope, member)?;
    Ok(site)
}

/// The first broken rule of a member behind its metadata: what it declares, and then its words.
#[tactic(auto, using(crate::proofs::Walks::first_fails, crate::proofs::Walks::first_holds))]
pub fn check_member_code(
    alloc: Global,
    scope: &ClassScope,
    member: &Member,
) -> Result<Option<Site>, NoMemory>
    ensures { IfOk result (Finds scope.now (code_and_words scope.now member.now)) }
{
    let site = check_declared(alloc, scope, member)?;
    if site.is_some() {
        return Ok(site);
    }
    Ok(wrong_modifiers(scope.file, member))
}

/// The first broken rule of what a member declares: of each variable its name and its type; of a
/// function its name, its parameters, its result and its body.
pub fn check_declared(
    alloc: Global,
    scope: &ClassScope,
    member: &Member,
) -> Result<Option<Site>, NoMemory>
    ensures { IfOk result (Finds scope.now (code_rules scope.now member.now)) }
{
    let modifiers = member.modifiers.as_slice();
    match &member.kind {
        MemberKind::Variables(variables) => {
            let site = check_variables(alloc, scope, variables.as_slice())?;
            Ok(site)
        }
        MemberKind::Method(name, parameters, given, body) => {
            let parameters = parameters.as_slice();
            let body = body.as_slice();
            let site = check_function(alloc, scope, modifiers, name, parameters, given, body)?;
            Ok(site)
        }
    }
}

fn check_variables(
    alloc: Global,
    scope: &ClassScope,
    variables: &[Variable],
) -> Result<Option<Site>, NoMemory>
    ensures { IfOk result (λ site. (modifiers : List Modifier) → Finds scope.now (flat_map (variable_rules scope.now modifiers) (map variable_of variables.now)) site) }
{
    let mut rest = variables;
    while let Some((variable, others)) = rest.split_first() {
        let site = check_variable(alloc, scope, variable)?;
        if site.is_some() {
            return Ok(site);
        }
        rest = others;
    }
    Ok(None)
}

fn check_variable(
    alloc: Global,
    scope: &ClassScope,
    variable: &Variable,
) -> Result<Option<Site>, NoMemory>
    ensures { IfOk result (λ site. (modifiers : List Modifier) → Finds scope.now (variable_rules scope.now modifiers (variable_of variable.now)) site) }
{
    let name = check_variable_name(scope, variable);
    if name.is_some() {
        return Ok(name);
    }
    let site = unknown_type(alloc, scope, variable.type_name.as_slice())?;
    Ok(site)
}

fn check_function(
    alloc: Global,
    scope: &ClassScope,
    modifiers: &[Modifier],
    name: &Lexeme,
    parameters: &[Parameter],
    given: &Option<ResultType>,
    body: &[Statement],
) -> Result<Option<Site>, NoMemory>
    ensures { IfOk result (Finds scope.now (function_rules scope.now modifiers.now (function_of name.now parameters.now given.now (locals_of_body body.now)))) }
{
    let own = check_function_name(alloc, scope, modifiers, name, parameters, given)?;
    if own.is_some() {
        return Ok(own);
    }
    let site = check_types(alloc, scope, parameters, given, body)?;
    Ok(site)
}

// The first broken rule of the types that a function names: of its parameters, its result and its
// body.
#[tactic(auto, using(crate::proofs::Walks::first_fails, crate::proofs::Walks::first_holds))]
fn check_types(
    alloc: Global,
    scope: &ClassScope,
    parameters: &[Parameter],
    given: &Option<ResultType>,
    body: &[Statement],
) -> Result<Option<Site>, NoMemory>
    ensures { IfOk result (Finds scope.now (named_type_rules scope.now parameters.now given.now body.now)) }
{
    let first = check_parameters(alloc, scope, parameters)?;
    if first.is_some() {
        return Ok(first);
    }
    let site = check_result_and_body(alloc, scope, given, body)?;
    Ok(site)
}

#[tactic(auto, using(crate::proofs::Walks::first_fails, crate::proofs::Walks::first_holds))]
fn check_result_and_body(
    alloc: Global,
    scope: &ClassScope,
    given: &Option<ResultType>,
    body: &[Statement],
) -> Result<Option<Site>, NoMemory>
    ensures { IfOk result (Finds scope.now (body_rules scope.now given.now body.now)) }
{
    let first = check_result(alloc, scope, given)?;
    if first.is_some() {
        return Ok(first);
    }
    let site = check_locals(alloc, scope, body)?;
    Ok(site)
}

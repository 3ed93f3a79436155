// The rules of what functions and variables name.

ghost use Rattle.std.specs.Prelude.{◌≡◌, [], ◌∷◌, IfOk, map};
ghost use Rattle.source_sites.specs.Sites.{first_site};
ghost use Rattle.source_sites.specs.Trees.{parameter_of, result_of, variable_of};
ghost use Rattle.class_sites.specs.MemberSites.{too_many_parameters};
ghost use Rattle.member_checks.specs.CodeRules.{Finds, local_rules, rules_of_parameters, result_rules, type_rule};

use crate::rules::unknown_type;
use crate::scope::ClassScope;
use as3_parser::{Parameter, ResultType, Variable};
use as3_types::site_unless;
use flex_base::NoMemory;
use source_sites::{Code, Site};
use std::alloc::Global;

/// How many parameters a function may have. This project's own limit.
const MOST_PARAMETERS: usize = 64;

/// The first broken rule of the parameters of a function: each name before its type.
pub fn check_parameters(
    alloc: Global,
    scope: &ClassScope,
    parameters: &[Parameter],
) -> Result<Option<Site>, NoMemory>
    ensures { IfOk result (Finds scope.now (rules_of_parameters scope.now parameters.now)) }
{
    let mut number = 0;
    let mut rest = parameters;
    while let Some((parameter, others)) = rest.split_first() {
        let site = check_parameter(alloc, scope, number, parameter)?;
        if site.is_some() {
            return Ok(site);
        }
        number += 1;
        rest = others;
    }
    Ok(None)
}

// The first broken rule of a parameter with so many before it.
#[tactic(auto, using(crate::proofs::Walks::one_fails, crate::proofs::Walks::one_holds))]
fn check_parameter(
    alloc: Global,
    scope: &ClassScope,
    number: usize,
    parameter: &Parameter,
) -> Result<Option<Site>, NoMemory>
    ensures { IfOk result (Finds scope.now (too_many_parameters number (parameter_of parameter.now) ∷ type_rule scope.now parameter.now.type_name.items ∷ [])) }
{
    let many = too_many_parameters(scope.file, number, parameter);
    if many.is_some() {
        return Ok(many);
    }
    unknown_type(alloc, scope, parameter.type_name.as_slice())
}

// A function has at most 64 parameters. At the name of the one past them.
fn too_many_parameters(file: u32, number: usize, parameter: &Parameter) -> Option<Site>
    ensures { result ≡ first_site file (too_many_parameters number (parameter_of parameter.now) ∷ []) }
{
    let at = parameter.name.span.start;
    site_unless(number != MOST_PARAMETERS, file, at, Code::TooMany)
}

/// The first broken rule of what a function gives.
pub fn check_result(
    alloc: Global,
    scope: &ClassScope,
    given: &Option<ResultType>,
) -> Result<Option<Site>, NoMemory>
    ensures { IfOk result (Finds scope.now (result_rules scope.now (result_of given.now))) }
{
    match given {
        Some(ResultType::Path(path)) => unknown_type(alloc, scope, path.as_slice()),
        Some(ResultType::Void(_)) | None => Ok(None),
    }
}

/// The first broken rule of the types of local variables.
pub fn check_local_types(
    alloc: Global,
    scope: &ClassScope,
    variables: &[Variable],
) -> Result<Option<Site>, NoMemory>
    ensures { IfOk result (Finds scope.now (local_rules scope.now (map variable_of variables.now))) }
{
    let mut rest = variables;
    while let Some((variable, others)) = rest.split_first() {
        let site = unknown_type(alloc, scope, variable.type_name.as_slice())?;
        if site.is_some() {
            return Ok(site);
        }
        rest = others;
    }
    Ok(None)
}

// The rules of the names that a class declares.

ghost use Rattle.std.specs.Prelude.{◌≡◌, ◌==◌, ◌&&◌, ◌||◌, [], ◌∷◌, IfOk, List, is_some, length, not, option_map};
ghost use Rattle.std.specs.List.{list_any};
ghost use Rattle.std.specs.Str.{bytes_eq};
ghost use Rattle.as3_parser.specs.declared.tree.Modifier.{Modifier};
ghost use Rattle.source_sites.specs.Functions.{access_of, overrides};
ghost use Rattle.source_sites.specs.Members.{signature_of};
ghost use Rattle.source_sites.specs.Syntax.{TypedName};
ghost use Rattle.source_sites.specs.Trees.{variable_of};
ghost use Rattle.class_sites.specs.MemberSites.{fits_override, name_of_function, name_of_variable};
ghost use Rattle.as3_types.specs.Tables.{found_as};
ghost use Rattle.as3_types.specs.Types.{function_of};
ghost use Rattle.member_checks.specs.declared.names.NamedPlace.{NamedPlace};
ghost use Rattle.member_checks.specs.Places.{places_before};
ghost use Rattle.member_checks.specs.CodeRules.{Finds, FindsOfFunctionName, FindsOfVariableName, above_unless, name_rules, new_rule, override_rule, room_rule, rules_of_name};

use crate::names::NamedPlace;
use crate::overriding::fits_override;
use crate::scope::ClassScope;
use as3_parser::{Lexeme, Modifier, Parameter, ResultType, Variable};
use as3_types::{FoundMember, is_constructor, member_of, overrides, site_unless};
use flex_base::NoMemory;
use flex_world::{Class, base_of};
use source_sites::{Code, Site};
use std::alloc::Global;

/// How many members a class may have, its constructor among them. This project's own limit.
const MOST_MEMBERS: usize = 1024;

/// The first broken rule of the name of a variable.
pub fn check_variable_name(scope: &ClassScope, variable: &Variable) -> Option<Site>
    ensures { FindsOfVariableName scope.now variable.now result }
{
    let above = inherited(scope, &variable.name, false);
    let free = is_free(false, above);
    check_name(scope, &variable.name, free, true)
}

/// The first broken rule of the name of a function.
pub fn check_function_name(
    alloc: Global,
    scope: &ClassScope,
    modifiers: &[Modifier],
    name: &Lexeme,
    parameters: &[Parameter],
    given: &Option<ResultType>,
) -> Result<Option<Site>, NoMemory>
    ensures { IfOk result (FindsOfFunctionName scope.now modifiers.now name.now parameters.now given.now) }
{
    let constructor = is_constructor(scope.here, name);
    let above = inherited(scope, name, constructor);
    let free = is_free(overrides(modifiers), above);
    let fits = fits_if_override(alloc, scope, modifiers, name, parameters, given, above)?;
    Ok(check_name(scope, name, free, fits))
}

// The member of the bases of the class that has the name. A constructor takes no name from them.
fn inherited<'a>(
    scope: &ClassScope<'a>,
    name: &Lexeme,
    constructor: bool,
) -> Option<FoundMember<'a>>
    ensures { option_map (found_as name.now.text) result ≡ above_unless scope.now constructor name.now.text }
{
    if constructor {
        return None;
    }
    let base = base_of(scope.table.bases.as_slice(), Class::File(scope.file))?;
    member_of(scope.table, base, name.text.as_str())
}

// Whether a name is free in the bases, or may be taken there.
fn is_free(overriding: bool, above: Option<FoundMember>) -> bool
    ensures { result ≡ (overriding || not (is_some above.entry)) }
{
    overriding || above.is_none()
}

// Whether a function fits what it overrides, if it is to override.
fn fits_if_override(
    alloc: Global,
    scope: &ClassScope,
    modifiers: &[Modifier],
    name: &Lexeme,
    parameters: &[Parameter],
    given: &Option<ResultType>,
    above: Option<FoundMember>,
) -> Result<bool, NoMemory>
    ensures { IfOk result (λ fits. (locals : List TypedName) → fits ≡ (not (overrides modifiers.now) || fits_override (access_of modifiers.now) (signature_of scope.now.table.now.classes scope.now.here.now (function_of name.now parameters.now given.now locals)) (option_map (found_as name.now.text) above.entry))) }
{
    if overrides(modifiers) {
        fits_override(alloc, scope, modifiers, name, parameters, given, above)
    } else {
        Ok(true)
    }
}

// The first broken rule of a name: it is new in the class, and in its bases unless it overrides;
// what it overrides fits; and it is among the first 1,024.
#[tactic(auto, using(crate::proofs::Walks::one_fails, crate::proofs::Walks::one_holds))]
fn check_name(scope: &ClassScope, name: &Lexeme, free: bool, fits: bool) -> Option<Site>
    ensures { Finds scope.now (rules_of_name name.now (places_before 0 name.now.span.start scope.now.names.now) free fits) result }
{
    let duplicate = duplicate_member(scope, name, free);
    if duplicate.is_some() {
        return duplicate;
    }
    check_room(scope, name, fits)
}

#[tactic(auto, using(crate::proofs::Walks::one_fails, crate::proofs::Walks::one_holds))]
fn check_room(scope: &ClassScope, name: &Lexeme, fits: bool) -> Option<Site>
    ensures { Finds scope.now (override_rule name.now fits ∷ room_rule name.now (places_before 0 name.now.span.start scope.now.names.now) ∷ []) result }
{
    let wrong = site_unless(fits, scope.file, name.span.start, Code::WrongOverride);
    if wrong.is_some() {
        return wrong;
    }
    too_many_members(scope, name)
}

fn duplicate_member(scope: &ClassScope, name: &Lexeme, free: bool) -> Option<Site>
    ensures { Finds scope.now (new_rule name.now (places_before 0 name.now.span.start scope.now.names.now) free ∷ []) result }
{
    let at = name.span.start;
    let holds = is_new(scope.names, name, free);
    site_unless(holds, scope.file, at, Code::DuplicateMember)
}

fn is_new(names: &[NamedPlace], name: &Lexeme, free: bool) -> bool
    ensures { result ≡ (not (list_any (λ (n : NamedPlace). bytes_eq n.name name.now.text) (places_before 0 name.now.span.start names.now)) && free) }
{
    !is_declared(names, name.span.start, name.text.as_str()) && free
}

fn too_many_members(scope: &ClassScope, name: &Lexeme) -> Option<Site>
    ensures { Finds scope.now (room_rule name.now (places_before 0 name.now.span.start scope.now.names.now) ∷ []) result }
{
    let at = name.span.start;
    let before = count_before(scope.names, at);
    site_unless(before != MOST_MEMBERS, scope.file, at, Code::TooMany)
}

// Whether a name is declared before a place.
fn is_declared(names: &[NamedPlace], at: usize, name: &str) -> bool
    ensures { result ≡ list_any (λ (n : NamedPlace). bytes_eq n.name name.now) (places_before 0 at names.now) }
{
    names
        .iter()
        .take_while(|other| !stands_at(other, at))
        .any(|other| other.name.as_str() == name)
}

// How many names are declared before a place.
fn count_before(names: &[NamedPlace], at: usize) -> usize
    ensures { result ≡ length (places_before 0 at names.now) }
{
    names
        .iter()
        .take_while(|other| !stands_at(other, at))
        .count()
}

fn stands_at(name: &NamedPlace, at: usize) -> bool
    ensures { result ≡ (name.now.holder == 0 && name.now.at == at) }
{
    name.holder == 0 && name.at == at
}

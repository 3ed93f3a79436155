// Whether a function fits what it overrides.

ghost use Rattle.std.specs.Prelude.{◌≡◌, IfOk, List, ℕ, map, option_map};
ghost use Rattle.source_sites.specs.Functions.{access_of};
ghost use Rattle.source_sites.specs.Members.{signature_of};
ghost use Rattle.source_sites.specs.Syntax.{TypedName};
ghost use Rattle.class_sites.specs.MemberSites.{fits_override, same_signature, same_type, same_types};
ghost use Rattle.as3_types.specs.Tables.{found_as, member_as, owned_of};
ghost use Rattle.as3_types.specs.Types.{function_of, signature_as, type_of};
ghost use Rattle.member_checks.specs.Fitting.{fits_owned};

use crate::scope::ClassScope;
use as3_parser::{Lexeme, Modifier, Parameter, ResultType};
use as3_types::{
    Found, FoundMember, OwnKind, OwnMember, Signature, ValueType, access_of, is_same_modifier,
    native_signature, signature_of,
};
use flex_base::NoMemory;
use flex_world::{Class, is_same_class};
use std::alloc::Global;

/// Whether a function overrides a method of a base that isn't private, with the same parameters,
/// result and access.
pub fn fits_override(
    alloc: Global,
    scope: &ClassScope,
    modifiers: &[Modifier],
    name: &Lexeme,
    parameters: &[Parameter],
    given: &Option<ResultType>,
    above: Option<FoundMember>,
) -> Result<bool, NoMemory>
    ensures { IfOk result (λ fits. (locals : List TypedName) → fits ≡ fits_override (access_of modifiers.now) (signature_of scope.now.table.now.classes scope.now.here.now (function_of name.now parameters.now given.now locals)) (option_map (found_as name.now.text) above.entry)) }
{
    let Some(above) = above else {
        return Ok(false);
    };
    let classes = scope.table.classes.as_slice();
    let own = signature_of(alloc, classes, scope.here, name, parameters, given)?;
    fits_member(alloc, access_of(modifiers), &own, above.member)
}

fn fits_member(
    alloc: Global,
    access: Modifier,
    own: &Signature,
    above: Found,
) -> Result<bool, NoMemory>
    ensures { IfOk result (λ fits. (name : List ℕ) → fits ≡ fits_owned access (signature_as own.now) (member_as name above.entry)) }
{
    match above {
        Found::Source(member) => Ok(fits_source(access, own, member)),
        Found::Property(_) => Ok(false),
        Found::Method(method) => {
            let native = native_signature(alloc, method)?;
            Ok(is_same_signature(own, &native) && is_same_modifier(access, Modifier::Public))
        }
    }
}

fn fits_source(access: Modifier, own: &Signature, above: &OwnMember) -> bool
    ensures { result ≡ fits_owned access (signature_as own.now) (owned_of above.now) }
{
    match &above.kind {
        OwnKind::Property(_, _) => false,
        OwnKind::Method(signature) => {
            is_same_signature(own, signature)
                && is_same_modifier(access, above.access)
                && !is_same_modifier(above.access, Modifier::Private)
        }
    }
}

fn is_same_signature(one: &Signature, other: &Signature) -> bool
    ensures { result ≡ same_signature (signature_as one.now) (signature_as other.now) }
{
    are_same_types(one.parameters.as_slice(), other.parameters.as_slice())
        && is_same_type(one.result, other.result)
        && one.optional == other.optional
}

#[tactic(auto, using(crate::proofs::SameTypes::other_ends, crate::proofs::SameTypes::types_differ, crate::proofs::SameTypes::next_types, crate::proofs::SameTypes::none_is_left, crate::proofs::SameTypes::some_are_left))]
fn are_same_types(one: &[ValueType], other: &[ValueType]) -> bool
    ensures { result ≡ same_types (map type_of one.now) (map type_of other.now) }
{
    let mut left = one;
    let mut right = other;
    while let Some((first, others)) = left.split_first() {
        let Some((second, rest)) = right.split_first() else {
            return false;
        };
        if !is_same_type(*first, *second) {
            return false;
        }
        left = others;
        right = rest;
    }
    right.is_empty()
}

// Whether types are the same. One that isn't known breaks another rule.
fn is_same_type(one: ValueType, other: ValueType) -> bool
    ensures { result ≡ same_type (type_of one) (type_of other) }
{
    match one {
        ValueType::Unknown => true,
        ValueType::Int => matches!(other, ValueType::Int | ValueType::Unknown),
        ValueType::Boolean => matches!(other, ValueType::Boolean | ValueType::Unknown),
        ValueType::String => matches!(other, ValueType::String | ValueType::Unknown),
        ValueType::Array => matches!(other, ValueType::Array | ValueType::Unknown),
        ValueType::Object(class) => is_object_of(class, other),
        ValueType::Any => matches!(other, ValueType::Any | ValueType::Unknown),
        ValueType::Void => matches!(other, ValueType::Void | ValueType::Unknown),
        ValueType::Nothing | ValueType::Listener => matches!(other, ValueType::Unknown),
    }
}

fn is_object_of(class: Class, other: ValueType) -> bool
    ensures { result ≡ same_type (type_of (ValueType.Object class)) (type_of other) }
{
    match other {
        ValueType::Unknown => true,
        ValueType::Object(other) => is_same_class(class, other),
        _ => false,
    }
}

// The members that the code of a class declares.

ghost use Rattle.std.specs.Prelude.{◌≡◌, ◌++◌, IfOk, OnOk, map};
ghost use Rattle.as3_types.specs.Tables.{owned_of};
ghost use Rattle.class_table.specs.Columns.{AddsFunction, member_owned, members_owned};

use crate::scope::ClassCode;
use crate::variables::{add_variables, is_watched};
use as3_parser::{Lexeme, Member, MemberKind, Modifier, Parameter, ResultType};
use as3_types::{OwnKind, OwnMember, access_of, is_constructor, signature_of};
use flex_base::{NoMemory, Sequence};
use std::alloc::Global;

/// The members that the code of a class declares, in text order, without its constructor.
pub fn members_of(
    alloc: Global,
    code: &ClassCode,
    members: &[Member],
) -> Result<Sequence<OwnMember>, NoMemory>
    ensures { IfOk result (λ owned. map owned_of owned ≡ members_owned code.now members.now) }
{
    let mut owned = Sequence::new(alloc);
    let mut rest = members;
    while let Some((member, others)) = rest.split_first() {
        add_member(alloc, &mut owned, code, member)?;
        rest = others;
    }
    Ok(owned)
}

/// Adds what a member of a class adds to its members.
pub fn add_member(
    alloc: Global,
    owned: &mut Sequence<OwnMember>,
    code: &ClassCode,
    member: &Member,
) -> Result<(), NoMemory>
    ensures { OnOk result (map owned_of owned.new ≡ map owned_of owned.old ++ member_owned code.now member.now) }
{
    let access = access_of(member.modifiers.as_slice());
    match &member.kind {
        MemberKind::Variables(variables) => {
            let bindable = is_watched(code, access, member.metadata.as_slice());
            let variables = variables.as_slice();
            add_variables(alloc, owned, code, access, bindable, variables)?;
            Ok(())
        }
        MemberKind::Method(name, parameters, given, _) => {
            let parameters = parameters.as_slice();
            add_function(alloc, owned, code, access, name, parameters, given)?;
            Ok(())
        }
    }
}

fn add_function(
    alloc: Global,
    owned: &mut Sequence<OwnMember>,
    code: &ClassCode,
    access: Modifier,
    name: &Lexeme,
    parameters: &[Parameter],
    given: &Option<ResultType>,
) -> Result<(), NoMemory>
    ensures { OnOk result (AddsFunction code.now access name.now parameters.now given.now owned.old owned.new) }
{
    if is_constructor(code.here, name) {
        return Ok(());
    }
    let taken = signature_of(alloc, code.classes, code.here, name, parameters, given)?;
    let name = name.text.clone()?;
    owned.push(OwnMember {
        name,
        access,
        kind: OwnKind::Method(taken),
    })?;
    Ok(())
}

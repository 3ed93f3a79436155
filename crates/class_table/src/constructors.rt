// What constructors take.

ghost use Rattle.std.specs.Prelude.{◌≡◌, IfOk, List, option_map};
ghost use Rattle.source_sites.specs.Trees.{declares_of};
ghost use Rattle.as3_types.specs.Types.{signature_as};
ghost use Rattle.class_table.specs.Columns.{IsConstructor, constructor_declared, constructor_written};

use as3_parser::{Lexeme, Member, MemberKind, Parameter, ResultType};
use as3_types::{Signature, is_constructor, signature_of};
use flex_base::NoMemory;
use source_sites::NamedClass;
use std::alloc::Global;

/// What the written constructor of a class takes, which is the first function of the class's name;
/// `None` exactly where there is none.
pub fn constructor_of(
    alloc: Global,
    classes: &[NamedClass],
    here: &NamedClass,
    members: &[Member],
) -> Result<Option<Signature>, NoMemory>
    ensures { IfOk result (λ s. option_map signature_as s ≡ constructor_written classes.now here.now members.now) }
{
    let mut rest = members;
    while let Some((member, others)) = rest.split_first() {
        let found = constructor_in(alloc, classes, here, &member.kind)?;
        if found.is_some() {
            return Ok(found);
        }
        rest = others;
    }
    Ok(None)
}

/// What a constructor takes that a member declares; `None` exactly where it declares none.
pub fn constructor_in(
    alloc: Global,
    classes: &[NamedClass],
    here: &NamedClass,
    kind: &MemberKind,
) -> Result<Option<Signature>, NoMemory>
    ensures { IfOk result (λ s. option_map signature_as s ≡ constructor_declared classes.now here.now (declares_of kind.now)) }
{
    match kind {
        MemberKind::Variables(_) => Ok(None),
        MemberKind::Method(name, parameters, given, _) => {
            let parameters = parameters.as_slice();
            let taken = if_constructor(alloc, classes, here, name, parameters, given)?;
            Ok(taken)
        }
    }
}

fn if_constructor(
    alloc: Global,
    classes: &[NamedClass],
    here: &NamedClass,
    name: &Lexeme,
    parameters: &[Parameter],
    given: &Option<ResultType>,
) -> Result<Option<Signature>, NoMemory>
    ensures { IfOk result (IsConstructor classes.now here.now name.now parameters.now given.now) }
{
    if !is_constructor(here, name) {
        return Ok(None);
    }
    let taken = signature_of(alloc, classes, here, name, parameters, given)?;
    Ok(Some(taken))
}

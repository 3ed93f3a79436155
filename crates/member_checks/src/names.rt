// The names that a class declares.

ghost use Rattle.std.specs.Prelude.{◌≡◌, ◌++◌, ◌∷◌, [], IfOk, OnOk, map};
ghost use Rattle.source_sites.specs.Trees.{declares_of, member_of};
ghost use Rattle.class_sites.specs.MemberSites.{names_declared, names_of_members};
ghost use Rattle.member_checks.specs.Places.{lexeme_place, place_of_name, places_in, variable_place};

use as3_parser::{Lexeme, Member, MemberKind, Variable};
use flex_base::{NoMemory, Sequence, Text};
use std::alloc::Global;

/// A name that a class declares, and where it stands.
#[derive(Drop)]
pub struct NamedPlace {
    /// The place of the element whose code or attribute it stands in; 0 in a class file.
    pub holder: usize,
    /// A byte of the code, or of the file for an attribute.
    pub at: usize,
    pub name: Text,
}

/// The names that members declare, in text order: each variable, and each function, the constructor
/// among them.
pub fn declared_names(
    alloc: Global,
    holder: usize,
    members: &[Member],
) -> Result<Sequence<NamedPlace>, NoMemory>
    ensures { IfOk result (λ names. names ≡ places_in holder members.now) }
{
    let mut names = Sequence::new(alloc);
    let mut rest = members;
    while let Some((member, others)) = rest.split_first() {
        add_member(&mut names, holder, member)?;
        rest = others;
    }
    Ok(names)
}

#[tactic(auto, using(crate::proofs::Declared::variable_places))]
fn add_member(
    names: &mut Sequence<NamedPlace>,
    holder: usize,
    member: &Member,
) -> Result<(), NoMemory>
    ensures { OnOk result (names.new ≡ names.old ++ map place_of_name (names_declared holder member.now.modifiers.items (declares_of member.now.kind))) }
{
    match &member.kind {
        MemberKind::Variables(variables) => add_variables(names, holder, variables.as_slice()),
        MemberKind::Method(name, _, _, _) => add_name(names, holder, name),
    }
}

fn add_variables(
    names: &mut Sequence<NamedPlace>,
    holder: usize,
    variables: &[Variable],
) -> Result<(), NoMemory>
    ensures { OnOk result (names.new ≡ names.old ++ map (variable_place holder) variables.now) }
{
    for variable in variables {
        add_name(names, holder, &variable.name)?;
    }
    Ok(())
}

fn add_name(names: &mut Sequence<NamedPlace>, holder: usize, name: &Lexeme) -> Result<(), NoMemory>
    ensures { OnOk result (names.new ≡ names.old ++ lexeme_place holder name.now ∷ []) }
{
    let at = name.span.start;
    let name = name.text.clone()?;
    names.push(NamedPlace { holder, at, name })
}

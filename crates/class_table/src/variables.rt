// The variables of a class as its members.

ghost use Rattle.std.specs.Prelude.{◌≡◌, ◌++◌, ◌||◌, ◌&&◌, IfOk, OnOk, codes, map};
ghost use Rattle.std.specs.List.{list_any};
ghost use Rattle.std.specs.Str.{bytes_eq};
ghost use Rattle.as3_parser.specs.declared.tree.MetadataTag as tree;
ghost use Rattle.source_sites.specs.Functions as functions;
ghost use Rattle.source_sites.specs.Functions.{same_modifier};
ghost use Rattle.source_sites.specs.Trees.{tag_of, variable_of};
ghost use Rattle.as3_types.specs.Tables.{owned_of};
ghost use Rattle.class_table.specs.Columns.{variable_owned, variables_owned};

use crate::scope::ClassCode;
use as3_parser::{MetadataTag, Modifier, Variable};
use as3_types::{OwnKind, OwnMember, is_same_modifier, type_at};
use flex_base::{NoMemory, Sequence};
use std::alloc::Global;

/// Whether `[Bindable]` is among these metadata.
pub fn is_bindable(tags: &[MetadataTag]) -> bool
    ensures { result ≡ functions.is_bindable (map tag_of tags.now) }
{
    has_bindable(tags)
}

fn has_bindable(tags: &[MetadataTag]) -> bool
    ensures { result ≡ list_any (λ (tag : tree.MetadataTag). bytes_eq tag.name.text (codes "Bindable")) tags.now }
{
    tags.iter().any(|tag| tag.name.text.as_str() == "Bindable")
}

/// Whether bindings watch variables with this access and these metadata.
pub fn is_watched(code: &ClassCode, access: Modifier, tags: &[MetadataTag]) -> bool
    ensures { result ≡ (functions.is_bindable (map tag_of tags.now) || code.now.bindable && same_modifier access Modifier.Public) }
{
    is_bindable(tags) || code.bindable && is_same_modifier(access, Modifier::Public)
}

/// Adds variables with this access, in text order.
pub fn add_variables(
    alloc: Global,
    owned: &mut Sequence<OwnMember>,
    code: &ClassCode,
    access: Modifier,
    bindable: bool,
    variables: &[Variable],
) -> Result<(), NoMemory>
    ensures { OnOk result (map owned_of owned.new ≡ map owned_of owned.old ++ variables_owned code.now access bindable variables.now) }
{
    for variable in variables {
        owned.push(own_variable(alloc, code, access, bindable, variable)?)?;
    }
    Ok(())
}

fn own_variable(
    alloc: Global,
    code: &ClassCode,
    access: Modifier,
    bindable: bool,
    variable: &Variable,
) -> Result<OwnMember, NoMemory>
    ensures { IfOk result (λ m. owned_of m ≡ variable_owned code.now access bindable (variable_of variable.now)) }
{
    let kind = type_at(
        alloc,
        code.classes,
        code.here,
        variable.type_name.as_slice(),
    )?;
    let name = variable.name.text.clone()?;
    Ok(OwnMember {
        name,
        access,
        kind: OwnKind::Property(kind, bindable),
    })
}

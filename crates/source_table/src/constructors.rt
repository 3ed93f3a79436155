// What the constructors of the classes of files take.

ghost use Rattle.std.specs.Prelude.{◌≡◌, IfOk, map, option_map};
ghost use Rattle.std.specs.List.{flat_map};
ghost use Rattle.as3_types.specs.Types.{signature_as};
ghost use Rattle.source_sites.specs.Functions.{member_in};
ghost use Rattle.source_sites.specs.Trees.{item_of, items_of};
ghost use Rattle.class_table.specs.Ids.{taken_by_each};
ghost use Rattle.source_table.specs.Constructors.{AreConstructors, constructor_seen, constructors_read, taken};

use as3_parser::{Members, MembersItem};
use as3_types::Signature;
use class_table::{constructor_in, constructor_of};
use flex_base::{NoMemory, Sequence};
use read_sources::{ReadContent, ReadFile};
use source_sites::NamedClass;
use std::alloc::Global;

/// What the written constructor of the class of each file takes, in the order of the files; `None`
/// where there is none.
pub fn constructors_of(
    alloc: Global,
    classes: &[NamedClass],
    files: &[ReadFile],
) -> Result<Sequence<Option<Signature>>, NoMemory>
    ensures { IfOk result (AreConstructors classes.now files.now) }
{
    let constructors = constructors_by_content(alloc, classes, files)?;
    Ok(constructors)
}

fn constructors_by_content(
    alloc: Global,
    classes: &[NamedClass],
    files: &[ReadFile],
) -> Result<Sequence<Option<Signature>>, NoMemory>
    ensures { IfOk result (λ cs. taken_by_each cs ≡ constructors_read classes.now classes.now files.now) }
{
    let mut constructors = Sequence::new(alloc);
    let mut named = classes;
    let mut rest = files;
    while let Some((file, behind)) = rest.split_first() {
        let Some((here, others)) = named.split_first() else {
            return Ok(constructors);
        };
        let found = constructor_of_content(alloc, classes, here, &file.content)?;
        constructors.push(found)?;
        named = others;
        rest = behind;
    }
    Ok(constructors)
}

fn constructor_of_content(
    alloc: Global,
    classes: &[NamedClass],
    here: &NamedClass,
    content: &ReadContent,
) -> Result<Option<Signature>, NoMemory>
    ensures { IfOk result (λ s. option_map signature_as s ≡ constructor_seen classes.now here.now content.now) }
{
    match content {
        ReadContent::Document(document) => {
            let scripts = document.scripts.as_slice();
            let found = constructor_in_scripts(alloc, classes, here, scripts)?;
            Ok(found)
        }
        ReadContent::ClassFile(parsed) => {
            let members = parsed.file.class.members.as_slice();
            let found = constructor_of(alloc, classes, here, members)?;
            Ok(found)
        }
    }
}

fn constructor_in_scripts(
    alloc: Global,
    classes: &[NamedClass],
    here: &NamedClass,
    scripts: &[Members],
) -> Result<Option<Signature>, NoMemory>
    ensures { IfOk result (λ s. option_map signature_as s ≡ taken classes.now here.now (flat_map member_in (flat_map items_of scripts.now))) }
{
    let mut rest = scripts;
    while let Some((script, others)) = rest.split_first() {
        let found = constructor_in_items(alloc, classes, here, script.items.as_slice())?;
        if found.is_some() {
            return Ok(found);
        }
        rest = others;
    }
    Ok(None)
}

fn constructor_in_items(
    alloc: Global,
    classes: &[NamedClass],
    here: &NamedClass,
    items: &[MembersItem],
) -> Result<Option<Signature>, NoMemory>
    ensures { IfOk result (λ s. option_map signature_as s ≡ taken classes.now here.now (flat_map member_in (map item_of items.now))) }
{
    let mut rest = items;
    while let Some((item, others)) = rest.split_first() {
        let found = constructor_in_item(alloc, classes, here, item)?;
        if found.is_some() {
            return Ok(found);
        }
        rest = others;
    }
    Ok(None)
}

fn constructor_in_item(
    alloc: Global,
    classes: &[NamedClass],
    here: &NamedClass,
    item: &MembersItem,
) -> Result<Option<Signature>, NoMemory>
    ensures { IfOk result (λ s. option_map signature_as s ≡ taken classes.now here.now (member_in (item_of item.now))) }
{
    match item {
        MembersItem::Import(_) => Ok(None),
        MembersItem::Member(member) => {
            let found = constructor_in(alloc, classes, here, &member.kind)?;
            Ok(found)
        }
    }
}

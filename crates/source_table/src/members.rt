// The members of the classes of files.

ghost use Rattle.std.specs.Prelude.{◌≡◌, ◌++◌, IfOk, OnOk, map};
ghost use Rattle.std.specs.List.{flat_map, list_any};
ghost use Rattle.source_sites.specs.Functions.{member_in};
ghost use Rattle.source_sites.specs.Trees.{item_of, items_of};
ghost use Rattle.as3_types.specs.Tables.{owned_of};
ghost use Rattle.class_table.specs.Ids.{taken_by_each};
ghost use Rattle.source_table.specs.Members.{AreMembers, document_seen, has_bindable, is_bindable_class, items_added, members_added, members_by_content, members_seen, parsed_seen};

use crate::ids::add_ids;
use as3_parser::{Members, MembersItem, Metadata};
use as3_types::{OwnMember, Signature};
use class_table::{ClassCode, add_member, is_bindable, members_of};
use flex_base::{NoMemory, Sequence};
use read_sources::{ReadContent, ReadDocument, ReadFile};
use source_sites::{NamedClass, ParsedClass};
use std::alloc::Global;

/// The members of the class of each file, in the order of the files: those of its code without the
/// constructor, and behind them those that the ids of a document make. `constructors` has for each
/// class what its written constructor takes.
pub fn members_of_files(
    alloc: Global,
    classes: &[NamedClass],
    constructors: &[Option<Signature>],
    files: &[ReadFile],
) -> Result<Sequence<Sequence<OwnMember>>, NoMemory>
    ensures { IfOk result (AreMembers classes.now constructors.now files.now) }
{
    let members = members_by_content(alloc, classes, constructors, files)?;
    Ok(members)
}

fn members_by_content(
    alloc: Global,
    classes: &[NamedClass],
    constructors: &[Option<Signature>],
    files: &[ReadFile],
) -> Result<Sequence<Sequence<OwnMember>>, NoMemory>
    ensures { IfOk result (λ ms. map (map owned_of) ms ≡ members_by_content classes.now (taken_by_each constructors.now) classes.now files.now) }
{
    let mut members = Sequence::new(alloc);
    let mut named = classes;
    let mut rest = files;
    while let Some((file, behind)) = rest.split_first() {
        let Some((here, others)) = named.split_first() else {
            return Ok(members);
        };
        let found = members_of_content(alloc, classes, constructors, here, &file.content)?;
        members.push(found)?;
        named = others;
        rest = behind;
    }
    Ok(members)
}

fn members_of_content(
    alloc: Global,
    classes: &[NamedClass],
    constructors: &[Option<Signature>],
    here: &NamedClass,
    content: &ReadContent,
) -> Result<Sequence<OwnMember>, NoMemory>
    ensures { IfOk result (λ ms. map owned_of ms ≡ members_seen classes.now (taken_by_each constructors.now) here.now content.now) }
{
    match content {
        ReadContent::Document(document) => {
            let members = members_of_document(alloc, classes, constructors, here, document)?;
            Ok(members)
        }
        ReadContent::ClassFile(parsed) => {
            let members = members_of_class(alloc, classes, here, parsed)?;
            Ok(members)
        }
    }
}

fn members_of_class(
    alloc: Global,
    classes: &[NamedClass],
    here: &NamedClass,
    parsed: &ParsedClass,
) -> Result<Sequence<OwnMember>, NoMemory>
    ensures { IfOk result (λ ms. map owned_of ms ≡ parsed_seen classes.now here.now parsed.now) }
{
    let bindable = is_bindable(parsed.file.class.metadata.as_slice());
    let code = ClassCode {
        classes,
        here,
        bindable,
    };
    let members = members_of(alloc, &code, parsed.file.class.members.as_slice())?;
    Ok(members)
}

fn members_of_document(
    alloc: Global,
    classes: &[NamedClass],
    constructors: &[Option<Signature>],
    here: &NamedClass,
    document: &ReadDocument,
) -> Result<Sequence<OwnMember>, NoMemory>
    ensures { IfOk result (λ ms. map owned_of ms ≡ document_seen classes.now (taken_by_each constructors.now) here.now document.now) }
{
    let bindable = is_bindable_class(document.metadata.as_slice());
    let code = ClassCode {
        classes,
        here,
        bindable,
    };
    let mut written = Sequence::new(alloc);
    add_scripts(alloc, &mut written, &code, document.scripts.as_slice())?;
    let mut members = written.into_vec();
    add_ids(
        alloc,
        &mut members,
        classes,
        constructors,
        document.tree.nodes(),
    )?;
    Ok(Sequence::from_vec(members))
}

#[tactic(auto, using(crate::proofs::AddedMembers::bindable_by_each))]
fn is_bindable_class(metadata: &[Metadata]) -> bool
    ensures { result ≡ is_bindable_class metadata.now }
{
    has_bindable(metadata)
}

fn has_bindable(metadata: &[Metadata]) -> bool
    ensures { result ≡ list_any has_bindable metadata.now }
{
    metadata
        .iter()
        .any(|written| is_bindable(written.tags.as_slice()))
}

fn add_scripts(
    alloc: Global,
    members: &mut Sequence<OwnMember>,
    code: &ClassCode,
    scripts: &[Members],
) -> Result<(), NoMemory>
    ensures { OnOk result (map owned_of members.new ≡ map owned_of members.old ++ items_added code.now (flat_map items_of scripts.now)) }
{
    let mut rest = scripts;
    while let Some((script, others)) = rest.split_first() {
        add_items(alloc, members, code, script.items.as_slice())?;
        rest = others;
    }
    Ok(())
}

fn add_items(
    alloc: Global,
    members: &mut Sequence<OwnMember>,
    code: &ClassCode,
    items: &[MembersItem],
) -> Result<(), NoMemory>
    ensures { OnOk result (map owned_of members.new ≡ map owned_of members.old ++ items_added code.now (map item_of items.now)) }
{
    let mut rest = items;
    while let Some((item, others)) = rest.split_first() {
        add_item(alloc, members, code, item)?;
        rest = others;
    }
    Ok(())
}

fn add_item(
    alloc: Global,
    members: &mut Sequence<OwnMember>,
    code: &ClassCode,
    item: &MembersItem,
) -> Result<(), NoMemory>
    ensures { OnOk result (map owned_of members.new ≡ map owned_of members.old ++ members_added code.now (member_in (item_of item.now))) }
{
    match item {
        MembersItem::Import(_) => Ok(()),
        MembersItem::Member(member) => {
            add_member(alloc, members, code, member)?;
            Ok(())
        }
    }
}

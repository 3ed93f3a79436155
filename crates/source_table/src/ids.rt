// What the ids of documents make.

ghost use Rattle.std.specs.Prelude.{◌≡◌, ◌++◌, IfOk, OnOk, map};
ghost use Rattle.as3_types.specs.Tables.{owned_of};
ghost use Rattle.class_table.specs.Ids.{taken_by_each};
ghost use Rattle.source_table.specs.Members.{ids_in_rows, ids_in_tree, ids_of_kind};

use as3_types::{OwnMember, Signature};
use class_table::ids_on;
use flex_base::{NoMemory, Sequence};
use mxml_tree::{Node, NodeKind};
use source_sites::NamedClass;
use std::alloc::Global;

/// Adds the members that the ids of a document with these nodes make, in document order. The first
/// node is its root, on which an id makes none.
pub(crate) fn add_ids(
    alloc: Global,
    members: &mut Vec<OwnMember>,
    classes: &[NamedClass],
    constructors: &[Option<Signature>],
    nodes: &[Node],
) -> Result<(), NoMemory>
    ensures { OnOk result (map owned_of members.new.items ≡ map owned_of members.old.items ++ ids_in_tree classes.now (taken_by_each constructors.now) nodes.now) }
{
    let Some((_, inside)) = nodes.split_first() else {
        return Ok(());
    };
    add_ids_of_nodes(alloc, members, classes, constructors, inside)?;
    Ok(())
}

fn add_ids_of_nodes(
    alloc: Global,
    members: &mut Vec<OwnMember>,
    classes: &[NamedClass],
    constructors: &[Option<Signature>],
    nodes: &[Node],
) -> Result<(), NoMemory>
    ensures { OnOk result (map owned_of members.new.items ≡ map owned_of members.old.items ++ ids_in_rows classes.now (taken_by_each constructors.now) nodes.now) }
{
    let mut rest = nodes;
    while let Some((node, others)) = rest.split_first() {
        let found = ids_of_kind(alloc, classes, constructors, &node.kind)?;
        let mut made = found.into_vec();
        members.append(&mut made)?;
        rest = others;
    }
    Ok(())
}

fn ids_of_kind(
    alloc: Global,
    classes: &[NamedClass],
    constructors: &[Option<Signature>],
    kind: &NodeKind,
) -> Result<Sequence<OwnMember>, NoMemory>
    ensures { IfOk result (λ ms. map owned_of ms ≡ ids_of_kind classes.now (taken_by_each constructors.now) kind.now) }
{
    match kind {
        NodeKind::Element(tag) => {
            let made = ids_on(alloc, classes, constructors, tag)?;
            Ok(made)
        }
        NodeKind::Characters(_) => Ok(Sequence::new(alloc)),
    }
}

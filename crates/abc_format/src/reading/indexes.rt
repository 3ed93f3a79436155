// The numbers that name entries, each by the rule of its table.

ghost use Rattle.abc_format.specs.Fields.{Answers, counted, read_index, times};
ghost use Rattle.abc_format.specs.Indexes.{class_rule, interface_rule, metadata_rule, method_rule, name_rule, namespace_rule, set_rule, string_rule};

use crate::index::{
    ClassIndex, MetadataIndex, MethodIndex, MultinameIndex, NamespaceIndex, NamespaceSetIndex,
    StringIndex,
};
use crate::reading::lists::Readable;
use crate::reading::unread::Unread;
use crate::reason::AbcRefusal;
use crate::tables::{IndexRule, Tables};
use flex_base::Sequence;
use std::alloc::Global;

impl Readable for StringIndex {
    ghost reading = { λ tables. read_index (string_rule tables) };

    fn read(
        _alloc: Global,
        unread: &mut Unread<'_>,
        tables: &Tables,
    ) -> Result<StringIndex, AbcRefusal> {
        Ok(StringIndex::new(unread.index(tables.string())?))
    }
}

impl Readable for NamespaceIndex {
    ghost reading = { λ tables. read_index (namespace_rule tables) };

    fn read(
        _alloc: Global,
        unread: &mut Unread<'_>,
        tables: &Tables,
    ) -> Result<NamespaceIndex, AbcRefusal> {
        Ok(NamespaceIndex::new(unread.index(tables.namespace())?))
    }
}

impl Readable for NamespaceSetIndex {
    ghost reading = { λ tables. read_index (set_rule tables) };

    fn read(
        _alloc: Global,
        unread: &mut Unread<'_>,
        tables: &Tables,
    ) -> Result<NamespaceSetIndex, AbcRefusal> {
        Ok(NamespaceSetIndex::new(unread.index(tables.namespace_set())?))
    }
}

// The name of a member, a class, its base or a type.
impl Readable for MultinameIndex {
    ghost reading = { λ tables. read_index (name_rule tables) };

    fn read(
        _alloc: Global,
        unread: &mut Unread<'_>,
        tables: &Tables,
    ) -> Result<MultinameIndex, AbcRefusal> {
        Ok(MultinameIndex::new(unread.index(tables.name())?))
    }
}

impl Readable for MethodIndex {
    ghost reading = { λ tables. read_index (method_rule tables) };

    fn read(
        _alloc: Global,
        unread: &mut Unread<'_>,
        tables: &Tables,
    ) -> Result<MethodIndex, AbcRefusal> {
        Ok(MethodIndex::new(unread.index(tables.method())?))
    }
}

impl Readable for MetadataIndex {
    ghost reading = { λ tables. read_index (metadata_rule tables) };

    fn read(
        _alloc: Global,
        unread: &mut Unread<'_>,
        tables: &Tables,
    ) -> Result<MetadataIndex, AbcRefusal> {
        Ok(MetadataIndex::new(unread.index(tables.metadata())?))
    }
}

impl Readable for ClassIndex {
    ghost reading = { λ tables. read_index (class_rule tables) };

    fn read(
        _alloc: Global,
        unread: &mut Unread<'_>,
        tables: &Tables,
    ) -> Result<ClassIndex, AbcRefusal> {
        Ok(ClassIndex::new(unread.index(tables.class())?))
    }
}

// A count, and as many names of interfaces.
pub fn read_interfaces(
    alloc: Global,
    unread: &mut Unread<'_>,
    tables: &Tables,
) -> Result<Sequence<MultinameIndex>, AbcRefusal>
    ensures { Answers (counted (read_index (interface_rule tables.now)) unread.old) result unread.new }
{
    let count = unread.number()?;
    read_names(alloc, unread, tables.interface(), count)
}

// So many names that this rule allows.
#[tactic(auto, using(crate::proofs::Lists::times_read))]
fn read_names(
    alloc: Global,
    unread: &mut Unread<'_>,
    rule: IndexRule,
    count: u32,
) -> Result<Sequence<MultinameIndex>, AbcRefusal>
    ensures { Answers (times (read_index rule) count unread.old) result unread.new }
{
    let mut names = Sequence::new(alloc);
    for _index in 0..count {
        names.push(MultinameIndex::new(unread.index(rule)?))?;
    }
    Ok(names)
}

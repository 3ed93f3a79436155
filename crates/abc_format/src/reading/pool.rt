// The pool of constants. AVM2 Overview, chapter 4.

ghost use Rattle.abc_format.specs.Fields.{Answers, read_double, read_int, read_string, read_text, read_u32};
ghost use Rattle.abc_format.specs.Reading.{read_multiname, read_name_parts, read_namespace, read_namespace_kind, read_pool, read_set};

use crate::index::{NamespaceIndex, NamespaceSetIndex, StringIndex};
use crate::reading::lists::{Readable, read_counted, read_table};
use crate::reading::unread::Unread;
use crate::reason::{AbcReason, AbcRefusal};
use crate::records::{ConstantPool, Multiname, Namespace, NamespaceKind};
use crate::tables::Tables;
use byteorder::{ByteOrder, LittleEndian};
use flex_base::{Sequence, Text};
use std::alloc::Global;

// Each table.
#[tactic(auto, unfolding(crate::specs::Reading::read_pool))]
pub fn read_pool(alloc: Global, unread: &mut Unread<'_>) -> Result<ConstantPool, AbcRefusal>
    ensures { Answers (read_pool unread.old) result unread.new }
{
    let mut tables = Tables::NONE;
    let integers = read_table(alloc, unread, &tables)?;
    let unsigned_integers = read_table(alloc, unread, &tables)?;
    let doubles = read_table(alloc, unread, &tables)?;
    let strings = read_table(alloc, unread, &tables)?;
    tables.strings = strings.len();
    let namespaces = read_table(alloc, unread, &tables)?;
    tables.namespaces = namespaces.len();
    let namespace_sets = read_table(alloc, unread, &tables)?;
    tables.namespace_sets = namespace_sets.len();
    Ok(ConstantPool {
        integers,
        unsigned_integers,
        doubles,
        strings,
        namespaces,
        namespace_sets,
        multinames: read_table(alloc, unread, &tables)?,
    })
}

// An unsigned integer.
impl Readable for u32 {
    ghost reading = { λ tables. read_u32 };

    fn read(_alloc: Global, unread: &mut Unread<'_>, _tables: &Tables) -> Result<u32, AbcRefusal> {
        unread.unsigned()
    }
}

// An int: the 32 bits as a signed number.
impl Readable for i32 {
    ghost reading = { λ tables. read_int };

    #[tactic(auto, unfolding(crate::specs::Fields::read_int))]
    fn read(_alloc: Global, unread: &mut Unread<'_>, _tables: &Tables) -> Result<i32, AbcRefusal> {
        Ok(unread.unsigned()?.cast_signed())
    }
}

// A double, by its eight bytes.
impl Readable for u64 {
    ghost reading = { λ tables. read_double };

    #[tactic(auto, unfolding(crate::specs::Fields::read_double))]
    fn read(_alloc: Global, unread: &mut Unread<'_>, _tables: &Tables) -> Result<u64, AbcRefusal> {
        Ok(LittleEndian::read_u64(unread.piece(8)?))
    }
}

impl Readable for Text {
    ghost reading = { λ tables. read_string };

    #[tactic(auto, unfolding(crate::specs::Fields::read_string))]
    fn read(alloc: Global, unread: &mut Unread<'_>, _tables: &Tables) -> Result<Text, AbcRefusal> {
        let size = unread.number()?;
        read_text(alloc, unread, size as usize)
    }
}

// So many bytes of text.
#[tactic(auto, unfolding(crate::specs::Fields::read_text), using(crate::proofs::Texts::utf8_tests))]
fn read_text(alloc: Global, unread: &mut Unread<'_>, size: usize) -> Result<Text, AbcRefusal>
    ensures { Answers (read_text size unread.old) result unread.new }
{
    let place = unread.place();
    match str::from_utf8(unread.piece(size)?) {
        Ok(text) => Ok(Text::make(alloc, text)?),
        Err(_) => Err(AbcRefusal::BadAbc(place, AbcReason::Text)),
    }
}

impl Readable for Namespace {
    ghost reading = { read_namespace };

    #[tactic(auto, unfolding(crate::specs::Reading::read_namespace))]
    fn read(
        alloc: Global,
        unread: &mut Unread<'_>,
        tables: &Tables,
    ) -> Result<Namespace, AbcRefusal> {
        Ok(Namespace {
            kind: read_namespace_kind(unread)?,
            name: StringIndex::read(alloc, unread, tables)?,
        })
    }
}

#[tactic(auto, unfolding(crate::specs::Reading::read_namespace_kind))]
fn read_namespace_kind(unread: &mut Unread<'_>) -> Result<NamespaceKind, AbcRefusal>
    ensures { Answers (read_namespace_kind unread.old) result unread.new }
{
    let place = unread.place();
    match NamespaceKind::with_byte(unread.byte()?) {
        Some(kind) => Ok(kind),
        None => Err(AbcRefusal::BadAbc(place, AbcReason::Kind)),
    }
}

// A set of namespaces.
impl Readable for Sequence<NamespaceIndex> {
    ghost reading = { read_set };

    #[tactic(auto, unfolding(crate::specs::Reading::read_set))]
    fn read(
        alloc: Global,
        unread: &mut Unread<'_>,
        tables: &Tables,
    ) -> Result<Sequence<NamespaceIndex>, AbcRefusal> {
        read_counted(alloc, unread, tables)
    }
}

impl Readable for Multiname {
    ghost reading = { read_multiname };

    #[tactic(auto, unfolding(crate::specs::Reading::read_multiname))]
    fn read(
        alloc: Global,
        unread: &mut Unread<'_>,
        tables: &Tables,
    ) -> Result<Multiname, AbcRefusal> {
        let place = unread.place();
        let kind = unread.byte()?;
        read_name_parts(alloc, unread, tables, kind, place)
    }
}

// What a kind with this byte, which stands at the place, has of its own.
#[tactic(auto, unfolding(crate::specs::Reading::read_name_parts))]
fn read_name_parts(
    alloc: Global,
    unread: &mut Unread<'_>,
    tables: &Tables,
    kind: u8,
    place: usize,
) -> Result<Multiname, AbcRefusal>
    ensures { Answers (read_name_parts tables.now place kind unread.old) result unread.new }
{
    match kind {
        Multiname::QNAME => Ok(Multiname::QName {
            namespace: NamespaceIndex::read(alloc, unread, tables)?,
            name: StringIndex::read(alloc, unread, tables)?,
        }),
        Multiname::QNAME_A => Ok(Multiname::QNameA {
            namespace: NamespaceIndex::read(alloc, unread, tables)?,
            name: StringIndex::read(alloc, unread, tables)?,
        }),
        Multiname::RTQ_NAME => Ok(Multiname::RtqName {
            name: StringIndex::read(alloc, unread, tables)?,
        }),
        Multiname::RTQ_NAME_A => Ok(Multiname::RtqNameA {
            name: StringIndex::read(alloc, unread, tables)?,
        }),
        Multiname::RTQ_NAME_L => Ok(Multiname::RtqNameL),
        Multiname::RTQ_NAME_LA => Ok(Multiname::RtqNameLA),
        Multiname::MULTINAME => Ok(Multiname::Multiname {
            name: StringIndex::read(alloc, unread, tables)?,
            namespace_set: NamespaceSetIndex::read(alloc, unread, tables)?,
        }),
        Multiname::MULTINAME_A => Ok(Multiname::MultinameA {
            name: StringIndex::read(alloc, unread, tables)?,
            namespace_set: NamespaceSetIndex::read(alloc, unread, tables)?,
        }),
        Multiname::MULTINAME_L => Ok(Multiname::MultinameL {
            namespace_set: NamespaceSetIndex::read(alloc, unread, tables)?,
        }),
        Multiname::MULTINAME_LA => Ok(Multiname::MultinameLA {
            namespace_set: NamespaceSetIndex::read(alloc, unread, tables)?,
        }),
        _ => Err(AbcRefusal::BadAbc(place, AbcReason::Kind)),
    }
}

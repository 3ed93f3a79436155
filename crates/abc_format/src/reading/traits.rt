// Instances, classes, scripts and their traits. AVM2 Overview, chapter 4.

ghost use Rattle.abc_format.specs.Fields.{Answers};
ghost use Rattle.abc_format.specs.Reading.{read_class, read_instance, read_protected_namespace, read_script, read_trait, read_trait_metadata, read_trait_parts, read_value_kind, read_variable};

use crate::index::{ClassIndex, MetadataIndex, MethodIndex, MultinameIndex, NamespaceIndex};
use crate::reading::indexes::read_interfaces;
use crate::reading::lists::{Readable, read_counted};
use crate::reading::unread::Unread;
use crate::reason::{AbcReason, AbcRefusal};
use crate::records::{ClassInfo, InstanceInfo, ScriptInfo, Trait, TraitKind};
use crate::tables::Tables;
use flex_base::Sequence;
use std::alloc::Global;

impl Readable for InstanceInfo {
    ghost reading = { read_instance };

    #[tactic(auto, unfolding(crate::specs::Reading::read_instance))]
    fn read(
        alloc: Global,
        unread: &mut Unread<'_>,
        tables: &Tables,
    ) -> Result<InstanceInfo, AbcRefusal> {
        let name = MultinameIndex::read(alloc, unread, tables)?;
        let super_name = MultinameIndex::read(alloc, unread, tables)?;
        let flags = unread.byte()?;
        Ok(InstanceInfo {
            name,
            super_name,
            flags,
            protected_namespace: read_protected_namespace(alloc, unread, tables, flags)?,
            interfaces: read_interfaces(alloc, unread, tables)?,
            iinit: MethodIndex::read(alloc, unread, tables)?,
            traits: read_counted(alloc, unread, tables)?,
        })
    }
}

fn read_protected_namespace(
    alloc: Global,
    unread: &mut Unread<'_>,
    tables: &Tables,
    flags: u8,
) -> Result<NamespaceIndex, AbcRefusal>
    ensures { Answers (read_protected_namespace tables.now flags unread.old) result unread.new }
{
    if flags & InstanceInfo::PROTECTED_NS == 0 {
        return Ok(NamespaceIndex::new(0));
    }
    NamespaceIndex::read(alloc, unread, tables)
}

impl Readable for ClassInfo {
    ghost reading = { read_class };

    #[tactic(auto, unfolding(crate::specs::Reading::read_class))]
    fn read(
        alloc: Global,
        unread: &mut Unread<'_>,
        tables: &Tables,
    ) -> Result<ClassInfo, AbcRefusal> {
        Ok(ClassInfo {
            cinit: MethodIndex::read(alloc, unread, tables)?,
            traits: read_counted(alloc, unread, tables)?,
        })
    }
}

impl Readable for ScriptInfo {
    ghost reading = { read_script };

    #[tactic(auto, unfolding(crate::specs::Reading::read_script))]
    fn read(
        alloc: Global,
        unread: &mut Unread<'_>,
        tables: &Tables,
    ) -> Result<ScriptInfo, AbcRefusal> {
        Ok(ScriptInfo {
            init: MethodIndex::read(alloc, unread, tables)?,
            traits: read_counted(alloc, unread, tables)?,
        })
    }
}

impl Readable for Trait {
    ghost reading = { read_trait };

    #[tactic(auto, unfolding(crate::specs::Reading::read_trait))]
    fn read(alloc: Global, unread: &mut Unread<'_>, tables: &Tables) -> Result<Trait, AbcRefusal> {
        let name = MultinameIndex::read(alloc, unread, tables)?;
        let place = unread.place();
        let byte = unread.byte()?;
        let attributes = byte / 16;
        Ok(Trait {
            name,
            kind: read_trait_parts(alloc, unread, tables, byte % 16, place)?,
            attributes,
            metadata: read_trait_metadata(alloc, unread, tables, attributes)?,
        })
    }
}

// What a kind with this code, whose byte stands at the place, has of its own.
#[tactic(auto, unfolding(crate::specs::Reading::read_trait_parts))]
fn read_trait_parts(
    alloc: Global,
    unread: &mut Unread<'_>,
    tables: &Tables,
    code: u8,
    place: usize,
) -> Result<TraitKind, AbcRefusal>
    ensures { Answers (read_trait_parts tables.now place code unread.old) result unread.new }
{
    match code {
        TraitKind::SLOT => {
            let Variable {
                slot_id,
                type_name,
                vindex,
                vkind,
            } = read_variable(alloc, unread, tables)?;
            Ok(TraitKind::Slot {
                slot_id,
                type_name,
                vindex,
                vkind,
            })
        }
        TraitKind::METHOD => Ok(TraitKind::Method {
            disp_id: unread.number()?,
            method: MethodIndex::read(alloc, unread, tables)?,
        }),
        TraitKind::GETTER => Ok(TraitKind::Getter {
            disp_id: unread.number()?,
            method: MethodIndex::read(alloc, unread, tables)?,
        }),
        TraitKind::SETTER => Ok(TraitKind::Setter {
            disp_id: unread.number()?,
            method: MethodIndex::read(alloc, unread, tables)?,
        }),
        TraitKind::CLASS => Ok(TraitKind::Class {
            slot_id: unread.number()?,
            class: ClassIndex::read(alloc, unread, tables)?,
        }),
        TraitKind::FUNCTION => Ok(TraitKind::Function {
            slot_id: unread.number()?,
            function: MethodIndex::read(alloc, unread, tables)?,
        }),
        TraitKind::CONST => {
            let Variable {
                slot_id,
                type_name,
                vindex,
                vkind,
            } = read_variable(alloc, unread, tables)?;
            Ok(TraitKind::Const {
                slot_id,
                type_name,
                vindex,
                vkind,
            })
        }
        _ => Err(AbcRefusal::BadAbc(place, AbcReason::Kind)),
    }
}

// What a slot and a constant have.
#[derive(Clone, Copy)]
pub struct Variable {
    pub slot_id: u32,
    pub type_name: MultinameIndex,
    pub vindex: u32,
    pub vkind: u8,
}

#[tactic(auto, unfolding(crate::specs::Reading::read_variable))]
fn read_variable(
    alloc: Global,
    unread: &mut Unread<'_>,
    tables: &Tables,
) -> Result<Variable, AbcRefusal>
    ensures { Answers (read_variable tables.now unread.old) result unread.new }
{
    let slot_id = unread.number()?;
    let type_name = MultinameIndex::read(alloc, unread, tables)?;
    let vindex = unread.number()?;
    Ok(Variable {
        slot_id,
        type_name,
        vindex,
        vkind: read_value_kind(unread, vindex)?,
    })
}

// The kind of a default value, where there is one.
fn read_value_kind(unread: &mut Unread<'_>, vindex: u32) -> Result<u8, AbcRefusal>
    ensures { Answers (read_value_kind vindex unread.old) result unread.new }
{
    if vindex == 0 {
        return Ok(0);
    }
    unread.byte()
}

// The numbers of metadata, where the attributes say that there are some.
fn read_trait_metadata(
    alloc: Global,
    unread: &mut Unread<'_>,
    tables: &Tables,
    attributes: u8,
) -> Result<Sequence<MetadataIndex>, AbcRefusal>
    ensures { Answers (read_trait_metadata tables.now attributes unread.old) result unread.new }
{
    if attributes & Trait::METADATA == 0 {
        return Ok(Sequence::new(alloc));
    }
    read_counted(alloc, unread, tables)
}

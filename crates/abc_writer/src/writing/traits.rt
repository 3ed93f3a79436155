// Instances, classes, scripts and their traits. AVM2 Overview, chapter 4.

ghost use Rattle.std.specs.Prelude.{◌≡◌, ◌<◌, ◌++◌, OnOk};
ghost use Rattle.abc_format.specs.Numbers.{u30_bytes};
ghost use Rattle.abc_writer.specs.Spelling.{class_bytes, counted, instance_bytes, protected_namespace_bytes, script_bytes, trait_bytes, trait_metadata_bytes, trait_parts, value_bytes};

use crate::writing::lists::{Written, put_counted};
use abc_format::{ClassInfo, InstanceInfo, ScriptInfo, Trait, TraitKind};
use flex_base::{Bytes, NoMemory};

impl Written for InstanceInfo {
    ghost spelling = { instance_bytes };

    fn put(&self, bytes: &mut Bytes) -> Result<(), NoMemory> {
        self.name.put(bytes)?;
        self.super_name.put(bytes)?;
        bytes.push(self.flags)?;
        put_protected_namespace(bytes, self)?;
        put_counted(bytes, self.interfaces.as_slice())?;
        self.iinit.put(bytes)?;
        put_counted(bytes, self.traits.as_slice())
    }
}

fn put_protected_namespace(bytes: &mut Bytes, instance: &InstanceInfo) -> Result<(), NoMemory>
    ensures { OnOk result (bytes.new ≡ bytes.old ++ protected_namespace_bytes instance.now) }
{
    if instance.flags & InstanceInfo::PROTECTED_NS == 0 {
        return Ok(());
    }
    instance.protected_namespace.put(bytes)
}

impl Written for ClassInfo {
    ghost spelling = { class_bytes };

    fn put(&self, bytes: &mut Bytes) -> Result<(), NoMemory> {
        self.cinit.put(bytes)?;
        put_counted(bytes, self.traits.as_slice())
    }
}

impl Written for ScriptInfo {
    ghost spelling = { script_bytes };

    fn put(&self, bytes: &mut Bytes) -> Result<(), NoMemory> {
        self.init.put(bytes)?;
        put_counted(bytes, self.traits.as_slice())
    }
}

impl Written for Trait {
    ghost spelling = { trait_bytes };

    fn put(&self, bytes: &mut Bytes) -> Result<(), NoMemory> {
        self.name.put(bytes)?;
        bytes.push(self.kind.code() + 16 * (self.attributes % 16))?;
        put_parts(bytes, &self.kind)?;
        put_metadata(bytes, self)
    }
}

// What the kind has of its own.
fn put_parts(bytes: &mut Bytes, kind: &TraitKind) -> Result<(), NoMemory>
    ensures { OnOk result (bytes.new ≡ bytes.old ++ trait_parts kind.now) }
{
    match kind {
        TraitKind::Slot {
            slot_id,
            type_name,
            vindex,
            vkind,
        } => {
            put_member(bytes, *slot_id, type_name)?;
            put_value(bytes, *vindex, *vkind)
        }
        TraitKind::Method { disp_id, method } => put_member(bytes, *disp_id, method),
        TraitKind::Getter { disp_id, method } => put_member(bytes, *disp_id, method),
        TraitKind::Setter { disp_id, method } => put_member(bytes, *disp_id, method),
        TraitKind::Class { slot_id, class } => put_member(bytes, *slot_id, class),
        TraitKind::Function { slot_id, function } => put_member(bytes, *slot_id, function),
        TraitKind::Const {
            slot_id,
            type_name,
            vindex,
            vkind,
        } => {
            put_member(bytes, *slot_id, type_name)?;
            put_value(bytes, *vindex, *vkind)
        }
    }
}

// A number, and what the kind names.
fn put_member<T: Written>(bytes: &mut Bytes, id: u32, named: &T) -> Result<(), NoMemory>
    ensures { OnOk result (bytes.new ≡ bytes.old ++ (u30_bytes id ++ T.spelling named.now)) }
{
    id.put(bytes)?;
    named.put(bytes)
}

// A default value's number, and its kind where there is a value.
fn put_value(bytes: &mut Bytes, vindex: u32, vkind: u8) -> Result<(), NoMemory>
    ensures { OnOk result (bytes.new ≡ bytes.old ++ value_bytes vindex vkind) }
{
    vindex.put(bytes)?;
    if vindex == 0 {
        return Ok(());
    }
    bytes.push(vkind)
}

fn put_metadata(bytes: &mut Bytes, of: &Trait) -> Result<(), NoMemory>
    ensures { OnOk result (bytes.new ≡ bytes.old ++ trait_metadata_bytes of.now) }
{
    if of.attributes & Trait::METADATA == 0 {
        return Ok(());
    }
    put_counted(bytes, of.metadata.as_slice())
}

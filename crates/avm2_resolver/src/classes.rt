// Classes and scripts made ready.

ghost use Rattle.std.specs.List.{fold, list_any};
ghost use Rattle.std.specs.Prelude.{◌≡◌, IfOk, map};
ghost use Rattle.avm2_program.specs.Naming.{naming_with};
ghost use Rattle.avm2_program.specs.Resolving.{behind_class, class_bases, classes_from, file_class, is_unplayed_class, script_of, scripts_from, traits_of, type_bases};
ghost use Rattle.abc_format.specs.declared.records.Trait.{Trait};
ghost use Rattle.avm2_resolver.specs.Gathering.{gathered_of};
ghost use Rattle.avm2_program.specs.Traits.{fields_of, hidden_of, is_unplayed, member_of, own_member_of, own_slot, placed};

use crate::bases::{base_with, behind, native_behind};
use crate::native::{add_fields_behind, names_behind};
use crate::objects::ObjectTraits;
use crate::traits::{is_unplayed, own_member, own_slot};
use abc_format::{Abc, ClassInfo, InstanceInfo, ScriptInfo, Trait};
use avm2_program::{
    ClassField, FileClass, NamedMember, OwnName, Script, TraitPlace, dotted_name_at,
};
use flex_base::{NoMemory, Sequence, Value};
use flex_world::{Class, StaticType};
use std::alloc::Global;

// Whether a trait isn't played.
fn have_unplayed(traits: &[Trait]) -> bool
    ensures { result ≡ list_any (λ (t : Trait). is_unplayed t.kind) traits.now }
{
    traits.iter().any(|info| is_unplayed(info.kind))
}

// Whether a class isn't played.
fn is_unplayed_class(instance: &InstanceInfo, class: &ClassInfo) -> bool
    ensures { result ≡ is_unplayed_class instance.now class.now }
{
    instance.interfaces.len() > 0
        || have_unplayed(instance.traits.as_slice())
        || have_unplayed(class.traits.as_slice())
}

// The traits of a class value or a script value as members.
fn own_members(
    alloc: Global,
    abc: &Abc,
    classes: &[Option<OwnName>],
    holder: u32,
    traits: &[Trait],
) -> Result<Sequence<NamedMember>, NoMemory>
    ensures { IfOk result (λ members. members ≡
        map (own_member_of (naming_with abc.now classes.now)) (placed holder traits.now)) }
{
    let mut members = Sequence::new(alloc);
    let mut number: u32 = 0;
    for info in traits {
        let place = TraitPlace { holder, number };
        members.push(own_member(alloc, abc, classes, place, info)?)?;
        number = number.checked_add(1).ok_or(NoMemory)?;
    }
    Ok(members)
}

// What the traits of a class value or a script value hold at first.
fn own_slots(
    alloc: Global,
    abc: &Abc,
    classes: &[Option<OwnName>],
    traits: &[Trait],
) -> Result<Sequence<Value>, NoMemory>
    ensures { IfOk result (λ slots. slots ≡ map (own_slot (naming_with abc.now classes.now)) traits.now) }
{
    let mut slots = Sequence::new(alloc);
    for info in traits {
        slots.push(own_slot(alloc, abc, classes, info)?)?;
    }
    Ok(slots)
}

// The traits of the objects of a class, gathered, where this stands behind it.
fn object_traits(
    alloc: Global,
    abc: &Abc,
    classes: &[Option<OwnName>],
    types: &[Option<StaticType>],
    bases: &[Option<Class>],
    class: u32,
) -> Result<ObjectTraits, NoMemory>
    requires { bases.now ≡ class_bases types.now }
    ensures { IfOk result (λ gathered. gathered ≡
        gathered_of (naming_with abc.now classes.now) types.now class) }
{
    let taken = names_behind(alloc, native_behind(behind(types, class)))?;
    let mut gathered = ObjectTraits::new(alloc, taken);
    gathered.add_lineage(alloc, abc, classes, bases, class)?;
    Ok(gathered)
}

// The members of the objects of a class, and their fields, those that aren't hidden and those that
// are.
fn object_parts(
    alloc: Global,
    abc: &Abc,
    classes: &[Option<OwnName>],
    types: &[Option<StaticType>],
    bases: &[Option<Class>],
    class: u32,
) -> Result<
    (
        Sequence<NamedMember>,
        Sequence<ClassField>,
        Sequence<ClassField>,
    ),
    NoMemory,
>
    requires types { types.now ≡ type_bases (naming_with abc.now classes.now) }
    requires bases { bases.now ≡ class_bases types.now }
    ensures members { IfOk result (λ parts. parts.0 ≡
        map (member_of (naming_with abc.now classes.now)) (traits_of (naming_with abc.now classes.now) class)) }
    ensures fields { IfOk result (λ parts. parts.1 ≡
        fields_of (naming_with abc.now classes.now) (traits_of (naming_with abc.now classes.now) class)) }
    ensures hidden { IfOk result (λ parts. parts.2 ≡
        hidden_of (naming_with abc.now classes.now) (traits_of (naming_with abc.now classes.now) class)) }
{
    let gathered = object_traits(alloc, abc, classes, types, bases, class)?;
    Ok(gathered.into_parts())
}

// A class with this number.
fn file_class(
    alloc: Global,
    abc: &Abc,
    classes: &[Option<OwnName>],
    types: &[Option<StaticType>],
    bases: &[Option<Class>],
    number: u32,
    instance: &InstanceInfo,
    class: &ClassInfo,
) -> Result<FileClass, NoMemory>
    requires types { types.now ≡ type_bases (naming_with abc.now classes.now) }
    requires bases { bases.now ≡ class_bases types.now }
    ensures { IfOk result (λ ready. ready ≡
        file_class (naming_with abc.now classes.now) number instance.now class.now) }
{
    let behind = behind(types, number);
    let (members, mut fields, hidden) = object_parts(alloc, abc, classes, types, bases, number)?;
    add_fields_behind(alloc, &mut fields, native_behind(behind))?;
    Ok(FileClass {
        name: dotted_name_at(alloc, abc, instance.name)?,
        base: base_with(alloc, abc, classes, instance.super_name)?,
        behind,
        constructor: instance.iinit.number(),
        initialiser: class.cinit.number(),
        is_unplayed: is_unplayed_class(instance, class),
        members,
        fields,
        hidden,
        own_members: own_members(alloc, abc, classes, number, class.traits.as_slice())?,
        own_slots: own_slots(alloc, abc, classes, class.traits.as_slice())?,
    })
}

/// The classes of a file, where the bases of each are these.
pub fn file_classes(
    alloc: Global,
    abc: &Abc,
    classes: &[Option<OwnName>],
    types: &[Option<StaticType>],
    bases: &[Option<Class>],
) -> Result<Sequence<FileClass>, NoMemory>
    requires types { types.now ≡ type_bases (naming_with abc.now classes.now) }
    requires bases { bases.now ≡ class_bases types.now }
    ensures { IfOk result (λ ready. ready ≡
        classes_from (naming_with abc.now classes.now) 0 abc.now.instances abc.now.classes) }
{
    let mut ready = Sequence::new(alloc);
    let mut number: u32 = 0;
    for instance in abc.instances.as_slice() {
        let Some(class) = abc.classes.get(number as usize) else {
            return Ok(ready);
        };
        ready.push(file_class(alloc, abc, classes, types, bases, number, instance, class)?)?;
        number = number.checked_add(1).ok_or(NoMemory)?;
    }
    Ok(ready)
}

// A script with this number.
fn script(
    alloc: Global,
    abc: &Abc,
    classes: &[Option<OwnName>],
    number: u32,
    info: &ScriptInfo,
) -> Result<Script, NoMemory>
    ensures { IfOk result (λ ready. ready ≡ script_of (naming_with abc.now classes.now) number info.now) }
{
    let traits = info.traits.as_slice();
    Ok(Script {
        initialiser: info.init.number(),
        members: own_members(alloc, abc, classes, number, traits)?,
        slots: own_slots(alloc, abc, classes, traits)?,
    })
}

/// The scripts of a file.
pub fn scripts(
    alloc: Global,
    abc: &Abc,
    classes: &[Option<OwnName>],
) -> Result<Sequence<Script>, NoMemory>
    ensures { IfOk result (λ scripts. scripts ≡
        scripts_from (naming_with abc.now classes.now) 0 abc.now.scripts) }
{
    let mut scripts = Sequence::new(alloc);
    let mut number: u32 = 0;
    for info in abc.scripts.as_slice() {
        scripts.push(script(alloc, abc, classes, number, info)?)?;
        number = number.checked_add(1).ok_or(NoMemory)?;
    }
    Ok(scripts)
}

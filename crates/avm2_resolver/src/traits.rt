// Traits: what they are as members, and as the slots of objects. AVM2 Overview, 4.8.

ghost use Rattle.std.specs.Prelude.{◌≡◌, [], IfOk, false, option_map, slice_get, unwrap_or};
ghost use Rattle.flex_world.specs.Making.{start_of_type};
ghost use Rattle.avm2_program.specs.Names.{package_space};
ghost use Rattle.avm2_program.specs.Naming.{naming_with};
ghost use Rattle.avm2_program.specs.Traits.{has_no_items, is_bindable, is_bindable_mark, is_hidden, is_slot, is_unplayed, keyed, lies_in, member_of, method_in, named_member, own_member_of, own_slot, played, slot_field, slot_type, type_number};

use abc_format::{Abc, MetadataInfo, MultinameIndex, Trait, TraitKind};
use avm2_program::{
    ClassField, Member, NamedMember, OwnName, TraitPlace, is_string, own_name_at, text_at, type_at,
};
use flex_base::{NoMemory, Text, Value};
use flex_world::StaticType;
use std::alloc::Global;

/// Whether a trait is a slot.
pub fn is_slot(kind: TraitKind) -> bool
    ensures { result ≡ is_slot kind }
{
    matches!(kind, TraitKind::Slot { .. } | TraitKind::Const { .. })
}

// The number of its type; 0 is no type.
fn type_number(kind: TraitKind) -> MultinameIndex
    ensures { result ≡ type_number kind }
{
    match kind {
        TraitKind::Slot { type_name, .. } => type_name,
        TraitKind::Const { type_name, .. } => type_name,
        _ => MultinameIndex::new(0),
    }
}

/// Whether it isn't played: a getter, a setter, a function or a slot with a starting value.
pub fn is_unplayed(kind: TraitKind) -> bool
    ensures { result ≡ is_unplayed kind }
{
    match kind {
        TraitKind::Slot { vindex, .. } => vindex != 0,
        TraitKind::Const { vindex, .. } => vindex != 0,
        TraitKind::Method { .. } => false,
        TraitKind::Class { .. } => false,
        _ => true,
    }
}

/// The number of the method that it names.
pub fn method_in(kind: TraitKind) -> Option<u32>
    ensures { result ≡ method_in kind }
{
    match kind {
        TraitKind::Method { method, .. } => Some(method.number()),
        TraitKind::Getter { method, .. } => Some(method.number()),
        TraitKind::Setter { method, .. } => Some(method.number()),
        TraitKind::Function { function, .. } => Some(function.number()),
        _ => None,
    }
}

// What is played of a trait, where a slot is this member.
fn played(slot: Member, place: TraitPlace, kind: TraitKind) -> Member
    ensures { result ≡ played slot place kind }
{
    match kind {
        TraitKind::Method { method, .. } => Member::Written(method.number()),
        TraitKind::Class { class, .. } => Member::ClassTrait(place, class.number()),
        _ => slot,
    }
}

// A trait as a member, where a slot is this one.
fn named_member(
    alloc: Global,
    abc: &Abc,
    slot: Member,
    place: TraitPlace,
    info: &Trait,
) -> Result<NamedMember, NoMemory>
    ensures { IfOk result (λ member. member ≡
        named_member (naming_with abc.now []) slot (record { place = place; trait = info.now })) }
{
    let name = own_name_at(alloc, abc, info.name)?;
    let member = if is_unplayed(info.kind) {
        Member::Unplayed
    } else {
        played(slot, place, info.kind)
    };
    Ok(NamedMember { name, member })
}

/// A trait of an object as a member, where this is its key as a slot, and whether it is hidden.
pub fn object_member(
    alloc: Global,
    abc: &Abc,
    key: Text,
    hidden: bool,
    place: TraitPlace,
    info: &Trait,
) -> Result<NamedMember, NoMemory>
    requires { hidden ≡ is_hidden (naming_with abc.now []) info.now }
    ensures { IfOk result (λ member. member ≡
        member_of (naming_with abc.now []) (record { placed = record { place = place; trait = info.now }; key = key })) }
{
    if hidden {
        named_member(alloc, abc, Member::HiddenSlot(key), place, info)
    } else {
        named_member(alloc, abc, Member::Slot(key), place, info)
    }
}

/// A trait of a class value or a script value as a member.
pub fn own_member(
    alloc: Global,
    abc: &Abc,
    classes: &[Option<OwnName>],
    place: TraitPlace,
    info: &Trait,
) -> Result<NamedMember, NoMemory>
    ensures { IfOk result (λ member. member ≡
        own_member_of (naming_with abc.now classes.now) (record { place = place; trait = info.now })) }
{
    let kind = slot_type(alloc, abc, classes, info)?;
    named_member(alloc, abc, Member::OwnSlot(place.number, kind), place, info)
}

/// What a trait of a class value or a script value holds at first.
pub fn own_slot(
    alloc: Global,
    abc: &Abc,
    classes: &[Option<OwnName>],
    info: &Trait,
) -> Result<Value, NoMemory>
    ensures { IfOk result (λ value. value ≡ own_slot (naming_with abc.now classes.now) info.now) }
{
    if !is_slot(info.kind) {
        return Ok(Value::Null);
    }
    Ok(start_of_type(slot_type(alloc, abc, classes, info)?))
}

// What a variable of a type holds at first.
fn start_of_type(kind: StaticType) -> Value
    ensures { result ≡ start_of_type kind }
{
    match kind {
        StaticType::Int => Value::Int(0),
        StaticType::Boolean => Value::Bool(false),
        _ => Value::Null,
    }
}

// The type of a slot.
fn slot_type(
    alloc: Global,
    abc: &Abc,
    classes: &[Option<OwnName>],
    info: &Trait,
) -> Result<StaticType, NoMemory>
    ensures { IfOk result (λ kind. kind ≡ slot_type (naming_with abc.now classes.now) info.now) }
{
    type_at(alloc, abc, classes, type_number(info.kind))
}

/// Whether the own name of a trait lies in the namespace of a package.
pub fn lies_in(alloc: Global, abc: &Abc, space_text: &str, info: &Trait) -> Result<bool, NoMemory>
    ensures { IfOk result (λ lies. lies ≡
        lies_in (naming_with abc.now []) (package_space space_text.now) info.now) }
{
    match own_name_at(alloc, abc, info.name)? {
        Some(own) => Ok(own.space.is_package(space_text)),
        None => Ok(false),
    }
}

// Whether metadata are `Bindable` without items.
fn is_bindable_mark(abc: &Abc, metadata: &MetadataInfo) -> bool
    ensures { result ≡ is_bindable_mark (naming_with abc.now []) metadata.now }
{
    is_string(abc, metadata.name, "Bindable") && metadata.items.is_empty()
}

// Whether metadata of a number are.
fn is_mark_at(abc: &Abc, number: u32) -> bool
    ensures { result ≡
        unwrap_or (option_map (is_bindable_mark (naming_with abc.now [])) (slice_get abc.now.metadata number)) false }
{
    match abc.metadata.get(number as usize) {
        Some(metadata) => is_bindable_mark(abc, metadata),
        None => false,
    }
}

// Whether bindings watch a slot.
fn is_bindable(abc: &Abc, info: &Trait) -> bool
    ensures { result ≡ is_bindable (naming_with abc.now []) info.now }
{
    info.metadata
        .as_slice()
        .iter()
        .any(|index| is_mark_at(abc, index.number()))
}

/// A slot as an object has it at first.
pub fn slot_field(
    alloc: Global,
    abc: &Abc,
    classes: &[Option<OwnName>],
    key: &Text,
    info: &Trait,
) -> Result<ClassField, NoMemory>
    ensures { IfOk result (λ field. field ≡ slot_field (naming_with abc.now classes.now) key.now info.now) }
{
    let kind = slot_type(alloc, abc, classes, info)?;
    let text = text_at(alloc, abc, info.name)?;
    let public = lies_in(alloc, abc, "", info)?;
    Ok(ClassField {
        key: key.clone()?,
        text,
        kind,
        public,
        bindable: is_bindable(abc, info),
        read_only: false,
        is_slot: true,
        start: start_of_type(kind),
    })
}

// The ids of a document as members of its class.

ghost use Rattle.std.specs.Prelude.{◌≡◌, ◌++◌, ◌&&◌, IfOk, List, OnOk, map, option_map};
ghost use Rattle.std.specs.Str.{bytes_eq};
ghost use Rattle.source_sites.specs.Scripts.{language_space};
ghost use Rattle.source_sites.specs.Members as members;
ghost use Rattle.source_sites.specs.Members.{tags_of};
ghost use Rattle.source_sites.specs.Names as names;
ghost use Rattle.source_sites.specs.declared.names.NamedClass.{NamedClass};
ghost use Rattle.as3_types.specs.Identifiers.{is_identifier};
ghost use Rattle.as3_types.specs.Meanings.{meaning_of};
ghost use Rattle.as3_types.specs.Tables.{owned_of};
ghost use Rattle.as3_types.specs.Types.{signature_as, type_of};
ghost use Rattle.class_table.specs.Ids.{AreIdsOn, id_named, ids_named, taken_by_each};

use as3_parser::Modifier;
use as3_types::{
    Meaning, OwnKind, OwnMember, Signature, ValueType, built_in, class_of_tag, is_identifier,
};
use component_catalog::TagPlace;
use flex_base::{NoMemory, Sequence};
use flex_world::Class;
use mxml_tree::{Attribute, Element};
use source_sites::NamedClass;
use std::alloc::Global;

/// The namespace of the language's own tags. MXML 2009.
const LANGUAGE: &str = "http://ns.adobe.com/mxml/2009";

/// The members that the ids on a tag make, in text order. `constructors` has for each source class
/// what its written constructor takes.
pub fn ids_on(
    alloc: Global,
    classes: &[NamedClass],
    constructors: &[Option<Signature>],
    tag: &Element,
) -> Result<Sequence<OwnMember>, NoMemory>
    ensures { IfOk result (AreIdsOn classes.now constructors.now tag.now) }
{
    let Some(kind) = id_type(classes, constructors, tag)? else {
        return Ok(Sequence::new(alloc));
    };
    let owned = ids_of_type(alloc, kind, tag.attributes.as_slice())?;
    Ok(owned)
}

/// The type of what an `id` on a tag names, if it makes a member: an object of a class that has a
/// tag, or a value of the language.
pub fn id_type(
    classes: &[NamedClass],
    constructors: &[Option<Signature>],
    tag: &Element,
) -> Result<Option<ValueType>, NoMemory>
    ensures { IfOk result (λ t. option_map type_of t ≡ members.id_type classes.now (taken_by_each constructors.now) tag.now) }
{
    if is_language(tag) {
        return Ok(built_in(tag.local.as_str()));
    }
    let meaning = class_of_tag(classes, tag)?;
    Ok(tagged_type(constructors, meaning))
}

fn is_language(tag: &Element) -> bool
    ensures { result ≡ bytes_eq tag.now.space language_space }
{
    tag.space.as_str() == LANGUAGE
}

fn tagged_type(constructors: &[Option<Signature>], meaning: Meaning) -> Option<ValueType>
    ensures { (classes : List NamedClass) → option_map type_of result ≡ members.tagged_type classes (taken_by_each constructors.now) (names.class_of (meaning_of meaning)) }
{
    let Meaning::Class(class) = meaning else {
        return None;
    };
    if has_tag(constructors, class) {
        Some(ValueType::Object(class))
    } else {
        None
    }
}

/// Whether a class has a tag of its own: one of the catalog by its row, a source class where its
/// constructor takes nothing.
pub fn has_tag(constructors: &[Option<Signature>], class: Class) -> bool
    ensures { result ≡ members.has_tag (tags_of (taken_by_each constructors.now) class) }
{
    match class {
        Class::Native(class) => matches!(class.tag_place(), TagPlace::Anywhere),
        Class::File(number) => match constructors.get(number as usize) {
            Some(taken) => takes_nothing(taken),
            None => true,
        },
    }
}

fn takes_nothing(taken: &Option<Signature>) -> bool
    ensures { result ≡ members.has_tag (members.tag_without (option_map signature_as taken.now)) }
{
    match taken {
        Some(taken) => taken.parameters.as_slice().is_empty(),
        None => true,
    }
}

fn ids_of_type(
    alloc: Global,
    kind: ValueType,
    attributes: &[Attribute],
) -> Result<Sequence<OwnMember>, NoMemory>
    ensures { IfOk result (λ owned. map owned_of owned ≡ ids_named (type_of kind) attributes.now) }
{
    let mut owned = Sequence::new(alloc);
    let mut rest = attributes;
    while let Some((attribute, others)) = rest.split_first() {
        add_id(&mut owned, kind, attribute)?;
        rest = others;
    }
    Ok(owned)
}

fn add_id(
    owned: &mut Sequence<OwnMember>,
    kind: ValueType,
    attribute: &Attribute,
) -> Result<(), NoMemory>
    ensures { OnOk result (map owned_of owned.new ≡ map owned_of owned.old ++ id_named (type_of kind) attribute.now) }
{
    if !is_name(attribute) {
        return Ok(());
    }
    let name = attribute.value.clone()?;
    owned.push(OwnMember {
        name,
        access: Modifier::Public,
        kind: OwnKind::Property(kind, true),
    })?;
    Ok(())
}

// Whether an attribute is an `id` that is an identifier.
fn is_name(attribute: &Attribute) -> bool
    ensures { result ≡ (members.is_id attribute.now && is_identifier attribute.now.value) }
{
    is_id(attribute) && is_identifier(attribute.value.as_str())
}

fn is_id(attribute: &Attribute) -> bool
    ensures { result ≡ members.is_id attribute.now }
{
    attribute.space.as_str() == "" && attribute.local.as_str() == "id"
}

// Tags in elements: those of instances, of properties and of the language.

ghost use Rattle.std.specs.Prelude.{◌≡◌, IfOk, option_map};
ghost use Rattle.document_sites.specs.Standing as sites;
ghost use Rattle.as3_types.specs.Meanings.{meaning_of};
ghost use Rattle.class_table.specs.Seen.{property_as};
ghost use Rattle.document_tags.specs.Tags.{holds_as, placed_as, role_as, table_in};
ghost use Rattle.as3_types.specs.Types.{type_of};
ghost use Rattle.document_tags.specs.Placing.{child_placed, in_instance, instance_or_unknown, literal_or_plain, may_be_child, own_property, plain_placed, property_placed, stray_placed};

use crate::classes::{
    is_component_class, is_container_class, is_known, stands_anywhere, tag_place,
};
use crate::document::DocumentClass;
use crate::language::{
    is_language_tag, is_literal_tag, is_states_tag, language_placed, literal_placed,
};
use crate::properties::property_on;
use crate::standing::{Holds, Placed, Role, Standing, stands, unknown};
use as3_types::{Meaning, ValueType, class_of_tag};
use class_table::Property;
use flex_base::NoMemory;
use mxml_tree::Element;

/// An instance, if its class has a tag at all.
fn instance_or_unknown<'a>(
    document: DocumentClass,
    role: Role,
    right: bool,
    tag: &'a Element,
    meaning: Meaning,
) -> Placed<'a>
    ensures { placed_as result ≡ instance_or_unknown document.entry (role_as role) right tag.now (meaning_of meaning) }
{
    if is_known(tag_place(document, meaning)) {
        stands(tag, Standing::Instance(meaning, role), right)
    } else {
        unknown(tag)
    }
}

/// A tag where no element may stand, or below one that isn't known, where only what is inside is
/// judged.
pub fn stray_placed<'a>(
    document: DocumentClass,
    right: bool,
    tag: &'a Element,
) -> Result<Placed<'a>, NoMemory>
    ensures { IfOk result (λ p. placed_as p ≡ stray_placed document.entry right tag.now) }
{
    if is_language_tag(tag) {
        return Ok(language_placed(false, tag));
    }
    if is_states_tag(tag) {
        return Ok(stands(tag, Standing::States, false));
    }
    let meaning = class_of_tag(document.table.classes.as_slice(), tag)?;
    Ok(instance_or_unknown(document, Role::Astray, right, tag, meaning))
}

/// An instance that is no visual child.
pub fn plain_placed<'a>(
    document: DocumentClass,
    role: Role,
    tag: &'a Element,
) -> Result<Placed<'a>, NoMemory>
    ensures { IfOk result (λ p. placed_as p ≡ plain_placed document.entry (role_as role) tag.now) }
{
    if is_language_tag(tag) {
        return Ok(language_placed(false, tag));
    }
    if is_states_tag(tag) {
        return Ok(stands(tag, Standing::States, false));
    }
    let meaning = class_of_tag(document.table.classes.as_slice(), tag)?;
    let right = stands_anywhere(tag_place(document, meaning));
    Ok(instance_or_unknown(document, role, right, tag, meaning))
}

/// A visual child: a component in a container.
pub fn child_placed<'a>(
    document: DocumentClass,
    parent: Meaning,
    tag: &'a Element,
) -> Result<Placed<'a>, NoMemory>
    ensures { IfOk result (λ p. placed_as p ≡ child_placed document.entry (meaning_of parent) tag.now) }
{
    let meaning = class_of_tag(document.table.classes.as_slice(), tag)?;
    let right = may_be_child(document, parent, meaning);
    Ok(instance_or_unknown(document, Role::Child, right, tag, meaning))
}

fn may_be_child(document: DocumentClass, parent: Meaning, meaning: Meaning) -> bool
    ensures { result ≡ may_be_child document.entry (meaning_of parent) (meaning_of meaning) }
{
    stands_anywhere(tag_place(document, meaning))
        && is_component_class(document, meaning)
        && is_container_class(document, parent)
}

/// A tag in an instance. Elements stand in the tag where it is filled.
pub fn in_instance<'a>(
    document: DocumentClass<'a>,
    parent: &Element,
    meaning: Meaning,
    role: Role,
    tag: &'a Element,
    filled: bool,
) -> Result<Placed<'a>, NoMemory>
    ensures { IfOk result (λ p. placed_as p ≡ in_instance document.entry parent.now (meaning_of meaning) (role_as role) tag.now filled) }
{
    if is_language_tag(tag) {
        return Ok(language_placed(is_root(role), tag));
    }
    if is_states_tag(tag) {
        return Ok(stands(tag, Standing::States, is_root(role)));
    }
    match own_property(document, parent, meaning, tag) {
        Some(property) => Ok(property_placed(tag, filled, property)),
        None => child_placed(document, meaning, tag),
    }
}

/// Whether an instance is the root.
pub fn is_root(role: Role) -> bool
    ensures { result ≡ sites.is_root (role_as role) }
{
    matches!(role, Role::Root)
}

// A child whose name is a property and a class is the property tag.
fn property_placed<'a>(tag: &'a Element, filled: bool, property: Property<'a>) -> Placed<'a>
    ensures { placed_as result ≡ property_placed tag.now filled (property_as property.entry) }
{
    let holds = holds_of(property.kind, filled);
    stands(tag, Standing::PropertyTag(property, holds), true)
}

// A property of the parent's class, in the parent's namespace.
fn own_property<'a>(
    document: DocumentClass<'a>,
    parent: &Element,
    meaning: Meaning,
    tag: &'a Element,
) -> Option<Property<'a>>
    ensures { option_map property_as result ≡ own_property document.entry parent.now (meaning_of meaning) tag.now }
{
    if parent.space.as_str() == tag.space.as_str() {
        property_on(document, meaning, tag.local.as_str())
    } else {
        None
    }
}

// A property of an Array or a class holds words where no element stands in its tag.
fn holds_of(kind: ValueType, filled: bool) -> Holds
    ensures { holds_as result ≡ sites.holds_of (type_of kind) filled }
{
    if !filled {
        return Holds::Words;
    }
    match kind {
        ValueType::Array => Holds::ArrayItems,
        ValueType::Object(class) => Holds::OneInstance(class),
        _ => Holds::Words,
    }
}

/// A literal of the language, or an instance that is no visual child.
pub fn literal_or_plain<'a>(
    document: DocumentClass,
    needs_id: bool,
    role: Role,
    tag: &'a Element,
) -> Result<Placed<'a>, NoMemory>
    ensures { IfOk result (λ p. placed_as p ≡ literal_or_plain document.entry needs_id (role_as role) tag.now) }
{
    if is_literal_tag(tag) {
        return Ok(literal_placed(needs_id, tag));
    }
    plain_placed(document, role, tag)
}

// What a tag is, by what its parent is.

ghost use Rattle.std.specs.Prelude.{◌≡◌, IfOk};
ghost use Rattle.document_sites.specs.Standing as sites;
ghost use Rattle.as3_types.specs.Meanings.{meaning_of};
ghost use Rattle.as3_types.specs.Types.{type_of};
ghost use Rattle.document_tags.specs.Tags.{before_as, holds_as, placed_as, standing_as};
ghost use Rattle.document_tags.specs.Placing.{goes_in, in_literal, in_property, in_state, in_states, is_array, is_own_state_property, placed_in, root_placed, value_placed};

use crate::children::{in_instance, literal_or_plain, plain_placed, stray_placed};
use crate::document::DocumentClass;
use crate::language::{is_language_tag, is_state_property, is_states_tag};
use crate::standing::{Before, Holds, Placed, Role, Standing, stands};
use as3_types::{Meaning, ValueType, class_of_tag};
use flex_base::NoMemory;
use flex_world::{Class, descends};
use mxml_tree::Element;

/// The root of a document.
pub fn root_placed<'a>(document: DocumentClass, tag: &'a Element) -> Result<Placed<'a>, NoMemory>
    ensures { IfOk result (λ p. placed_as p ≡ root_placed document.entry tag.now) }
{
    let meaning = class_of_tag(document.table.classes.as_slice(), tag)?;
    Ok(stands(tag, Standing::Instance(meaning, Role::Root), true))
}

/// What a tag is, by what its parent is and what stands before it there. Elements stand in the tag
/// where it is filled.
pub fn placed_in<'a>(
    document: DocumentClass<'a>,
    parent: Placed,
    before: Before,
    tag: &'a Element,
    filled: bool,
) -> Result<Placed<'a>, NoMemory>
    ensures { IfOk result (λ p. placed_as p ≡ placed_in document.entry (placed_as parent.entry) (before_as before) tag.now filled) }
{
    match parent.standing {
        Standing::Instance(meaning, role) => {
            in_instance(document, parent.tag, meaning, role, tag, filled)
        }
        Standing::PropertyTag(_, holds) => in_property(document, holds, before, tag),
        Standing::Script => stray_placed(document, false, tag),
        Standing::Metadata => stray_placed(document, false, tag),
        Standing::Declarations => literal_or_plain(document, true, Role::Declared, tag),
        Standing::Binding => stray_placed(document, false, tag),
        Standing::States => in_states(document, tag),
        Standing::State => in_state(document, parent.tag, tag),
        Standing::StateProperty => stray_placed(document, false, tag),
        Standing::Literal(kind, _) => in_literal(document, kind, tag),
        Standing::Unknown => stray_placed(document, true, tag),
    }
}

fn in_property<'a>(
    document: DocumentClass,
    holds: Holds,
    before: Before,
    tag: &'a Element,
) -> Result<Placed<'a>, NoMemory>
    ensures { IfOk result (λ p. placed_as p ≡ in_property document.entry (holds_as holds) (before_as before) tag.now) }
{
    match holds {
        Holds::Words => stray_placed(document, false, tag),
        Holds::OneInstance(class) => value_placed(document, class, before, tag),
        Holds::ArrayItems => literal_or_plain(document, false, Role::Item, tag),
    }
}

// One instance of the property's class, and nothing before it.
fn value_placed<'a>(
    document: DocumentClass,
    class: Class,
    before: Before,
    tag: &'a Element,
) -> Result<Placed<'a>, NoMemory>
    ensures { IfOk result (λ p. placed_as p ≡ value_placed document.entry class (before_as before) tag.now) }
{
    let plain = plain_placed(document, Role::Value, tag)?;
    let right = plain.right && (!before.any && goes_in(document, class, plain.standing));
    Ok(stands(plain.tag, plain.standing, right))
}

fn goes_in(document: DocumentClass, class: Class, standing: Standing) -> bool
    ensures { result ≡ goes_in document.entry class (standing_as standing.entry) }
{
    match standing {
        Standing::Instance(Meaning::Class(own), _) => {
            descends(document.table.bases.as_slice(), own, class)
        }
        Standing::Instance(_, _) => false,
        _ => true,
    }
}

fn in_states<'a>(document: DocumentClass, tag: &'a Element) -> Result<Placed<'a>, NoMemory>
    ensures { IfOk result (λ p. placed_as p ≡ in_states document.entry tag.now) }
{
    if is_language_tag(tag) || is_states_tag(tag) {
        return stray_placed(document, false, tag);
    }
    let meaning = class_of_tag(document.table.classes.as_slice(), tag)?;
    if is_state_class(meaning) {
        return Ok(stands(tag, Standing::State, true));
    }
    stray_placed(document, false, tag)
}

fn is_state_class(meaning: Meaning) -> bool
    ensures { result ≡ sites.is_state_class (meaning_of meaning) }
{
    matches!(meaning, Meaning::State)
}

fn in_state<'a>(
    document: DocumentClass,
    parent: &Element,
    tag: &'a Element,
) -> Result<Placed<'a>, NoMemory>
    ensures { IfOk result (λ p. placed_as p ≡ in_state document.entry parent.now tag.now) }
{
    if is_own_state_property(parent, tag) {
        return Ok(stands(tag, Standing::StateProperty, true));
    }
    stray_placed(document, false, tag)
}

fn is_own_state_property(parent: &Element, tag: &Element) -> bool
    ensures { result ≡ is_own_state_property parent.now tag.now }
{
    parent.space.as_str() == tag.space.as_str() && is_state_property(tag.local.as_str())
}

fn in_literal<'a>(
    document: DocumentClass,
    kind: ValueType,
    tag: &'a Element,
) -> Result<Placed<'a>, NoMemory>
    ensures { IfOk result (λ p. placed_as p ≡ in_literal document.entry (type_of kind) tag.now) }
{
    if is_array(kind) {
        return literal_or_plain(document, false, Role::Item, tag);
    }
    stray_placed(document, false, tag)
}

fn is_array(kind: ValueType) -> bool
    ensures { result ≡ is_array (type_of kind) }
{
    matches!(kind, ValueType::Array)
}

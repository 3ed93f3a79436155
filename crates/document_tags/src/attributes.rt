// What each attribute of a tag is.

ghost use Rattle.std.specs.Prelude.{◌≡◌, ◌∷◌, [], bytes_eq, codes};
ghost use Rattle.as3_types.specs.Meanings.{meaning_of};
ghost use Rattle.document_sites.specs.Attributes as sites;
ghost use Rattle.document_sites.specs.Standing.{state_property_names};
ghost use Rattle.document_tags.specs.Kinds.{attribute_kind, attribute_on, heard_or_strange, if_judged, kind_as, on_instance};
ghost use Rattle.document_tags.specs.declared.document.DocumentClass.{DocumentClass};
ghost use Rattle.document_tags.specs.Tags.{role_as, standing_as};

use crate::children::is_root;
use crate::document::DocumentClass;
use crate::dotted::dotted_name;
use crate::language::is_state_property;
use crate::properties::{event_on, property_on};
use crate::standing::{Role, Standing};
use as3_types::Meaning;
use class_table::Property;
use flex_world::Class;
use mxml_tree::Attribute;

/// What an attribute is. MXML 2009.
#[derive(Clone, Copy)]
pub enum AttributeKind<'a> {
    /// `id`, includeIn, excludeFrom or a policy.
    Special(&'a str),
    Sets(Property<'a>),
    /// An event by its name and its class.
    Hears(&'a str, Class),
    /// One that the tag itself has, as `source` of fx:Binding.
    OfTheTag(&'a str),
    /// A name that can't stand there.
    Misplaced,
    /// Neither a property, an event nor one of the special names.
    Strange,
    /// On a tag that isn't known.
    NotJudged,
}

/// What an attribute is on a tag that stands so. One with a prefix is a strange one.
pub fn attribute_kind<'a>(
    document: DocumentClass<'a>,
    standing: Standing,
    attribute: &'a Attribute,
) -> AttributeKind<'a>
    ensures { kind_as result ≡ attribute_kind document.entry (standing_as standing.entry) attribute.now }
{
    let local = attribute.local.as_str();
    let kind = attribute_on(document, standing, dotted_name(local).name, local);
    if attribute.space.as_str().is_empty() {
        kind
    } else {
        if_judged(kind)
    }
}

fn if_judged(kind: AttributeKind) -> AttributeKind<'static>
    ensures { (d : DocumentClass) → kind_as result ≡ if_judged d (kind_as kind.entry) }
{
    match kind {
        AttributeKind::NotJudged => AttributeKind::NotJudged,
        _ => AttributeKind::Strange,
    }
}

// By the tag, and the name before a dot.
fn attribute_on<'a>(
    document: DocumentClass<'a>,
    standing: Standing,
    name: &'a str,
    local: &'a str,
) -> AttributeKind<'a>
    ensures { kind_as result ≡ attribute_on document.entry (standing_as standing.entry) name.now local.now }
{
    match standing {
        Standing::Instance(meaning, role) => on_instance(document, meaning, role, name),
        Standing::Binding => of_binding(local),
        Standing::State => of_state(name),
        Standing::Literal(_, true) => of_literal(local),
        Standing::Unknown => AttributeKind::NotJudged,
        _ => of_other_tags(local),
    }
}

// `currentState` can't stand on the root, nor on what has no such property.
fn on_instance<'a>(
    document: DocumentClass<'a>,
    meaning: Meaning,
    role: Role,
    name: &'a str,
) -> AttributeKind<'a>
    ensures { kind_as result ≡ on_instance document.entry (meaning_of meaning) (role_as role) name.now }
{
    if is_special(name) {
        return AttributeKind::Special(name);
    }
    let property = property_on(document, meaning, name);
    if is_current_state(name) && (is_root(role) || property.is_none()) {
        return AttributeKind::Misplaced;
    }
    match property {
        Some(property) => AttributeKind::Sets(property),
        None => heard_or_strange(document, meaning, name),
    }
}

#[tactic(auto, using(crate::proofs::Heard::heard, crate::proofs::Heard::not_heard))]
fn heard_or_strange<'a>(
    document: DocumentClass<'a>,
    meaning: Meaning,
    name: &'a str,
) -> AttributeKind<'a>
    ensures { kind_as result ≡ heard_or_strange document.entry (meaning_of meaning) name.now }
{
    match event_on(document, meaning, name) {
        Some(class) => AttributeKind::Hears(name, class),
        None => AttributeKind::Strange,
    }
}

/// Whether a name is one of the special ones.
pub fn is_special(name: &str) -> bool
    ensures { result ≡ sites.is_special name.now }
{
    name == "id"
        || name == "includeIn"
        || name == "excludeFrom"
        || name == "itemCreationPolicy"
        || name == "itemDestructionPolicy"
}

fn is_current_state(name: &str) -> bool
    ensures { result ≡ bytes_eq name.now sites.current_state }
{
    name == "currentState"
}

fn of_other_tags(name: &str) -> AttributeKind<'static>
    ensures { kind_as result ≡ sites.of_other_tags name.now }
{
    if is_special(name) || is_current_state(name) {
        AttributeKind::Misplaced
    } else {
        AttributeKind::Strange
    }
}

fn of_binding(name: &str) -> AttributeKind<'_>
    ensures { kind_as result ≡ sites.of_tag sites.binding_names name.now }
{
    if name == "source" || name == "destination" || name == "twoWay" {
        AttributeKind::OfTheTag(name)
    } else {
        of_other_tags(name)
    }
}

fn of_state(name: &str) -> AttributeKind<'_>
    ensures { kind_as result ≡ sites.of_tag state_property_names name.now }
{
    if is_state_property(name) {
        AttributeKind::OfTheTag(name)
    } else {
        of_other_tags(name)
    }
}

fn of_literal(name: &str) -> AttributeKind<'_>
    ensures { kind_as result ≡ sites.of_tag (codes "id" ∷ []) name.now }
{
    if name == "id" {
        AttributeKind::OfTheTag(name)
    } else {
        of_other_tags(name)
    }
}

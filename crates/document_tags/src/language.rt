// The tags of the language.

ghost use Rattle.std.specs.Prelude.{◌≡◌};
ghost use Rattle.source_sites.specs.Members.{built_in};
ghost use Rattle.source_sites.specs.Texts.{among};
ghost use Rattle.document_sites.specs.Standing as sites;
ghost use Rattle.document_sites.specs.Standing.{state_property_names};
ghost use Rattle.document_tags.specs.Tags.{placed_as};

use crate::standing::{Placed, Standing, stands, unknown};
use as3_types::{ValueType, built_in};
use mxml_tree::Element;

/// The namespace of the language's own tags. MXML 2009.
const LANGUAGE: &str = "http://ns.adobe.com/mxml/2009";

/// The namespace of the native classes in documents.
const SPARK: &str = "library://ns.adobe.com/flex/spark";

/// Whether a tag is in the namespace of the language.
pub fn is_language_tag(tag: &Element) -> bool
    ensures { result ≡ sites.is_language_tag tag.now }
{
    tag.space.as_str() == LANGUAGE
}

/// Whether a tag is `s:states`.
pub fn is_states_tag(tag: &Element) -> bool
    ensures { result ≡ sites.is_states_tag tag.now }
{
    tag.space.as_str() == SPARK && tag.local.as_str() == "states"
}

/// A tag of the language: the first four may stand in the root alone, and the literals where others
/// say so.
pub fn language_placed(right: bool, tag: &Element) -> Placed<'_>
    ensures { placed_as result ≡ sites.language_placed right tag.now }
{
    let local = tag.local.as_str();
    if local == "Script" {
        stands(tag, Standing::Script, right)
    } else if local == "Metadata" {
        stands(tag, Standing::Metadata, right)
    } else if local == "Declarations" {
        stands(tag, Standing::Declarations, right)
    } else if local == "Binding" {
        stands(tag, Standing::Binding, right)
    } else {
        literal_or_unknown(tag)
    }
}

fn literal_or_unknown(tag: &Element) -> Placed<'_>
    ensures { placed_as result ≡ sites.literal_or_unknown tag.now (built_in tag.now.local) }
{
    match built_in(tag.local.as_str()) {
        Some(kind) => stands(tag, Standing::Literal(kind, false), false),
        None => unknown(tag),
    }
}

/// Whether a tag is fx:String, fx:int, fx:Boolean or fx:Array.
pub fn is_literal_tag(tag: &Element) -> bool
    ensures { result ≡ sites.is_literal_tag tag.now }
{
    is_language_tag(tag) && built_in(tag.local.as_str()).is_some()
}

/// A literal where it may stand.
pub fn literal_placed(needs_id: bool, tag: &Element) -> Placed<'_>
    ensures { placed_as result ≡ sites.literal_placed needs_id tag.now }
{
    let kind = match built_in(tag.local.as_str()) {
        Some(kind) => kind,
        None => ValueType::Unknown,
    };
    stands(tag, Standing::Literal(kind, needs_id), true)
}

/// Whether a name is one of the properties of a State.
pub fn is_state_property(name: &str) -> bool
    ensures { result ≡ among name.now state_property_names }
{
    name == "name" || name == "stateGroups"
}

// Attributes whose values are wrong.

ghost use Rattle.std.specs.Prelude.{◌≡◌, IfOk, ◌∷◌, []};
ghost use Rattle.source_sites.specs.Sites.{first_site};
ghost use Rattle.document_sites.specs.DocumentSites as sites;
ghost use Rattle.class_table.specs.Seen.{property_as};
ghost use Rattle.document_tags.specs.Kinds.{kind_as};
ghost use Rattle.attribute_rules.specs.Rules.{FindsBadLiteral, is_right_literal, is_right_own, is_right_special, is_right_value};

use crate::overrides::has_state;
use as3_types::{is_identifier, site_unless};
use class_table::Property;
use document_tags::AttributeKind;
use document_texts::{is_binding, setting_of_text};
use flex_base::NoMemory;
use mxml_tree::Attribute;
use source_sites::{Code, Site};
use std::alloc::Global;

/// An `id` is an identifier, and the text of a property is a binding or converts. At its name.
pub fn bad_attribute_literal(
    alloc: Global,
    file: u32,
    kind: AttributeKind,
    attribute: &Attribute,
) -> Result<Option<Site>, NoMemory>
    ensures { IfOk result (FindsBadLiteral file (kind_as kind.entry) attribute.now) }
{
    let holds = is_right_literal(alloc, kind, attribute)?;
    Ok(site_unless(holds, file, attribute.at, Code::BadLiteral))
}

fn is_right_literal(
    alloc: Global,
    kind: AttributeKind,
    attribute: &Attribute,
) -> Result<bool, NoMemory>
    ensures { IfOk result (λ right. right ≡ is_right_literal (kind_as kind.entry) attribute.now) }
{
    match kind {
        AttributeKind::Special(name) => Ok(is_right_special(name, attribute)),
        AttributeKind::OfTheTag(name) => Ok(is_right_own(name, attribute)),
        AttributeKind::Sets(property) => is_right_value(alloc, &property, attribute.value.as_str()),
        _ => Ok(true),
    }
}

fn is_right_special(name: &str, attribute: &Attribute) -> bool
    ensures { result ≡ is_right_special name.now attribute.now }
{
    name != "id" || has_state(attribute) || is_identifier(attribute.value.as_str())
}

fn is_right_own(name: &str, attribute: &Attribute) -> bool
    ensures { result ≡ is_right_own name.now attribute.now }
{
    let value = attribute.value.as_str();
    if name == "id" {
        is_identifier(value)
    } else if name == "twoWay" {
        value == "true" || value == "false"
    } else {
        true
    }
}

fn is_right_value(alloc: Global, property: &Property, value: &str) -> Result<bool, NoMemory>
    ensures { IfOk result (λ right. right ≡ is_right_value (property_as property.now) value.now) }
{
    if is_binding(value) {
        return Ok(true);
    }
    let found = setting_of_text(alloc, property, value)?;
    Ok(found.is_some())
}

/// A value has at most 2,048 bytes. At its place.
pub fn too_long_value(file: u32, at: usize, value: &str) -> Option<Site>
    ensures { result ≡ first_site file (sites.too_long_value at value.now ∷ []) }
{
    site_unless(value.len() <= 2048, file, at, Code::TooLong)
}

// Attributes of states.

ghost use Rattle.std.specs.Prelude.{◌≡◌};
ghost use Rattle.source_sites.specs.Texts.{is_there};
ghost use Rattle.document_sites.specs.DocumentSites as sites;
ghost use Rattle.document_sites.specs.DocumentSites.{state_of};
ghost use Rattle.document_tags.specs.Kinds.{kind_as};

use document_tags::{AttributeKind, dotted_name};
use mxml_tree::Attribute;

/// Whether a state stands behind a dot in the name of an attribute.
pub fn has_state(attribute: &Attribute) -> bool
    ensures { result ≡ is_there (state_of attribute.now) }
{
    dotted_name(attribute.local.as_str()).state.is_some()
}

/// Whether an attribute with a dot is an override.
pub fn is_override(kind: AttributeKind, attribute: &Attribute) -> bool
    ensures { result ≡ sites.is_override (kind_as kind.entry) attribute.now }
{
    has_state(attribute) && may_override(kind)
}

fn may_override(kind: AttributeKind) -> bool
    ensures { result ≡ sites.may_override (kind_as kind.entry) }
{
    match kind {
        AttributeKind::Special(_) => true,
        AttributeKind::Sets(property) => !property.read_only,
        AttributeKind::Hears(_, _) => true,
        AttributeKind::OfTheTag(_) => true,
        _ => false,
    }
}

// Attributes that can't stand where they do.

ghost use Rattle.std.specs.Prelude.{◌≡◌};
ghost use Rattle.document_sites.specs.DocumentSites as sites;
ghost use Rattle.document_sites.specs.Standing as roles;
ghost use Rattle.document_tags.specs.Kinds.{kind_as};
ghost use Rattle.document_tags.specs.Tags.{role_as, standing_as};
ghost use Rattle.attribute_rules.specs.Rules.{FindsReadOnly, FindsUnknown, FindsWrongPlace, is_read_only, is_strange, may_carry_special, stands_rightly};

use crate::overrides::has_state;
use as3_types::site_unless;
use document_tags::{AttributeKind, Role, Standing};
use mxml_tree::Attribute;
use source_sites::{Code, Site};

/// An attribute stands on a tag that may have it. At its name.
pub fn wrong_attribute_place(
    file: u32,
    standing: Standing,
    kind: AttributeKind,
    attribute: &Attribute,
) -> Option<Site>
    ensures { FindsWrongPlace file (kind_as kind.entry) attribute.now result (standing_as standing.entry) }
{
    let holds = stands_rightly(standing, kind, attribute);
    site_unless(holds, file, attribute.at, Code::WrongPlace)
}

fn stands_rightly(standing: Standing, kind: AttributeKind, attribute: &Attribute) -> bool
    ensures { result ≡ stands_rightly (standing_as standing.entry) (kind_as kind.entry) attribute.now }
{
    match kind {
        AttributeKind::Special(name) => has_state(attribute) || may_be_special(standing, name),
        AttributeKind::Misplaced => false,
        _ => true,
    }
}

// An `id` can't stand on the root, and the others stand on visual children alone.
fn may_be_special(standing: Standing, name: &str) -> bool
    ensures { result ≡ sites.may_be_special (standing_as standing.entry) name.now }
{
    match standing {
        Standing::Instance(_, role) => may_carry_special(role, name),
        _ => true,
    }
}

fn may_carry_special(role: Role, name: &str) -> bool
    ensures { result ≡ may_carry_special (role_as role) name.now }
{
    if name == "id" {
        !is_root(role)
    } else {
        may_carry(role)
    }
}

fn is_root(role: Role) -> bool
    ensures { result ≡ roles.is_root (role_as role) }
{
    matches!(role, Role::Root)
}

fn may_carry(role: Role) -> bool
    ensures { result ≡ sites.may_carry (role_as role) }
{
    matches!(role, Role::Child | Role::Astray)
}

/// An attribute is a property, an event or one of the special names. At its name.
pub fn unknown_attribute(file: u32, kind: AttributeKind, attribute: &Attribute) -> Option<Site>
    ensures { FindsUnknown file (kind_as kind.entry) attribute.now result }
{
    let holds = !is_strange(kind);
    site_unless(holds, file, attribute.at, Code::UnknownAttribute)
}

fn is_strange(kind: AttributeKind) -> bool
    ensures { result ≡ is_strange (kind_as kind.entry) }
{
    matches!(kind, AttributeKind::Strange)
}

/// A property that an attribute sets may be written. At its name.
pub fn read_only_attribute(file: u32, kind: AttributeKind, attribute: &Attribute) -> Option<Site>
    ensures { FindsReadOnly file (kind_as kind.entry) attribute.now result }
{
    let holds = !is_read_only(kind);
    site_unless(holds, file, attribute.at, Code::ReadOnly)
}

fn is_read_only(kind: AttributeKind) -> bool
    ensures { result ≡ is_read_only (kind_as kind.entry) }
{
    match kind {
        AttributeKind::Sets(property) => property.read_only,
        _ => false,
    }
}

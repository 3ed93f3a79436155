// What the attributes of a tag declare and say.

ghost use Rattle.std.specs.Prelude.{◌≡◌, ◌++◌, All, IfOk, IsFalse, MatchOption, map, reverse};
ghost use Rattle.mxml_items.specs.Reading.{written};
ghost use Rattle.mxml_tree.specs.Faults.{is_repeated, names_of, plain};
ghost use Rattle.mxml_tree.specs.IsTree.{AreAttributesOf, IsAttributeOf};
ghost use Rattle.mxml_tree.specs.Namespaces.{AreDeclared, attribute_space, prefix_of};
ghost use Rattle.mxml_tree.specs.Opened.{are_known, declared_in, own_of};
ghost use Rattle.mxml_tree.specs.Readable.{HasReadableValue};

use crate::elements::{Declaration, OpenElement, space_of};
use crate::names::{declares, local_of, prefix_of};
use crate::tree::Attribute;
use crate::values::value_of;
use flex_base::{NoMemory, Sequence, Text};
use mxml_items::Attribute as Written;
use std::alloc::Global;
use std::collections::BTreeSet;

// Whether two attributes have the same written name.
pub fn is_repeated(alloc: Global, attributes: &[Written<'_>]) -> Result<bool, NoMemory>
    ensures { IfOk result (λ r. r ≡ is_repeated (names_of (map written attributes.now))) }
{
    let mut names = BTreeSet::new(alloc);
    for attribute in attributes {
        if !names.insert(attribute.name)? {
            return Ok(true);
        }
    }
    Ok(false)
}

// What the attributes of a tag declare, in text order.
pub fn declarations<'a>(
    alloc: Global,
    attributes: &[Written<'a>],
) -> Result<Sequence<Declaration<'a>>, NoMemory>
    requires { All HasReadableValue (map written attributes.now) }
    ensures { IfOk result (λ own. AreDeclared (map written attributes.now) (own_of own)) }
{
    let mut own = Sequence::new(alloc);
    for attribute in attributes {
        if let Some(prefix) = declares(attribute.name) {
            let space = value_of(alloc, attribute.value)?;
            own.push(Declaration { prefix, space })?;
        }
    }
    Ok(own)
}

// The attributes of a tag that declare nothing, in text order: `None` where a prefix of one isn't
// declared by the tag or by the open elements, the outermost first.
pub fn plain_attributes(
    alloc: Global,
    own: &[Declaration<'_>],
    opened: &[OpenElement<'_>],
    attributes: &[Written<'_>],
) -> Result<Option<Sequence<Attribute>>, NoMemory>
    requires { All HasReadableValue (map written attributes.now) }
    ensures { let declared = own_of own.now ++ declared_in (reverse opened.now) in
        let listed = plain (map written attributes.now) in
        IfOk result (λ r. MatchOption r (IsFalse (are_known declared listed)) (AreAttributesOf declared listed)) }
{
    let mut list = Sequence::new(alloc);
    for attribute in attributes {
        if declares(attribute.name).is_none() {
            match plain_attribute(alloc, own, opened, attribute)? {
                Some(attribute) => list.push(attribute)?,
                None => return Ok(None),
            }
        }
    }
    Ok(Some(list))
}

// An attribute that declares nothing: `None` where its prefix isn't declared.
fn plain_attribute(
    alloc: Global,
    own: &[Declaration<'_>],
    opened: &[OpenElement<'_>],
    attribute: &Written<'_>,
) -> Result<Option<Attribute>, NoMemory>
    requires { HasReadableValue (written attribute.now) }
    ensures { let declared = own_of own.now ++ declared_in (reverse opened.now) in
        let missing = attribute_space declared (prefix_of attribute.now.name.now) ≡ None in
        IfOk result (λ r. MatchOption r missing (IsAttributeOf declared (written attribute.now))) }
{
    let Some(space) = attribute_space(alloc, own, opened, prefix_of(attribute.name))? else {
        return Ok(None);
    };
    let at = attribute.at;
    let local = Text::make(alloc, local_of(attribute.name))?;
    let value = value_of(alloc, attribute.value)?;
    Ok(Some(Attribute {
        at,
        space,
        local,
        value,
    }))
}

// The namespace of an attribute's prefix, which is none without a prefix.
fn attribute_space(
    alloc: Global,
    own: &[Declaration<'_>],
    opened: &[OpenElement<'_>],
    prefix: &str,
) -> Result<Option<Text>, NoMemory>
    ensures { IfOk result (λ space. space ≡ attribute_space (own_of own.now ++ declared_in (reverse opened.now)) prefix.now) }
{
    if prefix.is_empty() {
        return Ok(Some(Text::make(alloc, "")?));
    }
    space_of(alloc, own, opened, prefix)
}

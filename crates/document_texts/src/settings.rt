// What texts set properties to.

ghost use Rattle.std.specs.Prelude.{◌≡◌, None, IfOk, option_map};
ghost use Rattle.document_sites.specs.BindingTexts as texts;
ghost use Rattle.document_sites.specs.BindingTexts.{percent_name, percent_setting, percent_value};
ghost use Rattle.class_table.specs.Seen.{property_as};
ghost use Rattle.document_texts.specs.Values.{setting_as};

use crate::literals::{Literal, literal_text, literal_value};
use crate::numbers::whole_number;
use class_table::Property;
use flex_base::{Bytes, NoMemory};
use std::alloc::Global;

/// A property with the value that a text sets it to.
#[derive(Drop)]
pub struct Setting<'a> {
    pub name: &'a str,
    pub value: Literal,
}

/// What a text without parts sets a property to: a percentage for the width and the height of the
/// catalog, and otherwise a value of the property's type. `None` exactly where it doesn't convert.
pub fn setting_of_text<'a>(
    alloc: Global,
    property: &Property<'a>,
    text: &str,
) -> Result<Option<Setting<'a>>, NoMemory>
    ensures { IfOk result (λ s. option_map setting_as s ≡ texts.setting (property_as property.now) text.now) }
{
    let literal = literal_text(alloc, text)?;
    if let Some(percentage) = percent_setting(property, literal.as_slice()) {
        return Ok(Some(percentage));
    }
    Ok(value_setting(property, literal))
}

fn value_setting<'a>(property: &Property<'a>, literal: Bytes) -> Option<Setting<'a>>
    ensures { option_map setting_as result ≡ texts.or_literal None (property_as property.now) literal }
{
    let value = literal_value(property.kind, literal)?;
    Some(Setting {
        name: property.name,
        value,
    })
}

fn percent_setting<'a>(property: &Property, literal: &[u8]) -> Option<Setting<'a>>
    ensures { option_map setting_as result ≡ percent_setting (property_as property.now) literal.now }
{
    if !property.native {
        return None;
    }
    let name = percent_name(property.name)?;
    let number = percent_value(literal)?;
    Some(Setting {
        name,
        value: Literal::Whole(number),
    })
}

// The property of a percentage for this one.
fn percent_name(name: &str) -> Option<&'static str>
    ensures { option_map (λ n. n.now) result ≡ percent_name name.now }
{
    match name {
        "width" => Some("percentWidth"),
        "height" => Some("percentHeight"),
        _ => None,
    }
}

fn percent_value(literal: &[u8]) -> Option<i32>
    ensures { result ≡ percent_value literal.now }
{
    let (last, early) = literal.split_last()?;
    if *last == b'%' {
        whole_number(early)
    } else {
        None
    }
}

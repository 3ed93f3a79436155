// The properties and the events of what a tag means.

ghost use Rattle.std.specs.Prelude.{◌≡◌, option_map};
ghost use Rattle.document_sites.specs.Standing as standing;
ghost use Rattle.document_sites.specs.Standing.{state_property};
ghost use Rattle.as3_types.specs.Meanings.{meaning_of};
ghost use Rattle.class_table.specs.Seen.{property_as};
ghost use Rattle.class_table.specs.Sent.{class_in};
ghost use Rattle.document_tags.specs.Tags.{table_in};

use crate::document::DocumentClass;
use as3_types::{Meaning, native_type};
use class_table::{Property, event_of, property_seen};
use component_catalog::{NativeClass, property_of};
use flex_world::Class;

/// The property that a name stands for on an instance, where the document may see it.
pub fn property_on<'a>(
    document: DocumentClass<'a>,
    meaning: Meaning,
    name: &'a str,
) -> Option<Property<'a>>
    ensures { option_map property_as result ≡ standing.property_on (table_in document.entry) document.entry.class (meaning_of meaning) name.now }
{
    match meaning {
        Meaning::NoClass => None,
        Meaning::State => state_property(name),
        Meaning::Class(class) => property_seen(document.table, document.class, class, name),
    }
}

#[tactic(auto, using(crate::proofs::StateProperties::with_row, crate::proofs::StateProperties::without_row))]
fn state_property(name: &str) -> Option<Property<'_>>
    ensures { option_map property_as result ≡ state_property name.now }
{
    let row = property_of(NativeClass::State, name)?;
    Some(Property {
        name,
        kind: native_type(row.kind),
        read_only: row.read_only,
        bindable: row.bindable,
        native: true,
    })
}

/// The class of the event of this name that an instance sends.
pub fn event_on(document: DocumentClass, meaning: Meaning, name: &str) -> Option<Class>
    ensures { result ≡ class_in (standing.event_on (table_in document.entry) document.entry.class (meaning_of meaning) name.now) }
{
    match meaning {
        Meaning::NoClass => None,
        Meaning::State => None,
        Meaning::Class(class) => event_of(document.table, class, name),
    }
}

// The classes of tags.

ghost use Rattle.std.specs.Prelude.{◌≡◌, not};
ghost use Rattle.flex_world.specs.Classes.{descends_from};
ghost use Rattle.source_sites.specs.Members.{has_tag, tags_of};
ghost use Rattle.document_sites.specs.Standing.{has_no_tag, is_component_class, is_container_class, tags_of_meaning};
ghost use Rattle.as3_types.specs.Meanings.{meaning_of};
ghost use Rattle.document_tags.specs.declared.document.DocumentClass.{DocumentClass};
ghost use Rattle.document_tags.specs.Tags.{table_in};

use crate::document::DocumentClass;
use as3_types::Meaning;
use class_table::has_tag;
use component_catalog::{NativeClass, TagPlace};
use flex_world::{Class, descends};

/// Where what a tag means has its tag.
pub fn tag_place(document: DocumentClass, meaning: Meaning) -> TagPlace
    ensures { result ≡ tags_of_meaning (table_in document.entry) document.entry.class (meaning_of meaning) }
{
    match meaning {
        Meaning::NoClass => TagPlace::Nowhere,
        Meaning::State => TagPlace::States,
        Meaning::Class(class) => place_of_class(document, class),
    }
}

#[tactic(auto, using(crate::proofs::TagPlaces::anywhere, crate::proofs::TagPlaces::nowhere))]
fn place_of_class(document: DocumentClass, class: Class) -> TagPlace
    ensures { result ≡ tags_of (table_in document.entry).constructors class }
{
    match class {
        Class::Native(class) => class.tag_place(),
        Class::File(_) => {
            if has_tag(document.table.constructors.as_slice(), class) {
                TagPlace::Anywhere
            } else {
                TagPlace::Nowhere
            }
        }
    }
}

/// Whether there is a tag of it at all.
pub fn is_known(place: TagPlace) -> bool
    ensures { (d : DocumentClass) → result ≡ not (has_no_tag (table_in d) d.class place) }
{
    !matches!(place, TagPlace::Nowhere)
}

/// Whether it has its tag anywhere.
pub fn stands_anywhere(place: TagPlace) -> bool
    ensures { result ≡ has_tag place }
{
    matches!(place, TagPlace::Anywhere)
}

/// Whether it is a component.
pub fn is_component_class(document: DocumentClass, meaning: Meaning) -> bool
    ensures { result ≡ is_component_class (table_in document.entry) document.entry.class (meaning_of meaning) }
{
    match meaning {
        Meaning::NoClass => false,
        Meaning::State => false,
        Meaning::Class(class) => descends_from(document, class, NativeClass::UIComponent),
    }
}

/// Whether it is a component that holds others.
pub fn is_container_class(document: DocumentClass, meaning: Meaning) -> bool
    ensures { result ≡ is_container_class (table_in document.entry) document.entry.class (meaning_of meaning) }
{
    match meaning {
        Meaning::NoClass => false,
        Meaning::State => false,
        Meaning::Class(class) => {
            descends_from(document, class, NativeClass::SkinnableContainer)
                || descends_from(document, class, NativeClass::Group)
        }
    }
}

fn descends_from(document: DocumentClass, class: Class, ancestor: NativeClass) -> bool
    ensures { result ≡ descends_from (table_in document.entry).bases ancestor class }
{
    descends(
        document.table.bases.as_slice(),
        class,
        Class::Native(ancestor),
    )
}

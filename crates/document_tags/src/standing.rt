// What tags are, and where they stand.

ghost use Rattle.std.specs.Prelude.{◌≡◌};
ghost use Rattle.document_sites.specs.Standing as sites;
ghost use Rattle.document_tags.specs.Tags.{before_as, behind_a, placed_as, standing_as};

use as3_types::{Meaning, ValueType};
use class_table::Property;
use flex_world::Class;
use mxml_tree::Element;

/// How an instance stands in what holds it.
#[derive(Clone, Copy)]
pub enum Role {
    Root,
    /// A visual child, if it may be one.
    Child,
    /// In fx:Declarations.
    Declared,
    /// In an Array.
    Item,
    /// In a property tag.
    Value,
    /// Where no instance can stand.
    Astray,
}

/// What a property tag holds.
#[derive(Clone, Copy)]
pub enum Holds {
    Words,
    OneInstance(Class),
    ArrayItems,
}

/// What a tag is. MXML 2009.
#[derive(Clone, Copy)]
pub enum Standing<'a> {
    Instance(Meaning, Role),
    PropertyTag(Property<'a>, Holds),
    Script,
    Metadata,
    Declarations,
    Binding,
    /// `s:states`
    States,
    State,
    /// The name or the groups of a State, as a tag.
    StateProperty,
    /// fx:String, fx:int, fx:Boolean or fx:Array by its type, and whether it needs an `id`.
    Literal(ValueType, bool),
    Unknown,
}

/// A tag with what it is.
#[derive(Clone, Copy)]
pub struct Placed<'a> {
    pub tag: &'a Element,
    pub standing: Standing<'a>,
    /// Whether it may stand there.
    pub right: bool,
}

/// What stands before in the same element.
#[derive(Clone, Copy)]
pub struct Before {
    pub any: bool,
    pub text: bool,
}

/// What stands before the first node of an element.
pub fn nothing_before() -> Before
    ensures { before_as result ≡ sites.nothing_before }
{
    Before {
        any: false,
        text: false,
    }
}

/// What stands before the next node behind a text, or behind an element.
pub fn behind(is_text: bool, before: Before) -> Before
    ensures { before_as result ≡ behind_a is_text (before_as before) }
{
    Before {
        any: true,
        text: before.text || is_text,
    }
}

/// A tag that is known to be this, and whether it may stand there.
pub fn stands<'a>(tag: &'a Element, standing: Standing<'a>, right: bool) -> Placed<'a>
    ensures { placed_as result ≡ sites.stands tag.now (standing_as standing.entry) right }
{
    Placed {
        tag,
        standing,
        right,
    }
}

/// A tag that isn't known.
pub fn unknown(tag: &Element) -> Placed<'_>
    ensures { placed_as result ≡ sites.unknown tag.now }
{
    stands(tag, Standing::Unknown, true)
}

// The properties of the native classes.

ghost use Rattle.std.specs.Prelude.{◌≡◌, map};
ghost use Rattle.component_catalog.specs.Properties.{Property, bound, fixed, own_property, properties, property_of};

use crate::class::NativeClass;
use crate::value::{StartValue, ValueType};

/// A property of a native class.
#[derive(Clone, Copy, Debug, PartialEq, Eq)]
pub struct PropertyRow {
    /// The type of its values.
    pub kind: ValueType,
    /// Its value in a new object. A computed one, as the number of elements, has it there too.
    pub start: StartValue,
    /// Whether code can't write it.
    pub read_only: bool,
    /// Whether bindings watch it.
    pub bindable: bool,
    /// Whether all code may see it.
    pub public: bool,
}

/// The property of this name that the objects of a class have: the class's own, or that of the
/// nearest base that has one. `None` exactly where there is none.
pub fn property_of(class: NativeClass, name: &str) -> Option<PropertyRow>
    ensures { result ≡ property_of class name.now }
{
    let mut level = Some(class);
    while let Some(class) = level {
        let own = own_property(class, name);
        if own.is_some() {
            return own;
        }
        level = class.base();
    }
    None
}

// The property of this name that a class has beside those of its base.
fn own_property(class: NativeClass, name: &str) -> Option<PropertyRow>
    ensures { result ≡ own_property class name.now }
{
    match class {
        NativeClass::UIComponent => component_property(name),
        NativeClass::SkinnableContainer | NativeClass::Group => match name {
            "numElements" => Some(fixed(ValueType::Int, StartValue::Int(0))),
            _ => None,
        },
        NativeClass::VGroup | NativeClass::HGroup => match name {
            "gap" => Some(bound(ValueType::Int, StartValue::Int(6))),
            _ => None,
        },
        NativeClass::Panel => match name {
            "title" => Some(bound(ValueType::String, StartValue::EmptyText)),
            _ => None,
        },
        NativeClass::Label => match name {
            "text" => Some(bound(ValueType::String, StartValue::EmptyText)),
            _ => None,
        },
        NativeClass::Button => match name {
            "label" => Some(bound(ValueType::String, StartValue::EmptyText)),
            _ => None,
        },
        NativeClass::ToggleButton | NativeClass::CheckBox => match name {
            "label" => Some(bound(ValueType::String, StartValue::EmptyText)),
            "selected" => Some(bound(ValueType::Boolean, StartValue::Bool(false))),
            _ => None,
        },
        NativeClass::TextInput => match name {
            "text" => Some(bound(ValueType::String, StartValue::EmptyText)),
            "editable" => Some(bound(ValueType::Boolean, StartValue::Bool(true))),
            _ => None,
        },
        NativeClass::State => match name {
            "name" | "stateGroups" => Some(bound(ValueType::String, StartValue::Null)),
            _ => None,
        },
        NativeClass::Event => event_property(name),
        _ => None,
    }
}

fn component_property(name: &str) -> Option<PropertyRow>
    ensures { result ≡ own_property NativeClass.UIComponent name.now }
{
    match name {
        "visible" | "enabled" => Some(bound(ValueType::Boolean, StartValue::Bool(true))),
        "x"
        | "y"
        | "width"
        | "height"
        | "percentWidth"
        | "percentHeight"
        | "minWidth"
        | "minHeight" => Some(bound(ValueType::Int, StartValue::Int(0))),
        "currentState" => Some(bound(ValueType::String, StartValue::Null)),
        "parent" => Some(fixed(
            ValueType::Object(NativeClass::UIComponent),
            StartValue::Null,
        )),
        _ => None,
    }
}

fn event_property(name: &str) -> Option<PropertyRow>
    ensures { result ≡ own_property NativeClass.Event name.now }
{
    match name {
        "type" => Some(fixed(ValueType::String, StartValue::Null)),
        "target" | "currentTarget" => Some(fixed(ValueType::Any, StartValue::Null)),
        "eventPhase" => Some(fixed(ValueType::Int, StartValue::Int(0))),
        "bubbles" | "cancelable" => Some(fixed(ValueType::Boolean, StartValue::Bool(false))),
        _ => None,
    }
}

/// The names of the properties that a class has beside those of its base, in the order of the
/// table.
pub fn property_names(class: NativeClass) -> &'static [&'static str]
    ensures { map (λ name. name.now) result.now ≡ map (λ (p : Property). p.name) (properties class) }
{
    match class {
        NativeClass::UIComponent => &[
            "visible",
            "enabled",
            "x",
            "y",
            "width",
            "height",
            "percentWidth",
            "percentHeight",
            "minWidth",
            "minHeight",
            "currentState",
            "parent",
        ],
        NativeClass::SkinnableContainer | NativeClass::Group => &["numElements"],
        NativeClass::VGroup | NativeClass::HGroup => &["gap"],
        NativeClass::Panel => &["title"],
        NativeClass::Label => &["text"],
        NativeClass::Button => &["label"],
        NativeClass::ToggleButton | NativeClass::CheckBox => &["label", "selected"],
        NativeClass::TextInput => &["text", "editable"],
        NativeClass::State => &["name", "stateGroups"],
        NativeClass::Event => &[
            "type",
            "target",
            "currentTarget",
            "eventPhase",
            "bubbles",
            "cancelable",
        ],
        _ => &[],
    }
}

// A property that code may write and bindings watch.
fn bound(kind: ValueType, start: StartValue) -> PropertyRow
    ensures { result ≡ bound kind start }
{
    PropertyRow {
        kind,
        start,
        read_only: false,
        bindable: true,
        public: true,
    }
}

// A property that code can't write and bindings don't watch.
fn fixed(kind: ValueType, start: StartValue) -> PropertyRow
    ensures { result ≡ fixed kind start }
{
    PropertyRow {
        kind,
        start,
        read_only: true,
        bindable: false,
        public: true,
    }
}

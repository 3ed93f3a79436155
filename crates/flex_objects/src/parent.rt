// The parent of a component.

ghost use Rattle.std.specs.Prelude.{◌≡◌, None, Some};
ghost use Rattle.flex_base.specs.Value.{ref_of};
ghost use Rattle.flex_world.specs.Objects.{ref_or_null};

use flex_base::{ObjId, Value};
use std::marker::Model;

/// The parent of a component, if it has one, kept as the value of its property `parent`.
#[derive(Drop)]
pub struct Parent {
    value: Value,
    ghost is_parent: { ref_or_null (ref_of value) ≡ value },
}

impl Model for Parent {
    ghost use Rattle.std.specs.Prelude.{Option};
    ghost use Rattle.flex_base.specs.Value.{ref_of};
    ghost use Rattle.flex_base.specs.declared.value.ObjId.{ObjId as Object};

    ghost Value = { Option Object };

    ghost view = { λ p. ref_of p.value };
}

impl Parent {
    /// No parent.
    pub fn none() -> Parent
        ensures { result ≡ None }
    {
        Parent { value: Value::Null }
    }

    /// This object.
    pub fn of(object: ObjId) -> Parent
        ensures { result ≡ Some object }
    {
        Parent {
            value: Value::Ref(object),
        }
    }

    /// The object, if there is one.
    pub fn object(&self) -> Option<ObjId>
        ensures { result ≡ self.now }
    {
        match self.value {
            Value::Ref(object) => Some(object),
            _ => None,
        }
    }

    /// The value of the property `parent`.
    pub fn value(&self) -> &Value
        ensures { result.now ≡ ref_or_null self.now }
    {
        &self.value
    }
}

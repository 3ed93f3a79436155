// The objects that properties hold.

use crate::steps::Steps;
use flex_base::{ObjId, Text};

/// What the properties of objects hold, as far as it is objects: a map from an object and a name to
/// an object, in which watched chains are walked. This project's own.
pub trait Fields {
    ghost use Rattle.std.specs.Prelude.{◌≡◌, List, Option, ℕ};
    ghost use Rattle.flex_base.specs.declared.value.ObjId.{ObjId as Object};
    ghost use Rattle.watch_table.specs.Steps.{raised};

    /// The map.
    ghost held: { Self → Object → List ℕ → Option Object };

    /// The object that a property of an object holds: `None` exactly where the map has none. It
    /// counts one step.
    fn field<L>(&self, object: ObjId, name: &Text, steps: &mut Steps<L>) -> Option<ObjId>
        ensures value { result ≡ held self.now object name.now }
        ensures count { steps.new ≡ raised steps.old };
}

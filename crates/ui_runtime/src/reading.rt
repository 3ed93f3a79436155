// What is asked of objects.

ghost use Rattle.std.specs.Option.{option_copied};
ghost use Rattle.std.specs.Prelude.{◌≡◌, None, option_map};
ghost use Rattle.ui_runtime.specs.Answers.{asked};
ghost use Rattle.ui_runtime.specs.Stage.{entity_at};
ghost use Rattle.ui_runtime.specs.Properties.{class_at, native_at, reads};

use crate::stage::Stage;
use component_catalog::NativeClass;
use flex_base::{ObjId, Text, Value};
use flex_objects::Entity;
use flex_world::Class;

impl Stage {
    // What is kept for the object of a number.
    pub(crate) fn entity(&self, object: ObjId) -> Option<&Entity>
        ensures { option_copied result ≡ asked None (entity_at object) self.now }
    {
        self.state.as_ref()?.objects.get(object)
    }

    /// The value of the property of a key; `None` exactly where the object has no such property.
    pub fn read(&self, object: ObjId, key: &Text) -> Option<&Value>
        ensures { option_copied result ≡ asked None (reads object key.now) self.now }
    {
        self.entity(object)?.value(key.as_str())
    }

    /// The class of an object; `None` exactly where the number is that of an array or of nothing.
    pub fn class_of(&self, object: ObjId) -> Option<Class>
        ensures { result ≡ asked None (class_at object) self.now }
    {
        self.entity(object)?.class()
    }

    /// The nearest class of the catalog among an object's class and its bases; `None` exactly where
    /// the number is that of an array or of nothing.
    pub fn native_of(&self, object: ObjId) -> Option<NativeClass>
        ensures { result ≡ asked None (native_at object) self.now }
    {
        self.entity(object)?.native()
    }
}

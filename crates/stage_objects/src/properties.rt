// Properties are written, and what they hold is found.

ghost use Rattle.std.specs.Prelude.{◌≡◌, option_and_then};
ghost use Rattle.flex_base.specs.Lists.{changed_entry};
ghost use Rattle.flex_objects.specs.Entities.{after_write_in, stored_in};
ghost use Rattle.stage_objects.specs.Entities.{entity_in};

use crate::objects::Objects;
use flex_base::{ObjId, Text, Value};
use flex_objects::{Entity, Stored};
use watch_table::{Fields, Steps};

impl Fields for Objects {
    ghost use Rattle.stage_objects.specs.Entities.{held_in};

    ghost held = { λ objects object key. held_in objects object key };

    fn field<L>(&self, object: ObjId, name: &Text, steps: &mut Steps<L>) -> Option<ObjId> {
        steps.raise();
        self.get(object)?.object(name.as_str())
    }
}

impl Objects {
    /// Writes the property of a key of an object, hidden or not. `None` exactly where there is none,
    /// and then nothing changes.
    #[tactic(auto, using(crate::proofs::Entries::entry_changed, crate::proofs::Entries::no_entry_changed))]
    pub fn write(&mut self, object: ObjId, key: &str, value: Value) -> Option<Stored>
        ensures answer { result ≡ option_and_then (stored_in key.now value) (entity_in object self.old) }
        ensures after { self.new ≡ changed_entry (after_write_in key.now value) self.old object.0 }
    {
        match self.get_mut(object) {
            Some(entity) => entity.write(key, value),
            None => None,
        }
    }
}

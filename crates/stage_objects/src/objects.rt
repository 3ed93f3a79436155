// The objects of a play, by their numbers.

ghost use Rattle.std.specs.Option.{option_copied};
ghost use Rattle.std.specs.Prelude.{◌≡◌, [], ◌++◌, ◌∷◌, OnOk, length};
ghost use Rattle.stage_objects.specs.Entities.{entity_in};

use flex_base::{NoMemory, ObjId, Sequence};
use flex_objects::Entity;
use std::alloc::Global;
use std::marker::Model;

/// What is kept for each object, array and event of a play, in the order in which they were made:
/// the first has the number 1.
#[derive(Drop)]
pub struct Objects {
    list: Sequence<Entity>,
}

impl Model for Objects {
    ghost use Rattle.std.specs.Prelude.{List};
    ghost use Rattle.flex_objects.specs.Entities.{Entity as Kept};

    ghost Value = { List Kept };

    ghost view = { λ o. o.list };
}

impl Objects {
    /// No object. It takes no memory.
    pub fn new(alloc: Global) -> Objects
        ensures { result ≡ [] }
    {
        Objects {
            list: Sequence::new(alloc),
        }
    }

    /// The number of objects, arrays and events that were made.
    pub fn len(&self) -> usize
        ensures { result ≡ length self.now }
    {
        self.list.len()
    }

    /// What is kept for the object of a number; `None` exactly where the number is of nothing.
    pub fn get(&self, object: ObjId) -> Option<&Entity>
        ensures { option_copied result ≡ entity_in object self.now }
    {
        match object.0 {
            0 => None,
            number => self.list.get(number as usize - 1),
        }
    }

    /// Adds what is kept for the next object.
    pub fn push(&mut self, entity: Entity) -> Result<(), NoMemory>
        ensures { OnOk result (self.new ≡ self.old ++ entity ∷ []) }
    {
        self.list.push(entity)
    }
}

impl Objects {
    ghost use Rattle.std.specs.Borrow.{LendsIf, sem};
    ghost use Rattle.std.specs.Option.{option_copied_mut};
    ghost use Rattle.flex_objects.specs.contracts.entity.Entity as entities;
    ghost use Rattle.stage_objects.specs.Entries.{with_entry};
    ghost use Rattle.stage_objects.specs.contracts.objects.Objects.{the_row};

    // What is kept for the object of a number, to be changed.
    pub(crate) fn get_mut(&mut self, object: ObjId) -> Option<&mut Entity>
        ensures* lends { sem 𝓛
            (LendsIf the_row entities.the_row self.entry result
            (with_entry self.entry.now object.0) self.entry.now) }
        ensures value { option_copied_mut result ≡ entity_in object self.old }
    {
        match object.0 {
            0 => None,
            number => self.list.get_mut(number as usize - 1),
        }
    }
}

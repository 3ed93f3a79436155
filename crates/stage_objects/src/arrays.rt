// The elements of arrays.

ghost use Rattle.std.specs.Prelude.{◌≡◌, ◌<◌, IsTrue, OnOk, length, nat_lt, pos};
ghost use Rattle.flex_base.specs.declared.value.Value.TheVariants as value;
ghost use Rattle.flex_world.specs.Arrays.{last_or_undefined, most_elements, with_element, with_last, without_last};
ghost use Rattle.stage_objects.specs.Entities.{change_in, elements_of, entity_in};

use crate::objects::Objects;
use flex_base::{NoMemory, ObjId, Value};
use flex_objects::Entity;

impl Objects {
    /// The number of elements of an array.
    pub fn array_length(&self, array: ObjId) -> i32
        ensures { result ≡ pos (length (elements_of (entity_in array self.now))) }
    {
        match self.get(array) {
            Some(entity) => entity.elements.len(),
            None => 0,
        }
    }

    /// Whether an array has room for one more element: it has fewer than 65,536.
    pub fn has_room(&self, array: ObjId) -> bool
        ensures { result ≡ nat_lt (length (elements_of (entity_in array self.now))) most_elements }
    {
        match self.get(array) {
            Some(entity) => entity.elements.has_room(),
            None => true,
        }
    }

    /// Adds an element at the end of an array.
    #[tactic(auto, using(crate::proofs::Entries::entry_changed, crate::proofs::Entries::no_entry_changed))]
    pub fn append(&mut self, array: ObjId, value: Value) -> Result<(), NoMemory>
        requires { IsTrue (nat_lt (length (elements_of (entity_in array self.old))) most_elements) }
        ensures { OnOk result (self.new ≡ change_in array (with_last value) self.old) }
    {
        match self.get_mut(array) {
            Some(entity) => entity.elements.push(value),
            None => Ok(()),
        }
    }

    /// Puts a value in the place of the element of an array at an index.
    #[tactic(auto, using(crate::proofs::Entries::entry_changed, crate::proofs::Entries::no_entry_changed))]
    pub fn set_element(&mut self, array: ObjId, index: usize, value: Value)
        requires { index < length (elements_of (entity_in array self.old)) }
        ensures { self.new ≡ change_in array (with_element index value) self.old }
    {
        if let Some(entity) = self.get_mut(array) {
            entity.elements.set(index, value);
        }
    }

    /// Takes the last element of an array away; of an array without elements it gives Undefined,
    /// and changes nothing.
    #[tactic(auto, using(crate::proofs::Entries::entry_changed, crate::proofs::Entries::no_entry_changed))]
    pub fn pop(&mut self, array: ObjId) -> Value
        ensures value { result ≡ last_or_undefined (elements_of (entity_in array self.old)) }
        ensures after { self.new ≡ change_in array without_last self.old }
    {
        match self.get_mut(array) {
            Some(entity) => entity.elements.pop(),
            None => Value::Undefined,
        }
    }
}

// The properties of an object with their values.

ghost use Rattle.std.specs.Option.{option_copied};
ghost use Rattle.std.specs.Prelude.{◌≡◌, [], IfOk, length, option_and_then, option_map, slice_get};
ghost use Rattle.flex_base.specs.Lists.{changed_at};
ghost use Rattle.flex_base.specs.Value.{ref_of};
ghost use Rattle.flex_base.specs.declared.value.Value.{Value};
ghost use Rattle.flex_world.specs.Objects.{field_named, object_in_slot, with_value};
ghost use Rattle.flex_objects.specs.Properties.{after_write, filled, holding, is_slot_in, is_watched, items_of, place_of, slot_field, stored};

use crate::slots::{Slot, SlotTable};
use flex_base::{NoMemory, ObjId, Value, same};
use std::alloc::Global;
use std::marker::Model;
use std::rc::Rc;

/// What the write of a property comes to.
#[derive(Clone, Copy, Debug, PartialEq, Eq)]
pub enum Stored {
    /// The value equals the old one by `===`, and nothing changes.
    Equal,
    /// The value is stored, and bindings don't watch the property.
    Silent,
    /// The value is stored, and the bindings that the change affects are to start.
    Watched,
}

/// The properties that an object keeps, with their values.
#[derive(Drop)]
pub struct Properties {
    table: Option<Rc<SlotTable>>,
    values: Vec<Value>,
    ghost all: { length values.items ≡ length (items_of (option_map (λ t. t.value) table)) },
}

impl Model for Properties {
    ghost use Rattle.std.specs.Prelude.{List, option_map};
    ghost use Rattle.flex_world.specs.Objects.{Field};
    ghost use Rattle.flex_objects.specs.Properties.{filled, items_of};

    ghost Value = { List Field };

    ghost view = { λ p. filled (items_of (option_map (λ t. t.value) p.table)) p.values.items };
}

impl Properties {
    /// No property. It takes no memory.
    pub fn none(alloc: Global) -> Properties
        ensures { result ≡ [] }
    {
        Properties {
            table: None,
            values: Vec::new(alloc),
        }
    }

    /// Those of a table, each with its first value.
    pub fn of(alloc: Global, table: &Rc<SlotTable>) -> Result<Properties, NoMemory>
        ensures { IfOk result (λ properties. properties ≡ table.now.value) }
    {
        let values = table.first_values(alloc)?;
        Ok(Properties {
            table: Some(table.clone()?),
            values,
        })
    }

    /// The place, from 0, of the property of a key; `None` exactly where there is none.
    pub fn place_of(&self, key: &str) -> Option<usize>
        ensures { result ≡ place_of key.now self.now }
    {
        match &self.table {
            Some(table) => table.place_of(key),
            None => None,
        }
    }

    /// The value of the property at a place; `None` exactly where there is none.
    pub fn get_at(&self, place: usize) -> Option<&Value>
        ensures { option_copied result ≡ option_map (λ f. f.value) (slice_get self.now place) }
    {
        value_at(&self.values, place)
    }

    /// Puts a value in the place of that of the property at a place; where there is none, nothing
    /// changes.
    pub fn set_at(&mut self, place: usize, value: Value)
        ensures { self.new ≡ changed_at (holding value) self.old place }
    {
        if place < self.values.len() {
            self.values[place] = value;
        }
    }

    /// The value of the property of a key; `None` exactly where there is none.
    pub fn get(&self, key: &str) -> Option<&Value>
        ensures { option_copied result ≡ option_map (λ f. f.value) (field_named key.now self.now) }
    {
        match self.place_of(key) {
            Some(place) => self.get_at(place),
            None => None,
        }
    }

    /// What the class tells of the property of a key; `None` exactly where there is none.
    pub fn slot(&self, key: &str) -> Option<&Slot>
        ensures { (v : Value) → option_map (λ slot. holding v (slot_field key.now slot)) (option_copied result)
            ≡ option_map (holding v) (field_named key.now self.now) }
    {
        match &self.table {
            Some(table) => table.get(key),
            None => None,
        }
    }

    /// Puts a value in the place of that of a key; where there is none, nothing changes.
    pub fn set(&mut self, key: &str, value: Value)
        ensures { self.new ≡ with_value key.now value self.old }
    {
        if let Some(place) = self.place_of(key) {
            self.set_at(place, value);
        }
    }

    /// Writes the property of a key. `None` exactly where there is none, and then nothing changes.
    pub fn write(&mut self, key: &str, value: Value) -> Option<Stored>
        ensures answer { result ≡ option_map (stored value) (field_named key.now self.old) }
        ensures after { self.new ≡ after_write key.now value self.old }
    {
        let held = self.get(key)?;
        if same(held, &value) {
            return Some(Stored::Equal);
        }
        let is_watched = self.is_bindable(key);
        self.set(key, value);
        if is_watched {
            Some(Stored::Watched)
        } else {
            Some(Stored::Silent)
        }
    }

    /// The object in the variable or id of a key, if it holds one.
    pub fn object(&self, key: &str) -> Option<ObjId>
        ensures { result ≡ option_and_then object_in_slot (field_named key.now self.now) }
    {
        match self.place_of(key) {
            Some(place) => self.object_at(place),
            None => None,
        }
    }

    // The object in the variable or id at a place.
    #[tactic(auto, using(crate::proofs::Fields::slot_object, crate::proofs::Fields::no_slot_object))]
    fn object_at(&self, place: usize) -> Option<ObjId>
        ensures { result ≡ option_and_then object_in_slot (slice_get self.now place) }
    {
        if self.is_slot(place) {
            object_in(self.get_at(place))
        } else {
            None
        }
    }

    // Whether a variable or an id stands at a place.
    fn is_slot(&self, place: usize) -> bool
        ensures { result ≡ is_slot_in (slice_get self.now place) }
    {
        match &self.table {
            Some(table) => table.is_slot(place),
            None => false,
        }
    }

    // Whether bindings watch the property of a key.
    fn is_bindable(&self, key: &str) -> bool
        ensures { result ≡ is_watched (field_named key.now self.now) }
    {
        match &self.table {
            Some(table) => table.is_bindable(key),
            None => false,
        }
    }
}

// The object that a value refers to.
fn object_in(value: Option<&Value>) -> Option<ObjId>
    ensures { result ≡ option_and_then ref_of (option_copied value.entry) }
{
    match value {
        Some(Value::Ref(object)) => Some(*object),
        _ => None,
    }
}

// The value at a place, if there is one.
fn value_at(values: &Vec<Value>, place: usize) -> Option<&Value>
    ensures { option_copied result ≡ slice_get values.now.items place }
{
    values.get(place)
}

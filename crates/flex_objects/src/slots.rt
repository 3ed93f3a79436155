// The properties of a class.

ghost use Rattle.std.specs.Option.{option_copied};
ghost use Rattle.std.specs.Prelude.{◌≡◌, [], ◌++◌, ◌∷◌, IsTrue, IfOk, OnOk, length, map, option_map, slice_get};
ghost use Rattle.flex_world.specs.Classes.{static_type};
ghost use Rattle.flex_world.specs.Objects.{field_named};
ghost use Rattle.flex_world.specs.Making.{is_computed, native_field, native_fields, slots, start_value};
ghost use Rattle.flex_objects.specs.Properties.{has_room_for, is_free, is_slot_in, is_watched, place_of, slot_field, with_named};

use component_catalog::{
    NativeClass, PropertyRow, StartValue, ValueType, property_names, property_of,
};
use flex_base::{NoMemory, Text, Value};
use flex_world::{Class, StaticType};
use indexmap::IndexMap;
use std::alloc::Global;
use std::marker::Model;

/// A property that the objects of a class keep.
#[derive(Drop)]
pub struct Slot {
    /// Its name, which records print.
    pub text: Text,
    /// The type of its values.
    pub kind: StaticType,
    /// Its value in a new object.
    pub start: Value,
    /// Whether all code may see it.
    pub public: bool,
    /// Whether bindings watch it.
    pub bindable: bool,
    /// Whether code can't write it.
    pub read_only: bool,
    /// Whether it is a variable or an id of a class of the file, and no property of the catalog.
    pub is_slot: bool,
}

/// The properties that the objects of a class keep, each under a key of its own, in order.
#[derive(Drop)]
pub struct SlotTable {
    alloc: Global,
    slots: IndexMap<String, Slot>,
}

impl Model for SlotTable {
    ghost use Rattle.std.specs.Prelude.{List, map};
    ghost use Rattle.flex_world.specs.Objects.{Field};
    ghost use Rattle.flex_objects.specs.Tables.{entry_field};

    ghost Value = { List Field };

    ghost view = { λ t. map entry_field t.slots.entries };
}

impl SlotTable {
    /// No property. It takes no memory.
    pub fn new(alloc: Global) -> SlotTable
        ensures { result ≡ [] }
    {
        SlotTable {
            alloc,
            slots: IndexMap::new(alloc),
        }
    }

    /// Adds a property behind the others, under a key that none of them has.
    pub fn add(&mut self, key: &Text, slot: Slot) -> Result<(), NoMemory>
        requires { IsTrue (is_free self.old key.now) }
        ensures { OnOk result (self.new ≡ self.old ++ slot_field key.now slot ∷ []) }
    {
        let key = String::from_str(self.alloc, key.as_str())?;
        self.slots.insert(key, slot)?;
        Ok(())
    }

    /// Adds the properties that a class of the catalog keeps beside those of its base, under their
    /// names, which no property may have yet.
    pub fn add_native(&mut self, class: NativeClass) -> Result<(), NoMemory>
        requires { IsTrue (has_room_for class self.old) }
        ensures { OnOk result (self.new ≡ self.old ++ native_fields class) }
    {
        for name in property_names(class) {
            self.add_named(class, name)?;
        }
        Ok(())
    }

    // Adds the property of this name that objects of a class of the catalog have, unless they
    // don't keep it.
    fn add_named(&mut self, class: NativeClass, name: &str) -> Result<(), NoMemory>
        requires { IsTrue (is_free self.old name.now) }
        ensures { OnOk result (self.new ≡ with_named class self.old name.now) }
    {
        if is_computed(name) {
            return Ok(());
        }
        let Some(row) = property_of(class, name) else {
            return Ok(());
        };
        let alloc = self.alloc;
        let key = Text::make(alloc, name)?;
        let slot = native_slot(alloc, name, row)?;
        self.add(&key, slot)
    }

    /// The number of properties.
    pub fn len(&self) -> usize
        ensures { result ≡ length self.now }
    {
        self.slots.len()
    }

    /// The number of variables and ids among the properties, each of which costs a cell.
    pub fn slot_count(&self) -> usize
        ensures { result ≡ length (slots self.now) }
    {
        let mut count = 0;
        for place in 0..self.slots.len() {
            if self.is_slot(place) {
                count += 1;
            }
        }
        count
    }

    /// Whether a variable or an id stands at a place.
    pub fn is_slot(&self, place: usize) -> bool
        ensures { result ≡ is_slot_in (slice_get self.now place) }
    {
        match self.slots.get_index(place) {
            Some((_, slot)) => slot.is_slot,
            None => false,
        }
    }

    /// The place, from 0, of the property of a key; `None` exactly where there is none.
    pub fn place_of(&self, key: &str) -> Option<usize>
        ensures { result ≡ place_of key.now self.now }
    {
        self.slots.get_index_of(key)
    }

    /// The property of a key, as a new object has it; `None` exactly where there is none.
    pub fn get(&self, key: &str) -> Option<&Slot>
        ensures { option_map (slot_field key.now) (option_copied result) ≡ field_named key.now self.now }
    {
        self.slots.get(key)
    }

    /// Whether bindings watch the property of a key.
    pub fn is_bindable(&self, key: &str) -> bool
        ensures { result ≡ is_watched (field_named key.now self.now) }
    {
        match self.slots.get(key) {
            Some(slot) => slot.bindable,
            None => false,
        }
    }

    /// The values of the properties in a new object.
    pub fn first_values(&self, alloc: Global) -> Result<Vec<Value>, NoMemory>
        ensures { IfOk result (λ values. values.items ≡ map (λ f. f.value) self.now) }
    {
        let mut values = Vec::new(alloc);
        for place in 0..self.slots.len() {
            if let Some((_, slot)) = self.slots.get_index(place) {
                values.push(slot.start.clone()?)?;
            }
        }
        Ok(values)
    }
}

// Whether no object keeps the property of this name, since it is where the object stands or how
// many children it has.
fn is_computed(name: &str) -> bool
    ensures { result ≡ is_computed name.now }
{
    name == "parent" || name == "numElements"
}

// A property of a class of the catalog.
fn native_slot(alloc: Global, name: &str, row: PropertyRow) -> Result<Slot, NoMemory>
    ensures { IfOk result (λ slot. slot_field name.now slot ≡ native_field (record { name = name.now; row = row })) }
{
    Ok(Slot {
        text: Text::make(alloc, name)?,
        kind: static_type(row.kind),
        start: start_value(alloc, row.start)?,
        public: row.public,
        bindable: row.bindable,
        read_only: row.read_only,
        is_slot: false,
    })
}

// A type of the catalog.
fn static_type(kind: ValueType) -> StaticType
    ensures { result ≡ static_type kind }
{
    match kind {
        ValueType::Int => StaticType::Int,
        ValueType::Boolean => StaticType::Boolean,
        ValueType::String => StaticType::String,
        ValueType::Object(class) => StaticType::Object(Class::Native(class)),
        ValueType::Any => StaticType::Any,
    }
}

// A starting value of the catalog.
fn start_value(alloc: Global, start: StartValue) -> Result<Value, NoMemory>
    ensures { IfOk result (λ value. value ≡ start_value start) }
{
    match start {
        StartValue::Null => Ok(Value::Null),
        StartValue::Bool(b) => Ok(Value::Bool(b)),
        StartValue::Int(n) => Ok(Value::Int(n)),
        StartValue::EmptyText => Ok(Value::Text(Text::make(alloc, "")?)),
    }
}

// What is kept for an object.

ghost use Rattle.std.specs.Option.{option_copied};
ghost use Rattle.std.specs.Prelude.{◌≡◌, IfOk, None, option_and_then, option_map};
ghost use Rattle.flex_world.specs.Objects.{is_array, object_class, object_in_slot};
ghost use Rattle.flex_objects.specs.Entities.{added_to, after_write_in, computed, kept, kind_of, new_array, new_entity, new_instance, value_of, stored_in};

use crate::children::Children;
use crate::delivery::Delivery;
use crate::document::{EnabledBinding, RegisteredState};
use crate::elements::Elements;
use crate::keeping::Keeping;
use crate::parent::Parent;
use crate::properties::{Properties, Stored};
use crate::slots::SlotTable;
use component_catalog::{NativeClass, property_of};
use event_flow::Listeners;
use flex_base::{NoMemory, ObjId, Sequence, Value};
use flex_world::Class;
use std::alloc::Global;
use std::marker::Model;
use std::rc::Rc;

/// A class, as its objects are made.
#[derive(Drop)]
pub struct ClassInfo {
    /// The class.
    pub class: Class,
    /// The nearest class of the catalog among the class and its bases.
    pub native: Option<NativeClass>,
    /// The properties that code sees.
    pub fields: Rc<SlotTable>,
    /// Those in the namespace of the runtime, which cost no cells.
    pub hidden: Rc<SlotTable>,
}

impl Model for ClassInfo {
    ghost use Rattle.flex_objects.specs.Entities.{Shape};

    ghost Value = { Shape };

    ghost view = { λ c. record {
      class = c.class;
      native = c.native;
      fields = c.fields.value;
      hidden = c.hidden.value;
    } };
}

/// Where an object was last added as a declared child.
#[derive(Clone, Copy, Debug, PartialEq, Eq)]
pub struct Spot {
    /// To this container,
    pub container: ObjId,
    /// by this document,
    pub document: ObjId,
    /// as the declaration of this number.
    pub number: u32,
}

impl Model for Spot {
    ghost use Rattle.flex_world.specs.Objects.{Spot as Place};

    ghost Value = { Place };

    ghost view = { λ s. record { container = s.container; document = s.document; number = s.number } };

    ghost inverse = { λ s. record { container = s.container; document = s.document; number = s.number } };
}

/// What is kept for an object, an event or an array.
#[derive(Drop)]
pub struct Entity {
    class: Option<Class>,
    native: Option<NativeClass>,
    /// The properties that code sees.
    pub fields: Properties,
    /// Those in the namespace of the runtime.
    pub hidden: Properties,
    /// Of an array.
    pub elements: Elements,
    /// Of a component: the container where it stands.
    pub parent: Parent,
    /// Of a container.
    pub children: Children,
    /// Of what dispatches events.
    pub listeners: Listeners,
    /// Whether it was added to a parent at some time.
    pub was_added: bool,
    /// Where it was last added as a declared child.
    pub spot: Option<Spot>,
    /// Of an event.
    pub delivery: Delivery,
    /// Of a document.
    pub keeping: Keeping,
    /// Of a document: it has begun to enter its first state.
    pub begun: bool,
    /// Its states, in order of registration.
    pub states: Sequence<RegisteredState>,
    /// Its bindings, in the order in which they were enabled.
    pub bindings: Sequence<EnabledBinding>,
}

impl Model for Entity {
    ghost use Rattle.flex_objects.specs.Entities.{Entity as Kept, kind_of};

    ghost Value = { Kept };

    ghost view = { λ e. record {
      object = record {
        kind = kind_of e.class;
        fields = e.fields;
        elements = e.elements;
        parent = e.parent;
        children = e.children;
        listeners = e.listeners;
        was_added = e.was_added;
        spot = e.spot;
        delivery = e.delivery;
        keeping = e.keeping;
      };
      inside = record {
        native = e.native;
        hidden = e.hidden;
        begun = e.begun;
        states = e.states;
        bindings = e.bindings;
      };
    } };
}

impl Entity {
    /// An array without elements. It takes no memory.
    pub fn array(alloc: Global) -> Entity
        ensures { result ≡ new_array }
    {
        Entity::with(
            alloc,
            None,
            None,
            Properties::none(alloc),
            Properties::none(alloc),
        )
    }

    /// An object of a class, each property with its first value.
    pub fn instance(alloc: Global, class: &ClassInfo) -> Result<Entity, NoMemory>
        ensures { IfOk result (λ entity. entity ≡ new_instance class.now) }
    {
        Ok(Entity::with(
            alloc,
            Some(class.class),
            class.native,
            Properties::of(alloc, &class.fields)?,
            Properties::of(alloc, &class.hidden)?,
        ))
    }

    fn with(
        alloc: Global,
        class: Option<Class>,
        native: Option<NativeClass>,
        fields: Properties,
        hidden: Properties,
    ) -> Entity
        ensures { result ≡ new_entity (kind_of class) native fields hidden }
    {
        Entity {
            class,
            native,
            fields,
            hidden,
            elements: Elements::new(alloc),
            parent: Parent::none(),
            children: Children::new(alloc),
            listeners: Listeners::new(alloc),
            was_added: false,
            spot: None,
            delivery: Delivery::none(),
            keeping: Keeping::new(alloc),
            begun: false,
            states: Sequence::new(alloc),
            bindings: Sequence::new(alloc),
        }
    }

    /// The class; an array has none.
    pub fn class(&self) -> Option<Class>
        ensures { result ≡ object_class self.now.object }
    {
        self.class
    }

    /// Whether it is an array.
    pub fn is_array(&self) -> bool
        ensures { result ≡ is_array self.now.object }
    {
        self.class.is_none()
    }

    /// The nearest class of the catalog among the class and its bases; an array has none.
    pub fn native(&self) -> Option<NativeClass>
        ensures { result ≡ self.now.inside.native }
    {
        self.native
    }

    /// The value of the property of a key, hidden or not. `None` exactly where there is none.
    pub fn value(&self, key: &str) -> Option<&Value>
        ensures { option_copied result ≡ value_of key.now self.now }
    {
        if let Some(value) = self.fields.get(key) {
            return Some(value);
        }
        if let Some(value) = self.hidden.get(key) {
            return Some(value);
        }
        self.computed_value(key)
    }

    /// The object is added to a container, as a declared child where it has a spot there; without
    /// one it keeps the spot that it has.
    pub fn join(&mut self, container: ObjId, spot: Option<Spot>)
        ensures { self.new ≡ added_to container spot self.old }
    {
        self.parent = Parent::of(container);
        self.was_added = true;
        if let Some(spot) = spot {
            self.spot = Some(spot);
        }
    }

    // The value of a property that isn't kept, but is where an object stands or how many children
    // it has.
    fn computed_value(&self, key: &str) -> Option<&Value>
        ensures { option_copied result ≡ computed key.now self.now }
    {
        let native = self.native?;
        property_of(native, key)?;
        match key {
            "parent" => Some(self.parent.value()),
            "numElements" => Some(self.children.count()),
            _ => None,
        }
    }

    /// The object in the variable or id of a key, hidden or not, if it holds one.
    pub fn object(&self, key: &str) -> Option<ObjId>
        ensures { result ≡ option_and_then object_in_slot (kept key.now self.now) }
    {
        if self.fields.get(key).is_some() {
            self.fields.object(key)
        } else {
            self.hidden.object(key)
        }
    }

    /// Writes the property of a key, hidden or not. `None` exactly where none is kept, and then
    /// nothing changes.
    pub fn write(&mut self, key: &str, value: Value) -> Option<Stored>
        ensures answer { result ≡ stored_in key.now value self.old }
        ensures after { self.new ≡ after_write_in key.now value self.old }
    {
        if self.fields.get(key).is_some() {
            self.fields.write(key, value)
        } else {
            self.hidden.write(key, value)
        }
    }
}

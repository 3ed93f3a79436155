// The objects of a play: their properties, their children, and the cells that they cost.

ghost use Rattle.std.specs.Prelude.{◌≡◌, ◌<◌, ◌+◌, min, Some, IsSome, IfSome, IfOk, OnOk, option_copied, length};
ghost use Rattle.std.specs.List.{list_any};
ghost use Rattle.flex_base.specs.Value.{is_object};
ghost use Rattle.avm2_machine.specs.Stage.{MakesObject, Places, with_property, with_listener, with_last, with_parent, next_place, children_of, empty_stage, object_at, parent, outer, listeners, property, place_of, slot_named, is_of, held, walked, native_slots, same_native, same_class, text_slot, too_many_cells, cost};

use crate::catalog::NativeClass;
use flex_base::{NoMemory, ObjId, RunRefusal, Sequence, Stop, Text, Value};
use std::alloc::Global;

/// The greatest number of cells that all objects of a play may cost.
pub const MOST_CELLS: usize = 1_000_000;

/// What every object costs.
pub const OBJECT_CELLS: usize = 16;

/// A class: one of the file, by its number there, or a native one.
#[derive(Clone, Copy, Debug, PartialEq, Eq)]
pub enum Class {
    File(u32),
    Native(NativeClass),
    /// The native class of the events of clicks, of which no code makes an object.
    MouseEvent,
}

/// The type of a property.
#[derive(Clone, Copy, Debug, PartialEq, Eq)]
pub enum PropertyType {
    Text,
    Instance(Class),
}

/// A public property of an object.
#[derive(Drop)]
pub struct Slot {
    pub name: Text,
    pub kind: PropertyType,
    pub value: Value,
}

/// A listener that an object has: a method of an object, for the events of a type.
#[derive(Drop)]
pub struct Registration {
    pub event: Text,
    pub object: ObjId,
    pub method: u32,
}

/// An object.
#[derive(Drop)]
pub struct Object {
    pub class: Class,
    pub slots: Sequence<Slot>,
    pub children: Sequence<ObjId>,
    pub parent: Option<ObjId>,
    /// In order of registration.
    pub listeners: Sequence<Registration>,
}

/// All objects of a play, in the order of their numbers, from 1.
#[derive(Drop)]
pub struct Stage {
    pub objects: Sequence<Object>,
    /// What the objects cost together.
    pub cells: usize,
}

impl NativeClass {
    fn is(self, other: NativeClass) -> bool
        ensures { result ≡ same_native self other }
    {
        match (self, other) {
            (NativeClass::Application, NativeClass::Application)
            | (NativeClass::Label, NativeClass::Label)
            | (NativeClass::Button, NativeClass::Button) => true,
            _ => false,
        }
    }
}

impl Class {
    fn is(self, other: Class) -> bool
        ensures { result ≡ same_class self other }
    {
        match (self, other) {
            (Class::File(a), Class::File(b)) => a == b,
            (Class::Native(a), Class::Native(b)) => a.is(b),
            (Class::MouseEvent, Class::MouseEvent) => true,
            _ => false,
        }
    }
}

impl Stage {
    /// A stage without objects. It takes no memory.
    pub fn new(alloc: Global) -> Stage
        ensures { result ≡ empty_stage }
    {
        Stage {
            objects: Sequence::new(alloc),
            cells: 0,
        }
    }

    /// Makes an object with these properties, of which so many are declared in its class.
    pub fn make(
        &mut self,
        alloc: Global,
        class: Class,
        slots: Sequence<Slot>,
        declared: usize,
    ) -> Result<ObjId, RunRefusal>
        requires { length self.old.objects < 4294967295 }
        ensures { MakesObject self.old class slots declared result self.new }
    {
        let cells = self.cells_with(declared);
        if cells > MOST_CELLS {
            return Err(RunRefusal::Stop(Stop::Cells));
        }
        let object = Object {
            class,
            slots,
            children: Sequence::new(alloc),
            parent: None,
            listeners: Sequence::new(alloc),
        };
        if self.objects.push(object).is_err() {
            return Err(RunRefusal::NoMemory);
        }
        self.cells = cells;
        Ok(ObjId(self.objects.len() as u32))
    }

    /// The object of this number.
    pub fn object(&self, object: ObjId) -> Option<&Object>
        ensures { option_copied result ≡ object_at self.now object }
    {
        if object.0 == 0 {
            return None;
        }
        self.objects.get(object.0 as usize - 1)
    }

    /// The property of this name: `None` exactly where the object has no such property.
    pub fn property(&self, object: ObjId, name: &str) -> Option<&Slot>
        ensures { option_copied result ≡ property self.now object name.now }
    {
        slot_named(self.object(object)?.slots.as_slice(), name)
    }

    /// The object at the end of a path of names from this one: each name is of a property that holds
    /// an object.
    pub fn walk(&self, from: ObjId, path: &[Text]) -> Option<ObjId>
        ensures { result ≡ walked self.now (Some from) path.now }
    {
        let mut object = from;
        for name in path {
            object = held(self.property(object, name.as_str()))?;
        }
        Some(object)
    }

    /// Whether a value is of a type.
    pub fn is_of(&self, value: &Value, kind: PropertyType) -> bool
        ensures { result ≡ is_of self.now value.now kind }
    {
        match (value, kind) {
            (Value::Text(_), PropertyType::Text) => true,
            (Value::Ref(object), PropertyType::Instance(class)) => match self.object(*object) {
                Some(object) => object.class.is(class),
                None => false,
            },
            _ => false,
        }
    }

    /// Writes a property that the object has.
    #[tactic(auto, using(crate::proofs::Stages::changes))]
    pub fn write(&mut self, object: ObjId, name: &str, value: Value)
        requires { IsSome (property self.old object name.now) }
        ensures { self.new ≡ with_property object name.now value self.old }
    {
        if object.0 == 0 {
            return;
        }
        let Some(object) = self.objects.get_mut(object.0 as usize - 1) else {
            return;
        };
        let Some(place) = place_of(object.slots.as_slice(), name) else {
            return;
        };
        if let Some(slot) = object.slots.get_mut(place) {
            slot.value = value;
        }
    }

    /// The listeners that an object has, in order of registration.
    pub fn listeners(&self, object: ObjId) -> &[Registration]
        ensures { result.now ≡ listeners self.now object }
    {
        match self.object(object) {
            None => &[],
            Some(object) => object.listeners.as_slice(),
        }
    }

    /// Adds a listener behind those that an object has.
    #[tactic(auto, using(crate::proofs::Stages::changes))]
    pub fn listen(&mut self, object: ObjId, listener: Registration) -> Result<(), NoMemory>
        ensures { OnOk result (self.new ≡ with_listener object listener self.old) }
    {
        if object.0 == 0 {
            return Ok(());
        }
        if let Some(object) = self.objects.get_mut(object.0 as usize - 1) {
            object.listeners.push(listener)?;
        }
        Ok(())
    }

    /// An object's ancestors, the nearest first.
    pub fn outer(&self, alloc: Global, object: ObjId) -> Result<Sequence<ObjId>, NoMemory>
        ensures { IfOk result (λ ancestors. ancestors ≡ outer self.now object) }
    {
        let mut ancestors = Sequence::new(alloc);
        let mut next = self.parent(object);
        for _ in 0..self.objects.len() {
            let Some(parent) = next else {
                break;
            };
            ancestors.push(parent)?;
            next = self.parent(parent);
        }
        Ok(ancestors)
    }

    /// Whether an object has this one as an ancestor.
    pub fn is_inside(&self, object: ObjId, ancestor: ObjId) -> bool
        ensures { result ≡ list_any (is_object ancestor) (outer self.now object) }
    {
        let mut next = self.parent(object);
        for _ in 0..self.objects.len() {
            let Some(parent) = next else {
                return false;
            };
            if ancestor.0 == parent.0 {
                return true;
            }
            next = self.parent(parent);
        }
        false
    }

    // An object's parent.
    fn parent(&self, object: ObjId) -> Option<ObjId>
        ensures { result ≡ parent self.now object }
    {
        self.object(object)?.parent
    }

    /// Adds a child behind the others, and gives its place among them: `None` where there is no
    /// such container, or no number for the place.
    pub fn place(&mut self, container: ObjId, child: ObjId) -> Result<Option<u32>, NoMemory>
        ensures { Places self.old container child result self.new }
    {
        let Some(place) = self.next_place(container) else {
            return Ok(None);
        };
        self.put_last(container, child)?;
        self.set_parent(container, child);
        Ok(Some(place))
    }

    // Puts a child behind the others of a container.
    #[tactic(auto, using(crate::proofs::Stages::changes))]
    fn put_last(&mut self, container: ObjId, child: ObjId) -> Result<(), NoMemory>
        ensures { OnOk result (self.new ≡ with_last container child self.old) }
    {
        if container.0 == 0 {
            return Ok(());
        }
        if let Some(container) = self.objects.get_mut(container.0 as usize - 1) {
            container.children.push(child)?;
        }
        Ok(())
    }

    // Makes a container the parent of a child.
    #[tactic(auto, using(crate::proofs::Stages::changes))]
    fn set_parent(&mut self, container: ObjId, child: ObjId)
        ensures { self.new ≡ with_parent container child self.old }
    {
        if child.0 == 0 {
            return;
        }
        if let Some(child) = self.objects.get_mut(child.0 as usize - 1) {
            child.parent = Some(container);
        }
    }

    /// Whether the cells don't hold out for an object of whose class so many properties are
    /// declared.
    pub fn is_full(&self, declared: usize) -> bool
        ensures { result ≡ too_many_cells declared self.now }
    {
        self.cells_with(declared) > MOST_CELLS
    }

    // The cells with one object more, as far as they can be counted.
    fn cells_with(&self, declared: usize) -> usize
        ensures { result ≡ min (self.now.cells + cost declared) 18446744073709551615 }
    {
        declared
            .saturating_add(OBJECT_CELLS)
            .saturating_add(self.cells)
    }

    // The place of the next child of a container.
    fn next_place(&self, container: ObjId) -> Option<u32>
        ensures { result ≡ next_place (children_of (object_at self.now container)) }
    {
        u32::try_from(self.object(container)?.children.len()).ok()
    }
}

// The first property of this name.
fn slot_named<'a>(slots: &'a [Slot], name: &str) -> Option<&'a Slot>
    ensures { option_copied result ≡ slot_named name.now slots.now }
{
    match slots {
        [] => None,
        [slot, rest @ ..] => {
            if slot.name.as_str() == name {
                Some(slot)
            } else {
                slot_named(rest, name)
            }
        }
    }
}

// The place of the first property of this name.
fn place_of(slots: &[Slot], name: &str) -> Option<usize>
    ensures place { result ≡ place_of name.now slots.now }
    ensures within { IfSome result (λ n. n < length slots.now) }
{
    match slots {
        [] => None,
        [slot, rest @ ..] => {
            if slot.name.as_str() == name {
                Some(0)
            } else {
                Some(place_of(rest, name)? + 1)
            }
        }
    }
}

/// The properties of a new object of a native class.
pub fn native_slots(alloc: Global, class: NativeClass) -> Result<Sequence<Slot>, NoMemory>
    ensures { IfOk result (λ slots. slots ≡ native_slots class) }
{
    let mut slots = Sequence::new(alloc);
    match class {
        NativeClass::Application => {}
        NativeClass::Label => slots.push(text_slot(alloc, "text")?)?,
        NativeClass::Button => slots.push(text_slot(alloc, "label")?)?,
    }
    Ok(slots)
}

// A property that holds a text, which is empty at first.
fn text_slot(alloc: Global, name: &str) -> Result<Slot, NoMemory>
    ensures { IfOk result (λ slot. slot ≡ text_slot name.now) }
{
    Ok(Slot {
        name: Text::make(alloc, name)?,
        kind: PropertyType::Text,
        value: Value::Text(Text::make(alloc, "")?),
    })
}

// What a property holds, if it is an object.
fn held(slot: Option<&Slot>) -> Option<ObjId>
    ensures { result ≡ held (option_copied slot.entry) }
{
    match slot?.value {
        Value::Ref(object) => Some(object),
        _ => None,
    }
}

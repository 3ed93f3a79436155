// The listeners of a node.

ghost use Rattle.std.specs.Prelude.{◌≡◌, [], IfOk, OnOk, OnErr, true};
ghost use Rattle.flex_world.specs.Events.{is_heard};
ghost use Rattle.event_flow.specs.Hearing.{addition, heard_at, removal, with_listener, without_listener};
ghost use Rattle.event_flow.specs.Registered.{are_numbered};

use crate::kinds::Kinds;
use crate::registrations::{Key, Registrations};
use flex_base::{ListenerList, NoMemory, ObjId, Text};
use std::alloc::Global;
use std::marker::Model;

/// Whether a registration was added.
#[derive(Clone, Copy, Debug, PartialEq, Eq)]
pub enum Addition {
    /// It stands behind all that were there.
    New,
    /// It was registered already, and stays as it was.
    Kept,
}

/// Whether a registration was removed.
#[derive(Clone, Copy, Debug, PartialEq, Eq)]
pub enum Removal {
    /// It isn't registered any more.
    Gone,
    /// It wasn't registered.
    Absent,
}

/// The listeners of a node, in order of registration. ActionScript 3, event flow.
///
/// A listener is registered, found and removed without a look at the others; those that hear an
/// event are put in order by their priority. A type of events for which there was a listener is
/// remembered, also once that is removed.
#[derive(Drop)]
pub struct Listeners {
    kinds: Kinds,
    registrations: Registrations,
    ghost numbered: { are_numbered kinds registrations ≡ true },
}

impl Model for Listeners {
    ghost use Rattle.std.specs.Prelude.{List};
    ghost use Rattle.flex_world.specs.Objects.{Registration as Registered};
    ghost use Rattle.event_flow.specs.Registered.{all_registered};

    ghost Value = { List Registered };

    ghost view = { λ l. all_registered l.kinds l.registrations };
}

impl Listeners {
    /// No listener. It takes no memory.
    pub fn new(alloc: Global) -> Listeners
        ensures { result ≡ [] }
    {
        Listeners {
            kinds: Kinds::new(alloc),
            registrations: Registrations::new(alloc),
        }
    }

    /// Registers a listener, an object and the number of its method, for events of the type
    /// `kind`: for the first phase where `capture` is true, and else for the second and the third.
    /// A second registration of the same type, listener and `capture` changes nothing, its priority
    /// included.
    pub fn add(
        &mut self,
        kind: &Text,
        listener: (ObjId, u32),
        capture: bool,
        priority: i32,
    ) -> Result<Addition, NoMemory>
        ensures after { OnOk result
            (self.new ≡ with_listener kind.now listener capture priority self.old) }
        ensures answer { IfOk result (λ a. a ≡ addition kind.now listener capture self.old) }
        ensures err { OnErr result (self.new ≡ self.old) }
    {
        let number = self.kinds.number(kind)?;
        let key = Key::of(number, listener, capture);
        if self.registrations.contains(key) {
            return Ok(Addition::Kept);
        }
        self.registrations.push(key, priority)?;
        Ok(Addition::New)
    }

    /// Removes the registration of this type, listener and `capture`: `Absent` exactly where there
    /// is none. It takes no memory.
    pub fn remove(&mut self, kind: &Text, listener: (ObjId, u32), capture: bool) -> Removal
        ensures after { self.new ≡ without_listener kind.now listener capture self.old }
        ensures answer { result ≡ removal kind.now listener capture self.old }
    {
        let Some(number) = self.kinds.number_of(kind) else {
            return Removal::Absent;
        };
        if self
            .registrations
            .remove(Key::of(number, listener, capture))
        {
            Removal::Gone
        } else {
            Removal::Absent
        }
    }

    /// The listeners that hear an event of the type `kind` in the phase 1, 2 or 3, from high
    /// priority to low, equal ones in order of registration; in a phase of another number there are
    /// none.
    pub fn at_node(&self, alloc: Global, kind: &Text, phase: u8) -> Result<ListenerList, NoMemory>
        ensures { IfOk result (λ list. list ≡ heard_at kind.now phase self.now) }
    {
        match self.kinds.number_of(kind) {
            Some(number) => self
                .registrations
                .hearers(alloc, number, phase)?
                .list(alloc),
            None => Ok(ListenerList::new(alloc)),
        }
    }

    /// Whether a listener is registered for events of the type `kind`, whatever its phase. It takes
    /// no memory.
    pub fn has(&self, kind: &Text) -> bool
        ensures { result ≡ is_heard kind.now self.now }
    {
        match self.kinds.number_of(kind) {
            Some(number) => self.registrations.has_kind(number),
            None => false,
        }
    }
}

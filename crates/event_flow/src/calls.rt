// The listeners of a node that are still to be called.

ghost use Rattle.std.specs.Prelude.{◌≡◌, [], drop, slice_get};

use flex_base::{ListenerList, ObjId};
use std::marker::Model;

// The calls to come.
#[derive(Drop)]
pub struct Calls {
    listeners: Option<ListenerList>,
    // How many were made.
    made: usize,
}

impl Model for Calls {
    ghost use Rattle.std.specs.Prelude.{List, ℕ};
    ghost use Rattle.flex_base.specs.declared.value.ObjId.{ObjId as Object};
    ghost use Rattle.event_flow.specs.Kept.{items_from};

    ghost Value = { List (Object × ℕ) };

    ghost view = { λ c. items_from c.made c.listeners };
}

impl Calls {
    // No calls. They take no memory.
    pub fn none() -> Calls
        ensures { result ≡ [] }
    {
        Calls {
            listeners: None,
            made: 0,
        }
    }

    // Those of all these listeners.
    pub fn of(listeners: ListenerList) -> Calls
        ensures { result ≡ listeners }
    {
        Calls {
            listeners: Some(listeners),
            made: 0,
        }
    }

    // Takes the next call away.
    pub fn next(&mut self) -> Option<(ObjId, u32)>
        ensures value { result ≡ slice_get self.old 0 }
        ensures after { self.new ≡ drop 1 self.old }
    {
        let listeners = self.listeners.as_ref()?;
        if listeners.len() <= self.made {
            return None;
        }
        let listener = *listeners.get(self.made)?;
        self.made += 1;
        Some(listener)
    }
}

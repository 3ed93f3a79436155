// The listeners of a node that hear an event, by their priority.

ghost use Rattle.std.specs.Prelude.{◌≡◌, [], IfOk, OnOk, length, map, nat_lt, true};
ghost use Rattle.std.specs.List.{list_all};
ghost use Rattle.event_flow.specs.Hearers.{listeners, with_hearer};

use flex_base::{ListenerList, NoMemory, ObjId};
use std::alloc::Global;
use std::cmp::Reverse;
use std::collections::BTreeMap;
use std::marker::Model;

// From high priority to low, equal ones in the order in which they came: each has the number of
// those that were there before.
#[derive(Drop)]
pub struct Hearers {
    by_rank: BTreeMap<(Reverse<i32>, usize), (ObjId, u32)>,
    ghost counted: { list_all (λ e. nat_lt e.0.1 (length by_rank.entries)) by_rank.entries ≡ true },
}

impl Model for Hearers {
    ghost use Rattle.std.specs.Prelude.{List, map, ℕ, ℤ};
    ghost use Rattle.flex_base.specs.declared.value.ObjId.{ObjId as Object};

    ghost Value = { List (ℤ × (Object × ℕ)) };

    ghost view = { λ h. map (λ e. (e.0.0.0, e.1)) h.by_rank.entries };
}

impl Hearers {
    // None. They take no memory.
    pub fn new(alloc: Global) -> Hearers
        ensures { result ≡ [] }
    {
        Hearers {
            by_rank: BTreeMap::new(alloc),
        }
    }

    // Adds a listener behind those of a priority as high or higher.
    pub fn add(&mut self, listener: (ObjId, u32), priority: i32) -> Result<(), NoMemory>
        ensures { OnOk result (self.new ≡ with_hearer priority listener self.old) }
    {
        let number = self.by_rank.len();
        self.by_rank.insert((Reverse(priority), number), listener)?;
        Ok(())
    }

    // The listeners in order.
    pub fn list(&self, alloc: Global) -> Result<ListenerList, NoMemory>
        ensures { IfOk result (λ list. list ≡ listeners self.now) }
    {
        let mut list = ListenerList::new(alloc);
        for listener in self.by_rank.values() {
            list.push(*listener)?;
        }
        Ok(list)
    }
}

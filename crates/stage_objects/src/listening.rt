// The listeners of nodes.

ghost use Rattle.std.specs.Prelude.{◌≡◌, IfOk, OnOk};
ghost use Rattle.event_flow.specs.Hearing.{addition, removal, with_listener, without_listener};
ghost use Rattle.stage_objects.specs.Entities.{change_in, entity_in, listeners_of};
ghost use Rattle.stage_objects.specs.Events.{with_listeners};

use crate::objects::Objects;
use event_flow::{Addition, Removal};
use flex_base::{NoMemory, ObjId, Text};
use flex_objects::Entity;

impl Objects {
    /// Registers a listener, an object and the number of its method, at a node for events of a
    /// type. A second registration of the same type, listener and `capture` is `Kept`, and changes
    /// nothing.
    #[tactic(auto, using(crate::proofs::Entries::entry_changed, crate::proofs::Entries::no_entry_changed))]
    pub fn listen(
        &mut self,
        node: ObjId,
        kind: &Text,
        listener: (ObjId, u32),
        capture: bool,
        priority: i32,
    ) -> Result<Addition, NoMemory>
        ensures answer { IfOk result (λ a. a ≡ addition kind.now listener capture (listeners_of (entity_in node self.old))) }
        ensures after { OnOk result (self.new ≡
            change_in node (with_listeners (with_listener kind.now listener capture priority)) self.old) }
    {
        match self.get_mut(node) {
            Some(entity) => entity.listeners.add(kind, listener, capture, priority),
            None => Ok(Addition::New),
        }
    }

    /// Removes a listener of a node: `Absent` exactly where there is none of this type, listener
    /// and `capture`, and then nothing changes.
    #[tactic(auto, using(crate::proofs::Entries::entry_changed, crate::proofs::Entries::no_entry_changed))]
    pub fn unlisten(
        &mut self,
        node: ObjId,
        kind: &Text,
        listener: (ObjId, u32),
        capture: bool,
    ) -> Removal
        ensures answer { result ≡ removal kind.now listener capture (listeners_of (entity_in node self.old)) }
        ensures after { self.new ≡
            change_in node (with_listeners (without_listener kind.now listener capture)) self.old }
    {
        match self.get_mut(node) {
            Some(entity) => entity.listeners.remove(kind, listener, capture),
            None => Removal::Absent,
        }
    }
}

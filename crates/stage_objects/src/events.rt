// Events, and how far their dispatches have come.

ghost use Rattle.std.specs.Prelude.{◌≡◌, not};
ghost use Rattle.flex_base.specs.declared.value.Value.TheVariants as value;
ghost use Rattle.flex_world.specs.Events.{delivery_stopped_at_once, prevented_delivery, stopped_delivery, while_open};
ghost use Rattle.stage_objects.specs.Entities.{change_in};
ghost use Rattle.stage_objects.specs.Events.{arrived, closed, delivery_in, dispatched_in, initialised, is_cancelable, opened, started_in, with_delivery};

use crate::objects::Objects;
use flex_base::{ObjId, Text, Value};
use flex_objects::{Delivery, Entity};

// Whether an event can be cancelled.
fn is_cancelable(event: &Entity) -> bool
    ensures { result ≡ is_cancelable event.now.object }
{
    matches!(event.fields.get("cancelable"), Some(Value::Bool(true)))
}

impl Objects {
    /// How far the dispatch of an event has come; `None` exactly where the number is of nothing.
    pub fn delivery(&self, event: ObjId) -> Option<Delivery>
        ensures { result ≡ delivery_in event self.now }
    {
        Some(self.get(event)?.delivery)
    }

    /// Sets an event's type, and whether it bubbles and can be cancelled.
    #[tactic(auto, using(crate::proofs::Entries::entry_changed, crate::proofs::Entries::no_entry_changed))]
    pub fn init_event(&mut self, event: ObjId, kind: Text, bubbles: bool, cancelable: bool)
        ensures { self.new ≡ change_in event (initialised kind bubbles cancelable) self.old }
    {
        if let Some(entity) = self.get_mut(event) {
            entity.fields.set("type", Value::Text(kind));
            entity.fields.set("bubbles", Value::Bool(bubbles));
            entity.fields.set("cancelable", Value::Bool(cancelable));
        }
    }

    // The dispatch of an event at a target begins.
    #[tactic(auto, using(crate::proofs::Entries::entry_changed, crate::proofs::Entries::no_entry_changed))]
    fn open_event(&mut self, event: ObjId, target: ObjId)
        ensures { self.new ≡ change_in event (opened target) self.old }
    {
        if let Some(entity) = self.get_mut(event) {
            let cancelable = is_cancelable(entity);
            entity.delivery.open(cancelable);
            entity.fields.set("target", Value::Ref(target));
        }
    }

    /// An event has come to a node, in the phase 1 (capture), 2 (target) or 3 (bubbling).
    #[tactic(auto, using(crate::proofs::Entries::entry_changed, crate::proofs::Entries::no_entry_changed))]
    pub fn move_event(&mut self, event: ObjId, node: ObjId, phase: u8)
        ensures { self.new ≡ change_in event (arrived (value.Ref node) phase) self.old }
    {
        if let Some(entity) = self.get_mut(event) {
            entity.fields.set("currentTarget", Value::Ref(node));
            entity.fields.set("eventPhase", Value::Int(phase as i32));
        }
    }

    /// The dispatch of an event is over: it is at no node and in phase 0.
    #[tactic(auto, using(crate::proofs::Entries::entry_changed, crate::proofs::Entries::no_entry_changed))]
    pub fn close_event(&mut self, event: ObjId)
        ensures { self.new ≡ change_in event closed self.old }
    {
        if let Some(entity) = self.get_mut(event) {
            entity.delivery.close();
            entity.fields.set("currentTarget", Value::Null);
            entity.fields.set("eventPhase", Value::Int(0));
        }
    }

    /// An event is stopped, while its dispatch is open.
    #[tactic(auto, using(crate::proofs::Entries::entry_changed, crate::proofs::Entries::no_entry_changed))]
    pub fn stop_event(&mut self, event: ObjId)
        ensures { self.new ≡ change_in event (with_delivery (while_open stopped_delivery)) self.old }
    {
        if let Some(entity) = self.get_mut(event) {
            entity.delivery.stop();
        }
    }

    /// It is stopped at once, while its dispatch is open.
    #[tactic(auto, using(crate::proofs::Entries::entry_changed, crate::proofs::Entries::no_entry_changed))]
    pub fn stop_event_now(&mut self, event: ObjId)
        ensures { self.new ≡ change_in event (with_delivery (while_open delivery_stopped_at_once)) self.old }
    {
        if let Some(entity) = self.get_mut(event) {
            entity.delivery.stop_now();
        }
    }

    /// Its default is prevented, while its dispatch is open and where it can be cancelled.
    #[tactic(auto, using(crate::proofs::Entries::entry_changed, crate::proofs::Entries::no_entry_changed))]
    pub fn prevent_default(&mut self, event: ObjId)
        ensures { self.new ≡ change_in event (with_delivery (while_open prevented_delivery)) self.old }
    {
        if let Some(entity) = self.get_mut(event) {
            entity.delivery.prevent();
        }
    }

    /// The dispatch of an event at a target begins: it has this target, and counts as dispatched.
    /// False exactly where it was dispatched before, and then nothing changes.
    pub fn start_event(&mut self, event: ObjId, target: ObjId) -> bool
        ensures answer { result ≡ not (dispatched_in event self.old) }
        ensures after { self.new ≡ started_in event target self.old }
    {
        if let Some(delivery) = self.delivery(event) {
            if delivery.dispatched {
                return false;
            }
        }
        self.open_event(event, target);
        true
    }
}

// Events, and how far their dispatches have come.

ghost use Rattle.std.specs.Option.{option_map_or};
ghost use Rattle.std.specs.Prelude.{◌≡◌, None, false, not, option_map};
ghost use Rattle.flex_world.specs.Events.{delivery_stopped_at_once, prevented_delivery, prevented_now, stopped_delivery, while_open};
ghost use Rattle.ui_runtime.specs.Answers.{asked};
ghost use Rattle.ui_runtime.specs.Events.{at_node, delivery_at, ended, initialises, marked, started, was_dispatched, was_prevented};

use crate::stage::Stage;
use crate::state::State;
use flex_base::{ObjId, Text};
use flex_objects::Delivery;

impl Stage {
    /// Sets the type of an event, and whether it bubbles and can be cancelled.
    pub fn event_init(&mut self, event: ObjId, kind: Text, bubbles: bool, cancelable: bool)
        ensures { self.new ≡ option_map (initialises event kind bubbles cancelable) self.old }
    {
        if let Some(state) = &mut self.state {
            state.objects.init_event(event, kind, bubbles, cancelable);
        }
    }

    /// The dispatch of an event at a target begins: it has this target, and counts as dispatched.
    /// False exactly where it was dispatched before, and then nothing changes.
    pub fn event_start(&mut self, event: ObjId, target: ObjId) -> bool
        ensures answer { result ≡ not (asked false (was_dispatched event) self.old) }
        ensures after { self.new ≡ option_map (started event target) self.old }
    {
        match &mut self.state {
            Some(state) => state.objects.start_event(event, target),
            None => true,
        }
    }

    /// An event has come to a node, in the phase 1 (capture), 2 (target) or 3 (bubbling).
    pub fn event_at(&mut self, event: ObjId, node: ObjId, phase: u8)
        ensures { self.new ≡ option_map (at_node event node phase) self.old }
    {
        if let Some(state) = &mut self.state {
            state.objects.move_event(event, node, phase);
        }
    }

    /// The dispatch of an event is over: it is at no node and in phase 0, and keeps whether its
    /// default was prevented.
    pub fn event_end(&mut self, event: ObjId)
        ensures { self.new ≡ option_map (ended event) self.old }
    {
        if let Some(state) = &mut self.state {
            state.objects.close_event(event);
        }
    }

    /// `stopPropagation`: the event comes to no further node. It changes nothing before and after
    /// the dispatch, nor do the next two.
    pub fn stop(&mut self, event: ObjId)
        ensures { self.new ≡ option_map (marked (while_open stopped_delivery) event) self.old }
    {
        if let Some(state) = &mut self.state {
            state.objects.stop_event(event);
        }
    }

    /// `stopImmediatePropagation`: no further listener hears the event.
    pub fn stop_now(&mut self, event: ObjId)
        ensures { self.new ≡ option_map (marked (while_open delivery_stopped_at_once) event) self.old }
    {
        if let Some(state) = &mut self.state {
            state.objects.stop_event_now(event);
        }
    }

    /// `preventDefault`: the default is prevented, where the event can be cancelled.
    pub fn prevent(&mut self, event: ObjId)
        ensures { self.new ≡ option_map (marked (while_open prevented_delivery) event) self.old }
    {
        if let Some(state) = &mut self.state {
            state.objects.prevent_default(event);
        }
    }

    /// How far the dispatch of an event has come; `None` exactly where the number is of nothing.
    pub fn delivery(&self, event: ObjId) -> Option<Delivery>
        ensures { result ≡ asked None (delivery_at event) self.now }
    {
        self.state.as_ref()?.objects.delivery(event)
    }

    /// `isDefaultPrevented`: whether the default of an event was prevented by now. False before its
    /// dispatch; after it the answer stays.
    pub fn was_prevented(&self, event: ObjId) -> bool
        ensures { result ≡ asked false (was_prevented event) self.now }
    {
        match self.delivery(event) {
            Some(delivery) => delivery.was_prevented(),
            None => false,
        }
    }
}

// The dispatch of an event along its path, move by move.

ghost use Rattle.std.specs.Prelude.{◌≡◌, IsTrue};
ghost use Rattle.flex_world.specs.Events.{delivery_stopped_at_once, prevented_delivery, prevented_now, stopped_delivery, while_open};
ghost use Rattle.event_flow.specs.Dispatch.{begun, moved, next_move, with_delivery, with_listeners};

use crate::calls::Calls;
use crate::nodes::Nodes;
use flex_base::{ListenerList, ObjId, Path};
use std::marker::Model;

/// A move of a dispatch.
#[derive(Clone, Copy, Debug, PartialEq, Eq)]
pub enum FlowMove {
    /// The event arrives at a node, in the phase 1 (capture), 2 (target) or 3 (bubbling). The
    /// node's listeners are to be supplied now.
    Arrive(ObjId, u8),
    /// A listener is called: the method of this number, of an object.
    Call(ObjId, u32),
    /// The dispatch is over.
    Done,
}

/// What remains of the dispatch of an event. ActionScript 3, event flow.
///
/// Each `next` is a move. The listeners of a node are supplied once the event has arrived there,
/// and the dispatch is stopped or prevented between two moves. No call takes memory.
#[derive(Drop)]
pub struct Flow {
    nodes: Nodes,
    calls: Calls,
    is_arriving: bool,
    is_open: bool,
    cancelable: bool,
    stopped: bool,
    stopped_at_once: bool,
    prevented: bool,
}

impl Model for Flow {
    ghost use Rattle.std.specs.Prelude.{false, if◌then◌else◌, true};
    ghost use Rattle.event_flow.specs.Dispatch.{Dispatch};

    ghost Value = { Dispatch };

    ghost view = { λ f. record {
      listeners = f.calls;
      arrivals = f.nodes;
      is_arriving = f.is_arriving;
      delivery = record {
        dispatched = true;
        is_open = f.is_open;
        cancelable = f.cancelable;
        stopped = f.stopped;
        stopped_at_once = f.stopped_at_once;
        prevented = f.prevented;
        answer = if f.is_open then false else f.prevented;
      };
    } };
}

impl Flow {
    /// Begins the dispatch of an event along a path, of which the target is the first object. Over
    /// an empty path the first move is `Done`.
    pub fn start(path: Path, bubbles: bool, cancelable: bool) -> Flow
        ensures { result ≡ begun path bubbles cancelable }
    {
        Flow {
            nodes: Nodes::along(path, bubbles),
            calls: Calls::none(),
            is_arriving: false,
            is_open: true,
            cancelable,
            stopped: false,
            stopped_at_once: false,
            prevented: false,
        }
    }

    /// The next move. An arrival without listeners that are supplied goes on as with none.
    pub fn next(&mut self) -> FlowMove
        ensures answer { result ≡ next_move self.old }
        ensures after { self.new ≡ moved result self.old }
    {
        self.is_arriving = false;
        if self.stopped_at_once {
            self.is_open = false;
            return FlowMove::Done;
        }
        if let Some((object, method)) = self.calls.next() {
            return FlowMove::Call(object, method);
        }
        if self.stopped {
            self.is_open = false;
            return FlowMove::Done;
        }
        let Some(arrival) = self.nodes.next() else {
            self.is_open = false;
            return FlowMove::Done;
        };
        self.is_arriving = true;
        FlowMove::Arrive(arrival.node, arrival.phase.number())
    }

    /// Gives the listeners of the node where the event has just arrived. Of several lists the last
    /// one counts.
    pub fn supply(&mut self, list: ListenerList)
        requires { IsTrue self.old.is_arriving }
        ensures { self.new ≡ with_listeners list self.old }
    {
        self.calls = Calls::of(list);
    }

    /// `stopPropagation`: the event comes to no further node. It changes nothing once the dispatch
    /// is over, nor do the next two.
    pub fn stop(&mut self)
        ensures { self.new ≡ with_delivery (while_open stopped_delivery) self.old }
    {
        if self.is_open {
            self.stopped = true;
        }
    }

    /// `stopImmediatePropagation`: no further listener is called.
    pub fn stop_now(&mut self)
        ensures { self.new ≡ with_delivery (while_open delivery_stopped_at_once) self.old }
    {
        if self.is_open {
            self.stopped_at_once = true;
        }
    }

    /// `preventDefault`: the default is prevented, where the event can be cancelled.
    pub fn prevent(&mut self)
        ensures { self.new ≡ with_delivery (while_open prevented_delivery) self.old }
    {
        if self.is_open && self.cancelable {
            self.prevented = true;
        }
    }

    /// Whether the default was prevented.
    pub fn prevented(&self) -> bool
        ensures { result ≡ prevented_now self.now.delivery }
    {
        self.prevented
    }
}

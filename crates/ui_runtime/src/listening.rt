// The listeners of nodes.

ghost use Rattle.std.specs.Prelude.{◌≡◌, false, option_map};
ghost use Rattle.event_flow.specs.declared.listeners.Removal.TheVariants as removal_of;
ghost use Rattle.ui_runtime.specs.Answers.{Gives, Hands, Tells, asked};
ghost use Rattle.ui_runtime.specs.Events.{has_listener, hearers_of, listens, removed, unlistens};

use crate::stage::Stage;
use crate::state::State;
use event_flow::{Addition, Removal};
use flex_base::{ListenerList, NoMemory, ObjId, Text};
use flex_objects::Entity;
use std::alloc::Global;

impl State {
    /// Registers a listener at a node.
    pub fn listen(
        &mut self,
        node: ObjId,
        kind: &Text,
        listener: (ObjId, u32),
        capture: bool,
        priority: i32,
    ) -> Result<Addition, NoMemory>
        ensures { Hands (listens node kind.now listener capture priority self.old) result self.new }
    {
        self.objects.listen(node, kind, listener, capture, priority)
    }
}

impl Stage {
    /// Registers a listener, an object and the number of its method, at a node for events of a
    /// type: for the first phase where `capture` is true, and else for the second and the third. A
    /// second registration of the same type, listener and `capture` is `Kept`, and changes nothing,
    /// its priority included.
    pub fn listen(
        &mut self,
        node: ObjId,
        kind: &Text,
        listener: (ObjId, u32),
        capture: bool,
        priority: i32,
    ) -> Result<Addition, NoMemory>
        ensures { Gives self.old (listens node kind.now listener capture priority) result self.new }
    {
        let mut state = self.state.take().ok_or(NoMemory)?;
        let addition = state.listen(node, kind, listener, capture, priority);
        self.keep_given(state, addition)
    }

    /// Removes a listener of a node: `Absent` exactly where there is none of this type, listener
    /// and `capture`, and then nothing changes. It takes no memory.
    pub fn unlisten(
        &mut self,
        node: ObjId,
        kind: &Text,
        listener: (ObjId, u32),
        capture: bool,
    ) -> Removal
        ensures answer { result ≡ asked removal_of.Absent (removed node kind.now listener capture) self.old }
        ensures after { self.new ≡ option_map (unlistens node kind.now listener capture) self.old }
    {
        match &mut self.state {
            Some(state) => state.objects.unlisten(node, kind, listener, capture),
            None => Removal::Absent,
        }
    }

    /// The listeners of a node that hear an event of a type in the phase 1, 2 or 3, from high
    /// priority to low, equal ones in order of registration. After want of memory it refuses again.
    pub fn listeners_at(
        &self,
        alloc: Global,
        node: ObjId,
        kind: &Text,
        phase: u8,
    ) -> Result<ListenerList, NoMemory>
        ensures { Tells self.now (hearers_of node kind.now phase) result }
    {
        let state = self.state.as_ref().ok_or(NoMemory)?;
        match state.objects.get(node) {
            Some(entity) => entity.listeners.at_node(alloc, kind, phase),
            None => Ok(ListenerList::new(alloc)),
        }
    }

    /// Whether a node has a listener for events of a type, whatever its phase.
    pub fn has_listener(&self, node: ObjId, kind: &Text) -> bool
        ensures { result ≡ asked false (has_listener node kind.now) self.now }
    {
        match self.entity(node) {
            Some(entity) => entity.listeners.has(kind),
            None => false,
        }
    }
}

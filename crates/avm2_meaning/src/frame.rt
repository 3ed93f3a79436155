// Frames: what of the code and of the native work is still to be done.

use crate::event::Event;
use crate::listener::{Listener, Watcher};
use crate::stack::Stack;
use crate::work::Work;
use flex_base::{Arrival, ObjId, Text, UserEvent};

/// A body that runs.
#[derive(Drop)]
pub struct CodeFrame {
    /// The number of its next instruction.
    pub place: usize,
    pub work: Work,
    /// An initialiser is none.
    pub is_activity: bool,
    /// Its result goes onto the stack of the frame below.
    pub keeps: bool,
}

/// A dispatch of an event.
#[derive(Drop)]
pub struct Dispatch {
    pub event: ObjId,
    pub kind: Text,
    /// Where the event is.
    pub at: Arrival,
    /// The listeners there that are still to hear it, the next first.
    pub listeners: Stack<Listener>,
    /// Where it arrives after that, the next first.
    pub arrivals: Stack<Arrival>,
    /// Whether the default was left goes onto the stack of the frame below.
    pub keeps: bool,
}

/// Bindings that start one after another, of which one may run now.
#[derive(Drop)]
pub struct Starting {
    pub running: Option<Watcher>,
    /// Those to come, the next first.
    pub bindings: Stack<Watcher>,
}

/// A component that was put into a container, which is still to be told.
#[derive(Clone, Copy, Debug, PartialEq, Eq)]
pub struct Adding {
    /// The parent that it left.
    pub from: Option<ObjId>,
    pub container: ObjId,
    pub child: ObjId,
    /// Its place among the children, from 0.
    pub place: u32,
    /// It had no parent before.
    pub first: bool,
}

/// A step of a change of state.
#[derive(Clone, Copy, Debug, PartialEq, Eq)]
pub enum ChangeStep {
    /// What the document registered for leaving its state is called.
    Leave,
    /// The name of the new state is written.
    Store,
    /// What the document registered for entering the new state is called.
    Enter,
    /// The change is announced.
    Announce,
    End,
}

/// A document that goes over to a state.
#[derive(Drop)]
pub struct Change {
    pub document: ObjId,
    pub state: Text,
    /// What of that remains, the next first.
    pub steps: Stack<ChangeStep>,
}

/// Work that isn't code.
#[derive(Drop)]
pub enum Native {
    Dispatches(Dispatch),
    Starts(Starting),
    Changes(Change),
    Adds(Adding),
    /// Takes these children of a container from it.
    Empties(ObjId, Stack<ObjId>),
    /// Sends an event where the target itself has a listener of its type.
    Announces(Event, ObjId),
    /// Sends an event to a target.
    Sends(Event, ObjId),
    /// The default action of a click at a target, whose event this is.
    Defaults(ObjId, ObjId),
    /// A line of the script: it is recorded.
    Begins(UserEvent),
    /// The same line: it acts.
    Acts(UserEvent),
}

/// What is open, of code or of native work.
#[derive(Drop)]
pub enum Frame {
    Code(CodeFrame),
    Does(Native),
}

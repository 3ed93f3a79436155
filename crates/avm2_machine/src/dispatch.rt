// The lines of a script that are played, and the dispatch of their events. ActionScript 3, event
// flow.

ghost use Rattle.std.specs.Prelude.{◌≡◌, ◌++◌, ◌∷◌, map, reverse, IfOk, OnOk};
ghost use Rattle.std.specs.List.{filter};
ghost use Rattle.std.specs.Str.{bytes_eq};
ghost use Rattle.flex_base.specs.Events.{arrival, arrivals, hearing, phase_number};
ghost use Rattle.avm2_machine.specs.Machine.{moved, begins, clicks, reached, sends, call_at, dispatches};
ghost use Rattle.avm2_machine.specs.Stage.{outer, listeners};
ghost use Rattle.flex_base.specs.declared.event.Phase.TheVariants.{Capture, Bubble};

use crate::frame::{Frame, Operand};
use crate::machine::Machine;
use crate::stack::Stack;
use crate::stage::{Class, Registration, Stage};
use crate::tables::hears_clicks;
use abc_format::Abc;
use flex_base::{
    Arrival, MachineFault, Names, NoMemory, ObjId, Phase, Sequence, Text, TraceItem, UserEvent,
    Value, path_text,
};
use std::alloc::Global;

/// The type of the event of a mouse click.
const CLICK: &str = "click";

/// A listener that is to be called: a method of an object, at the node where the event is.
#[derive(Clone, Copy, Debug, PartialEq, Eq)]
pub struct Call {
    pub node: ObjId,
    pub phase: Phase,
    pub object: ObjId,
    pub method: u32,
}

/// The event of a click that is to be made and sent to a component.
#[derive(Drop)]
pub struct Sending {
    pub target: ObjId,
    /// Where its event will arrive, one after another.
    pub nodes: Stack<Arrival>,
}

/// The dispatch of an event.
#[derive(Drop)]
pub struct Dispatch {
    /// The event's number.
    pub event: ObjId,
    /// The event's type.
    pub kind: Text,
    /// The listeners to come where the event is now.
    pub calls: Stack<Call>,
    /// The nodes to come.
    pub nodes: Stack<Arrival>,
}

impl Machine {
    /// Begins a line of the script.
    pub fn start(&mut self, alloc: Global, event: &UserEvent) -> Result<(), NoMemory>
        ensures { OnOk result (self.new ≡ begins event.now self.old) }
    {
        let (frame, line) = match event {
            UserEvent::Click(path, line) => (self.click(alloc, path)?, line),
            UserEvent::Write(path, _, line) => (Frame::Miss(path_text(alloc, path)?), line),
            UserEvent::State(_, line) => (Frame::UnknownState, line),
        };
        self.frames.push(frame)?;
        self.frames.push(Frame::User(line.clone()?))
    }

    // A click on what a path reaches.
    fn click(&self, alloc: Global, path: &Names) -> Result<Frame, NoMemory>
        ensures { IfOk result (λ frame. frame ≡ clicks self.now.stage path.now (reached self.now.stage self.now.main path.now)) }
    {
        match self.reached(path.as_slice()) {
            None => Ok(Frame::Miss(path_text(alloc, path)?)),
            Some(target) => {
                let nodes = arrivals(alloc, &self.stage, target)?;
                Ok(Frame::Sending(Sending { target, nodes }))
            }
        }
    }

    // The component that a path reaches from the main object: it is the main object or has it as an
    // ancestor.
    fn reached(&self, path: &[Text]) -> Option<ObjId>
        ensures { result ≡ reached self.now.stage self.now.main path.now }
    {
        let main = self.main?;
        let target = self.stage.walk(main, path)?;
        if main.0 == target.0 || self.stage.is_inside(target, main) {
            Some(target)
        } else {
            None
        }
    }

    // Makes the event of a click, and begins its dispatch.
    pub(crate) fn send(
        &mut self,
        alloc: Global,
        sending: Sending,
    ) -> Result<Option<TraceItem>, NoMemory>
        ensures { IfOk result (λ item. moved self.new item ≡ sends sending self.old) }
    {
        let Sending { target, nodes } = sending;
        let none = Sequence::new(alloc);
        let Some(event) = self.make(alloc, Class::MouseEvent, none, 0)? else {
            return Ok(None);
        };
        let kind = Text::make(alloc, CLICK)?;
        self.frames.push(Frame::Dispatch(Dispatch {
            event,
            kind: kind.clone()?,
            calls: Stack::new(alloc),
            nodes,
        }))?;
        Ok(Some(TraceItem::Sent { target, kind }))
    }

    // What is next of a dispatch that was taken off: a call, an arrival, or its end.
    pub(crate) fn dispatch(
        &mut self,
        alloc: Global,
        abc: &Abc,
        mut dispatch: Dispatch,
    ) -> Result<Option<TraceItem>, NoMemory>
        ensures { IfOk result (λ item. moved self.new item ≡ dispatches abc.now dispatch.calls dispatch.nodes dispatch self.old) }
    {
        if let Some(call) = dispatch.calls.pop() {
            return self.call(alloc, abc, call, dispatch);
        }
        if let Some(arrival) = dispatch.nodes.pop() {
            dispatch.calls = calls(alloc, &self.stage, arrival, dispatch.kind.as_str())?;
            self.frames.push(Frame::Dispatch(dispatch))?;
        }
        Ok(None)
    }

    // Calls a listener with the event.
    fn call(
        &mut self,
        alloc: Global,
        abc: &Abc,
        call: Call,
        dispatch: Dispatch,
    ) -> Result<Option<TraceItem>, NoMemory>
        ensures { IfOk result (λ item. moved self.new item ≡ dispatches abc.now (call ∷ dispatch.calls) dispatch.nodes dispatch self.old) }
    {
        let event = dispatch.event;
        let kind = dispatch.kind.clone()?;
        self.frames.push(Frame::Dispatch(dispatch))?;
        if !hears_clicks(abc, call.method) {
            self.fault(alloc, MachineFault::NotHere);
            return Ok(None);
        }
        let heard = TraceItem::Heard {
            node: call.node,
            kind,
            phase: call.phase.number(),
        };
        let mut given = Sequence::new(alloc);
        given.push(Operand::Value(Value::Ref(call.object)))?;
        given.push(Operand::Value(Value::Ref(event)))?;
        self.enter(alloc, abc, call.method, given, Some(heard))
    }
}

// Where a bubbling event arrives, one after another.
fn arrivals(alloc: Global, stage: &Stage, target: ObjId) -> Result<Stack<Arrival>, NoMemory>
    ensures { IfOk result (λ nodes. nodes ≡ arrivals target (outer stage.now target)) }
{
    let outer = stage.outer(alloc, target)?;
    let mut nodes = bubbling(alloc, outer.as_slice())?;
    nodes.push(Arrival {
        node: target,
        phase: Phase::Target,
    })?;
    put_capturing(&mut nodes, outer.as_slice())?;
    Ok(nodes)
}

// The arrivals on the way outward, by these ancestors, the nearest first.
fn bubbling(alloc: Global, outer: &[ObjId]) -> Result<Stack<Arrival>, NoMemory>
    ensures { IfOk result (λ nodes. nodes ≡ map (arrival Bubble) outer.now) }
{
    let mut nodes = Sequence::new(alloc);
    for node in outer {
        nodes.push(Arrival {
            node: *node,
            phase: Phase::Bubble,
        })?;
    }
    Ok(Stack::from_sequence(nodes))
}

// Puts the arrivals on the way inward before those to come.
fn put_capturing(nodes: &mut Stack<Arrival>, outer: &[ObjId]) -> Result<(), NoMemory>
    ensures { OnOk result (nodes.new ≡ reverse (map (arrival Capture) outer.now) ++ nodes.old) }
{
    for node in outer {
        nodes.push(Arrival {
            node: *node,
            phase: Phase::Capture,
        })?;
    }
    Ok(())
}

// The listeners to be called where an event of this type has arrived.
fn calls(
    alloc: Global,
    stage: &Stage,
    arrival: Arrival,
    kind: &str,
) -> Result<Stack<Call>, NoMemory>
    ensures { IfOk result (λ calls. calls ≡ map (call_at arrival) (hearing (λ l. l.event) kind.now arrival.phase (listeners stage.now arrival.node))) }
{
    match arrival.phase {
        Phase::Capture => Ok(Stack::new(alloc)),
        Phase::Target | Phase::Bubble => {
            calls_to(alloc, stage.listeners(arrival.node), arrival, kind)
        }
    }
}

// The calls of those listeners that are for this type of event.
fn calls_to(
    alloc: Global,
    listeners: &[Registration],
    arrival: Arrival,
    kind: &str,
) -> Result<Stack<Call>, NoMemory>
    ensures { IfOk result (λ calls. calls ≡ map (call_at arrival) (filter (λ l. bytes_eq l.event kind.now) listeners.now)) }
{
    let mut calls = Sequence::new(alloc);
    for listener in listeners {
        if listener.event.as_str() == kind {
            calls.push(Call {
                node: arrival.node,
                phase: arrival.phase,
                object: listener.object,
                method: listener.method,
            })?;
        }
    }
    Ok(Stack::from_sequence(calls))
}

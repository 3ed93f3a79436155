// Dispatches at a Button 3 in a Group 2 in a document 1, and the listeners of their nodes.

use crate::{Addition, Flow, FlowMove, Listeners, Removal};
use flex_base::{ListenerList, NoMemory, ObjId, Path, Text};
use std::alloc::Global;
use std::process::Abort;
use std::test::Fail;

// The document's methods.
const C: u32 = 10;

const A: u32 = 11;

const Z: u32 = 12;

const B: u32 = 13;

fn path(alloc: Global) -> Result<Path, NoMemory> {
    let mut path = Path::new(alloc);
    path.push(ObjId(3))?;
    path.push(ObjId(2))?;
    path.push(ObjId(1))?;
    Ok(path)
}

fn list(alloc: Global, methods: &[u32]) -> Result<ListenerList, NoMemory> {
    let mut list = ListenerList::new(alloc);
    for method in methods {
        list.push((ObjId(1), *method))?;
    }
    Ok(list)
}

// Asserts that the moves which follow are these.
fn expect_moves(rt: &impl Abort, flow: &mut Flow, moves: &[FlowMove]) {
    for wanted in moves {
        let given = flow.next();
        assert_eq!(rt; given, *wanted);
    }
}

#[test]
fn listeners_are_in_order_of_priority(rt: HostRuntime) -> Result<(), Fail> {
    let alloc = rt.alloc();
    let click = Text::make(alloc, "click")?;
    let change = Text::make(alloc, "change")?;
    let mut go = Listeners::new(alloc);
    assert_eq!(rt; go.add(&click, (ObjId(1), A), false, 5)?, Addition::New);
    assert_eq!(rt; go.add(&click, (ObjId(1), Z), false, 0)?, Addition::New);
    assert_eq!(rt; go.add(&click, (ObjId(1), B), false, 5)?, Addition::New);
    assert_eq!(rt; go.add(&click, (ObjId(1), Z), false, 9)?, Addition::Kept);
    assert_eq!(rt; go.add(&click, (ObjId(1), C), true, 0)?, Addition::New);
    let wanted = list(alloc, &[A, B, Z])?;
    let heard = go.at_node(alloc, &click, 2)?;
    assert_eq!(rt; heard.as_slice(), wanted.as_slice());
    let captured = go.at_node(alloc, &click, 1)?;
    assert_eq!(rt; captured.as_slice(), list(alloc, &[C])?.as_slice());
    assert!(rt; go.at_node(alloc, &change, 2)?.is_empty());
    assert!(rt; go.at_node(alloc, &click, 0)?.is_empty());
    assert!(rt; go.has(&click));
    assert!(rt; !go.has(&change));
    assert_eq!(rt; go.remove(&click, (ObjId(1), A), true), Removal::Absent);
    assert_eq!(rt; go.remove(&click, (ObjId(1), A), false), Removal::Gone);
    let rest = go.at_node(alloc, &click, 3)?;
    assert_eq!(rt; rest.as_slice(), list(alloc, &[B, Z])?.as_slice());
    Ok(())
}

#[test]
fn events_go_in_and_out(rt: HostRuntime) -> Result<(), Fail> {
    let alloc = rt.alloc();
    let mut flow = Flow::start(path(alloc)?, true, true);
    expect_moves(&rt, &mut flow, &[FlowMove::Arrive(ObjId(1), 1)]);
    let given = flow.next();
    assert_eq!(rt; given, FlowMove::Arrive(ObjId(2), 1));
    flow.supply(list(alloc, &[C])?);
    expect_moves(&rt, &mut flow, &[FlowMove::Call(ObjId(1), C)]);
    let given = flow.next();
    assert_eq!(rt; given, FlowMove::Arrive(ObjId(3), 2));
    flow.supply(list(alloc, &[Z])?);
    flow.supply(list(alloc, &[A, B])?);
    let rest = [
        FlowMove::Call(ObjId(1), A),
        FlowMove::Call(ObjId(1), B),
        FlowMove::Arrive(ObjId(2), 3),
        FlowMove::Arrive(ObjId(1), 3),
        FlowMove::Done,
        FlowMove::Done,
    ];
    expect_moves(&rt, &mut flow, &rest);
    Ok(())
}

// The moves at a Button 2 in a document 1, up to the call of its first listener.
fn first_call(rt: &impl Abort, alloc: Global, cancelable: bool) -> Result<Flow, NoMemory> {
    let mut path = Path::new(alloc);
    path.push(ObjId(2))?;
    path.push(ObjId(1))?;
    let mut flow = Flow::start(path, true, cancelable);
    expect_moves(rt, &mut flow, &[FlowMove::Arrive(ObjId(1), 1)]);
    let given = flow.next();
    assert_eq!(rt; given, FlowMove::Arrive(ObjId(2), 2));
    flow.supply(list(alloc, &[A, B])?);
    expect_moves(rt, &mut flow, &[FlowMove::Call(ObjId(1), A)]);
    Ok(flow)
}

#[test]
fn events_are_stopped_and_prevented(rt: HostRuntime) -> Result<(), Fail> {
    let alloc = rt.alloc();
    let second = FlowMove::Call(ObjId(1), B);
    let outer = FlowMove::Arrive(ObjId(1), 3);
    let mut free = first_call(&rt, alloc, false)?;
    free.prevent();
    expect_moves(&rt, &mut free, &[second, outer, FlowMove::Done]);
    assert!(rt; !free.prevented());
    let mut stopped = first_call(&rt, alloc, true)?;
    stopped.stop();
    stopped.prevent();
    expect_moves(&rt, &mut stopped, &[second, FlowMove::Done]);
    assert!(rt; stopped.prevented());
    let mut at_once = first_call(&rt, alloc, true)?;
    at_once.stop_now();
    expect_moves(&rt, &mut at_once, &[FlowMove::Done]);
    at_once.prevent();
    assert!(rt; !at_once.prevented());
    Ok(())
}

// Components, which are all Groups here: where they stand, and a document's bindings and states.

use crate::{Change, Placed, Stage, Written};
use component_catalog::NativeClass;
use flex_base::{Chain, Chains, NoMemory, ObjId, RunRefusal, Stop, Text, Value};
use flex_objects::{ClassInfo, EnabledBinding, RegisteredState, SlotTable};
use flex_world::Class;
use std::alloc::Global;
use std::process::Abort;
use std::rc::Rc;
use std::test::Fail;

const MAIN: ObjId = ObjId(1);

const GROUP: ObjId = ObjId(2);

const LABEL: ObjId = ObjId(3);

fn group_class(alloc: Global) -> Result<ClassInfo, NoMemory> {
    let mut fields = SlotTable::new(alloc);
    fields.add_native(NativeClass::UIComponent)?;
    Ok(ClassInfo {
        class: Class::Native(NativeClass::Group),
        native: Some(NativeClass::Group),
        fields: Rc::new(alloc, fields)?,
        hidden: Rc::new(alloc, SlotTable::new(alloc))?,
    })
}

// A stage with so many Groups.
fn groups(alloc: Global, count: u32) -> Result<Stage, RunRefusal> {
    let class = group_class(alloc)?;
    let mut stage = Stage::new(alloc);
    for _ in 0..count {
        stage.make(&class)?;
    }
    Ok(stage)
}

// A child that is put into a container, with a rank of the document or without one, and its place.
#[derive(Clone, Copy)]
struct Case {
    container: u32,
    child: u32,
    rank: Option<(ObjId, u32)>,
    place: u32,
}

fn make_case(container: u32, child: u32, rank: Option<(ObjId, u32)>, place: u32) -> Case {
    Case {
        container,
        child,
        rank,
        place,
    }
}

fn expect_place(rt: &impl Abort, stage: &mut Stage, case: &Case) {
    let placed = stage.place(ObjId(case.container), ObjId(case.child), case.rank);
    assert!(rt; matches!(placed, Ok(placed) if placed.place == case.place));
}

fn put_last(stage: &mut Stage, container: ObjId, child: ObjId) -> Option<Placed> {
    stage.place(container, child, None).ok()
}

fn makes_circle(stage: &mut Stage, container: ObjId, child: ObjId) -> bool {
    let placed = stage.place(container, child, None);
    matches!(placed, Err(RunRefusal::Stop(Stop::Cycle)))
}

fn bind(alloc: Global, stage: &mut Stage, property: &str) -> Result<(), NoMemory> {
    let mut chain = Chain::new(alloc);
    chain.push(Text::make(alloc, property)?)?;
    let mut chains = Chains::new(alloc);
    chains.push(chain)?;
    let binding = EnabledBinding {
        number: 4,
        pair: None,
        method: (MAIN, 7),
    };
    stage.bind(MAIN, binding, &chains)
}

// How many bindings are to start.
fn write(
    alloc: Global,
    stage: &mut Stage,
    property: &str,
    value: Value,
) -> Result<usize, RunRefusal> {
    let property = Text::make(alloc, property)?;
    match stage.write(MAIN, &property, value)? {
        Written::Changed(pairs) => Ok(pairs.len()),
        _ => Ok(0),
    }
}

fn add_state(alloc: Global, stage: &mut Stage, name: &str) -> Result<(), NoMemory> {
    let state = RegisteredState {
        name: Text::make(alloc, name)?,
        leave: (MAIN, 1),
        enter: (MAIN, 2),
    };
    stage.register(MAIN, state)
}

// What comes of a state that is asked for.
fn request(alloc: Global, stage: &mut Stage, name: &str) -> Result<Change, RunRefusal> {
    let name = Text::make(alloc, name)?;
    stage.request_state(MAIN, &name)
}

// The document is in the state, and the change is over: whether this name was kept.
fn enter(alloc: Global, stage: &mut Stage, name: &str, kept: &str) -> Result<bool, RunRefusal> {
    let name = Text::make(alloc, name)?;
    write(alloc, stage, "currentState", Value::Text(name.clone()?))?;
    let is_kept = match stage.state_done(MAIN) {
        Some(name) => name.as_str() == kept,
        None => kept.is_empty(),
    };
    Ok(is_kept && stage.is_current(MAIN, &name))
}

#[test]
fn a_component_moves_and_makes_no_circle(rt: HostRuntime) -> Result<(), Fail> {
    let mut stage = groups(rt.alloc(), 3)?;
    let new = Placed {
        from: None,
        place: 0,
        first: true,
    };
    assert_eq!(rt; put_last(&mut stage, MAIN, GROUP), Some(new));
    assert_eq!(rt; put_last(&mut stage, GROUP, LABEL), Some(new));
    let moved = Placed {
        from: Some(GROUP),
        place: 1,
        first: false,
    };
    assert_eq!(rt; put_last(&mut stage, MAIN, LABEL), Some(moved));
    assert!(rt; makes_circle(&mut stage, GROUP, MAIN));
    assert!(rt; makes_circle(&mut stage, LABEL, LABEL));
    let path = stage.path_of(rt.alloc(), LABEL)?;
    assert_eq!(rt; path.as_slice(), [LABEL, MAIN].as_slice());
    assert_eq!(rt; stage.child_count(MAIN), 2);
    assert_eq!(rt; stage.child_at(MAIN, 0), Some(GROUP));
    assert_eq!(rt; stage.take_out(LABEL), Some(MAIN));
    assert_eq!(rt; stage.take_out(LABEL), None);
    Ok(())
}

#[test]
fn declared_children_go_behind_their_forerunners(rt: HostRuntime) -> Result<(), Fail> {
    let mut stage = groups(rt.alloc(), 9)?;
    let cases = [
        make_case(2, 4, Some((MAIN, 0)), 0),
        make_case(2, 6, Some((MAIN, 2)), 1),
        // Between both.
        make_case(2, 5, Some((MAIN, 1)), 1),
        // Moved behind them, the first one stays a forerunner.
        make_case(2, 4, None, 2),
        make_case(2, 7, Some((MAIN, 1)), 3),
        // Another document's declarations are none.
        make_case(2, 8, Some((LABEL, 9)), 0),
        // Nor are those that were declared in another container.
        make_case(3, 5, None, 0),
        make_case(3, 9, Some((MAIN, 7)), 0),
        // Back in its container, it counts again.
        make_case(2, 5, None, 4),
        make_case(2, 9, Some((MAIN, 2)), 5),
    ];
    for case in cases.iter() {
        expect_place(&rt, &mut stage, case);
    }
    Ok(())
}

#[test]
fn bindings_are_watched_and_open(rt: HostRuntime) -> Result<(), Fail> {
    let alloc = rt.alloc();
    let mut stage = groups(alloc, 1)?;
    bind(alloc, &mut stage, "visible")?;
    assert!(rt; stage.is_enabled(MAIN, 4) && !stage.is_enabled(MAIN, 3));
    assert!(rt; matches!(stage.binding(MAIN, 4), Some(binding) if binding.method == (MAIN, 7)));
    let started = write(alloc, &mut stage, "visible", Value::Bool(false)).ok();
    assert_eq!(rt; started, Some(1));
    stage.open(MAIN, 4)?;
    assert!(rt; stage.is_open(MAIN, 4));
    stage.close(MAIN, 4);
    assert!(rt; !stage.is_open(MAIN, 4));
    Ok(())
}

#[test]
fn a_state_that_is_asked_for_meanwhile_is_kept(rt: HostRuntime) -> Result<(), Fail> {
    let alloc = rt.alloc();
    let mut stage = groups(alloc, 1)?;
    for name in ["a", "b", "c"].iter() {
        add_state(alloc, &mut stage, name)?;
    }
    assert!(rt; matches!(stage.first_state(MAIN), Some(name) if name.as_str() == "a"));
    assert!(rt; !stage.has_begun(MAIN));
    stage.begin(MAIN);
    assert!(rt; stage.has_begun(MAIN));
    assert_eq!(rt; enter(alloc, &mut stage, "a", "").ok(), Some(true));
    assert_eq!(rt; request(alloc, &mut stage, "b").ok(), Some(Change::Begin));
    assert_eq!(rt; request(alloc, &mut stage, "a").ok(), Some(Change::Kept));
    assert_eq!(rt; request(alloc, &mut stage, "c").ok(), Some(Change::Kept));
    assert_eq!(rt; enter(alloc, &mut stage, "b", "c").ok(), Some(true));
    assert_eq!(rt; request(alloc, &mut stage, "b").ok(), Some(Change::Nothing));
    let unknown = request(alloc, &mut stage, "d");
    assert!(rt; matches!(unknown, Err(RunRefusal::Stop(Stop::UnknownState))));
    Ok(())
}

// Where events arrive.

ghost use Rattle.std.specs.Prelude.{◌≡◌, ◌++◌, IfOk, OnOk, map, reverse};
ghost use Rattle.flex_base.specs.Events.{arrival};
ghost use Rattle.flex_base.specs.declared.event.Phase.TheVariants as phase;
ghost use Rattle.flex_world.specs.Events.{event_path};
ghost use Rattle.flex_world.specs.Objects.{ancestors_of};
ghost use Rattle.ui_runtime.specs.Stage.{objects};

use avm2_meaning::{Heap, Stack};
use flex_base::{Arrival, NoMemory, ObjId, Phase};
use std::alloc::Global;

// The ancestors of a target at which an event arrives on its way outward, the nearest first.
#[tactic(auto, using(crate::proofs::Arrivals::put_outward))]
fn outward(alloc: Global, ancestors: &[ObjId]) -> Result<Stack<Arrival>, NoMemory>
    ensures { IfOk result (λ arrivals. arrivals ≡ map (arrival phase.Bubble) ancestors.now) }
{
    let mut arrivals = Stack::new(alloc);
    let mut rest = ancestors;
    while let Some((node, others)) = rest.split_last() {
        arrivals.push(Arrival {
            node: *node,
            phase: Phase::Bubble,
        })?;
        rest = others;
    }
    Ok(arrivals)
}

// Before these, an event arrives at the ancestors of its target, the nearest last.
#[tactic(auto, using(crate::proofs::Arrivals::put_before))]
fn put_inward(arrivals: &mut Stack<Arrival>, ancestors: &[ObjId]) -> Result<(), NoMemory>
    ensures { OnOk result (arrivals.new ≡
        reverse (map (arrival phase.Capture) ancestors.now) ++ arrivals.old) }
{
    let mut rest = ancestors;
    while let Some((node, others)) = rest.split_first() {
        arrivals.push(Arrival {
            node: *node,
            phase: Phase::Capture,
        })?;
        rest = others;
    }
    Ok(())
}

// Where an event arrives by the ancestors of its target.
#[tactic(auto, using(crate::proofs::Arrivals::bubbling, crate::proofs::Arrivals::silent))]
fn path_by(
    alloc: Global,
    target: ObjId,
    ancestors: &[ObjId],
    bubbles: bool,
) -> Result<Stack<Arrival>, NoMemory>
    ensures { IfOk result (λ arrivals. arrivals ≡ event_path target ancestors.now bubbles) }
{
    let mut arrivals = if bubbles {
        outward(alloc, ancestors)?
    } else {
        Stack::new(alloc)
    };
    arrivals.push(Arrival {
        node: target,
        phase: Phase::Target,
    })?;
    put_inward(&mut arrivals, ancestors)?;
    Ok(arrivals)
}

// Where an event of a target arrives, one after another.
pub fn event_path(
    alloc: Global,
    heap: &Heap,
    target: ObjId,
    bubbles: bool,
) -> Result<Stack<Arrival>, NoMemory>
    ensures { IfOk result (λ arrivals. arrivals ≡
        event_path target (ancestors_of (objects heap.now.stage) target) bubbles) }
{
    let path = heap.stage.objects.path_of(alloc, target)?;
    match path.as_slice().split_first() {
        Some((_, ancestors)) => path_by(alloc, target, ancestors, bubbles),
        None => Ok(Stack::new(alloc)),
    }
}

// A document goes over to a state, step by step.

ghost use Rattle.std.specs.Prelude.{◌≡◌, ◌∷◌, IfOk, [], option_map};
ghost use Rattle.avm2_meaning.specs.Effects.{acted, in_place};
ghost use Rattle.avm2_meaning.specs.Moves.{change_with};
ghost use Rattle.avm2_meaning.specs.States.{end_change};
ghost use Rattle.avm2_meaning.specs.declared.frame.ChangeStep.TheVariants as ChangeStep;
ghost use Rattle.avm2_moves.specs.Answers.{Moves};
ghost use Rattle.avm2_moves.specs.Changing.{does_step, entering, leaving};
ghost use Rattle.avm2_program.specs.declared.file.Program.{Program};
ghost use Rattle.flex_objects.specs.Entities.{listener};
ghost use Rattle.flex_world.specs.Objects.{current_state, property, text_in};

use crate::events::current_state_change;
use crate::writing::write_and;
use avm2_effects::{call_listener, request_kept};
use avm2_meaning::{Change, ChangeStep, Effect, Heap, Native, Next, Operand, Stack};
use avm2_program::Program;
use avm2_values::Refusal;
use flex_base::{MachineFault, NoMemory, ObjId, Text, Value};
use flex_objects::Entity;
use std::alloc::Global;

// An effect by which the work that is opened takes the place of this; where none is, this is over.
fn in_place(native: Native, effect: Effect) -> (Effect, Native)
    ensures { acted result.0 result.1 ≡ in_place native effect }
{
    let Effect { next, item } = effect;
    match next {
        Next::Opens(other) => {
            let goes_on = Effect {
                next: Next::On,
                item,
            };
            (goes_on, other)
        }
        _ => {
            let closes = Effect {
                next: Next::Close(None),
                item,
            };
            (closes, native)
        }
    }
}

// The change ends; a state that was asked for meanwhile is asked for now.
fn end_change(alloc: Global, heap: &mut Heap, change: Change) -> Result<(Effect, Native), Refusal>
    ensures { Moves result heap.new (end_change change heap.old) }
{
    let kept = heap.stage.objects.end(change.document);
    let effect = request_kept(alloc, heap, change.document, kept)?;
    Ok(in_place(Native::Changes(change), effect))
}

// The name of the state in which a document is.
fn current_state(entity: &Entity) -> Option<&Text>
    ensures { option_map (λ t. t.now) result ≡ text_in (property entity.now.object current_state) }
{
    match entity.fields.get("currentState") {
        Some(Value::Text(name)) => Some(name),
        _ => None,
    }
}

// What a document registered for leaving the state in which it is.
fn leaving(heap: &Heap, document: ObjId) -> Option<(ObjId, u32)>
    ensures { option_map (λ l. listener l.0 l.1) result ≡ leaving document heap.now }
{
    let name = current_state(heap.stage.objects.get(document)?)?;
    Some(heap.stage.objects.state(document, name)?.leave)
}

// What a document registered for entering a state.
fn entering(heap: &Heap, document: ObjId, name: &Text) -> Option<(ObjId, u32)>
    ensures { option_map (λ l. listener l.0 l.1) result ≡ entering document name.now heap.now }
{
    Some(heap.stage.objects.state(document, name)?.enter)
}

// An argument alone.
fn alone(alloc: Global, argument: Operand) -> Result<Stack<Operand>, NoMemory>
    ensures { IfOk result (λ arguments. arguments ≡ argument ∷ []) }
{
    let mut arguments = Stack::new(alloc);
    arguments.push(argument)?;
    Ok(arguments)
}

// The state is left: what was registered for that is called with the name of the new one.
#[tactic(auto, using(crate::proofs::Steps::left))]
fn leave(
    alloc: Global,
    program: &Program,
    heap: &Heap,
    change: Change,
) -> Result<(Effect, Native), Refusal>
    ensures { Moves result heap.now (does_step program.now ChangeStep.Leave change heap.now) }
{
    let Some(method) = leaving(heap, change.document) else {
        return Err(Refusal::from(MachineFault::NotHere));
    };
    let name = Operand::Plain(Value::Text(change.state.clone()?));
    let effect = call_listener(alloc, program, heap, method, alone(alloc, name)?)?;
    Ok((effect, Native::Changes(change)))
}

// The name of the new state is written.
#[tactic(auto, using(crate::proofs::Steps::written))]
fn store(alloc: Global, heap: &mut Heap, change: Change) -> Result<(Effect, Native), Refusal>
    ensures { (p : Program) → Moves result heap.new (does_step p ChangeStep.Store change heap.old) }
{
    let name = Value::Text(change.state.clone()?);
    let document = change.document;
    let moved = write_and(
        alloc,
        heap,
        document,
        "currentState",
        name,
        Native::Changes(change),
    )?;
    Ok(moved)
}

// What was registered for entering the new state is called.
#[tactic(auto, using(crate::proofs::Steps::entered))]
fn enter(
    alloc: Global,
    program: &Program,
    heap: &Heap,
    change: Change,
) -> Result<(Effect, Native), Refusal>
    ensures { Moves result heap.now (does_step program.now ChangeStep.Enter change heap.now) }
{
    let Some(method) = entering(heap, change.document, &change.state) else {
        return Err(Refusal::from(MachineFault::NotHere));
    };
    let effect = call_listener(alloc, program, heap, method, Stack::new(alloc))?;
    Ok((effect, Native::Changes(change)))
}

// The change is announced.
fn announce(heap: &Heap, change: Change) -> Result<(Effect, Native), Refusal>
    ensures { (p : Program) → Moves result heap.now (does_step p ChangeStep.Announce change heap.now) }
{
    if heap.stage.objects.get(change.document).is_none() {
        return Err(Refusal::from(MachineFault::NotHere));
    }
    let effect = Effect::opens(Native::Announces(current_state_change(), change.document));
    Ok((effect, Native::Changes(change)))
}

// The last step of a change, of which this remains.
fn end(alloc: Global, heap: &mut Heap, mut change: Change) -> Result<(Effect, Native), Refusal>
    ensures { (p : Program) → Moves result heap.new (does_step p ChangeStep.End change heap.old) }
{
    if heap.stage.objects.get(change.document).is_none() {
        return Err(Refusal::from(MachineFault::NotHere));
    }
    change.steps.push(ChangeStep::End)?;
    let moved = end_change(alloc, heap, change)?;
    Ok(moved)
}

// Does a step of a change, of which this remains.
fn take_step(
    alloc: Global,
    program: &Program,
    heap: &mut Heap,
    step: ChangeStep,
    change: Change,
) -> Result<(Effect, Native), Refusal>
    ensures { Moves result heap.new (does_step program.now step change heap.old) }
{
    match step {
        ChangeStep::Leave => leave(alloc, program, heap, change),
        ChangeStep::Store => store(alloc, heap, change),
        ChangeStep::Enter => enter(alloc, program, heap, change),
        ChangeStep::Announce => announce(heap, change),
        ChangeStep::End => end(alloc, heap, change),
    }
}

/// The next move of a document that goes over to a state.
#[tactic(auto, using(crate::proofs::Steps::stepped))]
pub fn change_on(
    alloc: Global,
    program: &Program,
    heap: &mut Heap,
    mut change: Change,
) -> Result<(Effect, Native), Refusal>
    ensures { Moves result heap.new (change_with program.now change change.steps heap.old) }
{
    let Some(step) = change.steps.pop() else {
        return Ok((Effect::silent(Next::Close(None)), Native::Changes(change)));
    };
    let moved = take_step(alloc, program, heap, step, change)?;
    Ok(moved)
}

// View states are asked for.

ghost use Rattle.std.specs.Prelude.{◌≡◌, IfOk};
ghost use Rattle.avm2_meaning.specs.States.{all_steps, changes_by, request, request_kept, request_state};
ghost use Rattle.avm2_meaning.specs.declared.heap.Heap.{Heap};
ghost use Rattle.avm2_values.specs.Answers.{Gives};

use avm2_meaning::{Change, ChangeStep, Effect, Heap, Native, Next, Stack};
use avm2_values::Refusal;
use flex_base::{MachineFault, NoMemory, ObjId, Stop, Text, Value};
use std::alloc::Global;
use ui_runtime::Change as Request;

// All steps of a change.
fn all_steps(alloc: Global) -> Result<Stack<ChangeStep>, NoMemory>
    ensures { IfOk result (λ steps. steps ≡ all_steps) }
{
    let mut steps = Stack::new(alloc);
    steps.push(ChangeStep::End)?;
    steps.push(ChangeStep::Announce)?;
    steps.push(ChangeStep::Enter)?;
    steps.push(ChangeStep::Store)?;
    steps.push(ChangeStep::Leave)?;
    Ok(steps)
}

// The change of a document to a state begins, where one is to begin.
fn change_by(
    alloc: Global,
    document: ObjId,
    state: Text,
    request: Request,
) -> Result<Effect, Refusal>
    ensures { (h : Heap) → Gives result h (changes_by document state request h) }
{
    match request {
        Request::Begin => Ok(Effect::opens(Native::Changes(Change {
            document,
            state,
            steps: all_steps(alloc)?,
        }))),
        Request::Nothing | Request::Kept => Ok(Effect::silent(Next::On)),
    }
}

/// A state of a document is asked for, by its name.
pub fn request_state(
    alloc: Global,
    heap: &mut Heap,
    document: ObjId,
    name: Text,
) -> Result<Effect, Refusal>
    ensures { Gives result heap.new (request_state document name heap.old) }
{
    let request = heap.stage.request(document, &name)?;
    change_by(alloc, document, name, request)
}

/// A value is written to the `currentState` of a document.
pub fn request(
    alloc: Global,
    heap: &mut Heap,
    document: ObjId,
    value: Value,
) -> Result<Effect, Refusal>
    ensures { Gives result heap.new (request document value heap.old) }
{
    if heap.stage.objects.get(document).is_none() {
        return Err(Refusal::from(MachineFault::NotHere));
    }
    match value {
        Value::Text(name) => request_state(alloc, heap, document, name),
        _ => Err(Refusal::from(Stop::UnknownState)),
    }
}

/// The state that was kept while a document's state changed, if one was, is asked for.
pub fn request_kept(
    alloc: Global,
    heap: &mut Heap,
    document: ObjId,
    kept: Option<Text>,
) -> Result<Effect, Refusal>
    ensures { Gives result heap.new (request_kept document kept heap.old) }
{
    match kept {
        Some(name) => request_state(alloc, heap, document, name),
        None => Ok(Effect::silent(Next::On)),
    }
}

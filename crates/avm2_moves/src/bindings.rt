// The runs of bindings, one after another.

ghost use Rattle.std.specs.Prelude.{◌∷◌, ◌≡◌, None, Some};
ghost use Rattle.avm2_meaning.specs.Bindings.{is_busy, start_next, start_on, starting};
ghost use Rattle.avm2_moves.specs.Answers.{Moves};
ghost use Rattle.avm2_moves.specs.Running.{free_method, next_method, run_with};
ghost use Rattle.avm2_values.specs.Answers.{Gives};

use avm2_effects::call_listener;
use avm2_meaning::{Effect, Heap, Listener, Native, Next, Stack, Starting, Watcher};
use avm2_program::Program;
use avm2_values::Refusal;
use flex_base::MachineFault;
use flex_objects::{EnabledBinding, Keeping};
use std::alloc::Global;

// Whether a binding, or its counterpart, is open.
fn is_busy(keeping: &Keeping, binding: &EnabledBinding) -> bool
    ensures { result ≡ is_busy keeping.now binding.now }
{
    if keeping.is_open(binding.number) {
        return true;
    }
    match binding.pair {
        Some(pair) => keeping.is_open(pair),
        None => false,
    }
}

// The method that runs the binding of a watcher, if that is enabled and free.
fn next_method(heap: &Heap, watcher: &Watcher) -> Result<Option<Listener>, Refusal>
    ensures { Gives result heap.now (next_method watcher.now heap.now) }
{
    let Some(entity) = heap.stage.objects.get(watcher.document) else {
        return Err(Refusal::from(MachineFault::NotHere));
    };
    match heap.stage.objects.binding(watcher.document, watcher.number) {
        Some(binding) => Ok(free_method(&entity.keeping, binding)),
        None => Ok(None),
    }
}

// The method of a binding that isn't busy.
fn free_method(keeping: &Keeping, binding: &EnabledBinding) -> Option<Listener>
    ensures { result ≡ free_method keeping.now (Some binding.now) }
{
    if is_busy(keeping, binding) {
        return None;
    }
    Some(Listener {
        object: binding.method.0,
        method: binding.method.1,
    })
}

// Bindings that are to start, of which none runs.
fn waiting(bindings: Stack<Watcher>) -> Native
    ensures { result ≡ starting None bindings }
{
    Native::Starts(Starting {
        running: None,
        bindings,
    })
}

// A binding is open from now on, and runs by its method; without one it is passed over.
fn run(
    alloc: Global,
    program: &Program,
    heap: &mut Heap,
    watcher: Watcher,
    bindings: Stack<Watcher>,
    method: Option<Listener>,
) -> Result<(Effect, Native), Refusal>
    ensures { Moves result heap.new (run_with program.now watcher bindings method heap.old) }
{
    let Some(method) = method else {
        return Ok((Effect::silent(Next::On), waiting(bindings)));
    };
    let called = (method.object, method.method);
    let effect = call_listener(alloc, program, heap, called, Stack::new(alloc))?;
    heap.stage.objects.open(watcher.document, watcher.number)?;
    let running = Native::Starts(Starting {
        running: Some(watcher),
        bindings,
    });
    Ok((effect, running))
}

// The next binding runs.
#[tactic(auto, using(crate::proofs::Runs::by_method))]
fn start_next(
    alloc: Global,
    program: &Program,
    heap: &mut Heap,
    watcher: Watcher,
    bindings: Stack<Watcher>,
) -> Result<(Effect, Native), Refusal>
    ensures { Moves result heap.new (start_next program.now (watcher ∷ bindings) heap.old) }
{
    let method = next_method(heap, &watcher)?;
    let moved = run(alloc, program, heap, watcher, bindings, method)?;
    Ok(moved)
}

/// The next move of bindings that start: the one that ran is closed first, and then the next runs.
pub fn start_on(
    alloc: Global,
    program: &Program,
    heap: &mut Heap,
    starting: Starting,
) -> Result<(Effect, Native), Refusal>
    ensures { Moves result heap.new (start_on program.now starting heap.old) }
{
    let Starting {
        running,
        mut bindings,
    } = starting;
    if let Some(watcher) = running {
        heap.stage.objects.close(watcher.document, watcher.number);
        return Ok((Effect::silent(Next::On), waiting(bindings)));
    }
    let Some(watcher) = bindings.pop() else {
        return Ok((Effect::silent(Next::Close(None)), waiting(bindings)));
    };
    let moved = start_next(alloc, program, heap, watcher, bindings)?;
    Ok(moved)
}

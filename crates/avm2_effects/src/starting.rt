// The bindings that a write affects start.

ghost use Rattle.std.specs.Prelude.{◌≡◌, IfOk, map};
ghost use Rattle.avm2_meaning.specs.Properties.{starting_all, stored_as, watcher_of};

use avm2_meaning::{Effect, Native, Next, Stack, Starting, Watcher};
use flex_base::{NoMemory, TraceItem};
use std::alloc::Global;
use ui_runtime::Written;
use watch_table::Pairs;

// Bindings, in order.
fn watchers(alloc: Global, pairs: &Pairs) -> Result<Stack<Watcher>, NoMemory>
    ensures { IfOk result (λ watchers. watchers ≡ map watcher_of pairs.now) }
{
    let mut watchers = Stack::new(alloc);
    let mut left = pairs.len();
    while left > 0 {
        left -= 1;
        if let Some((document, number)) = pairs.get(left) {
            watchers.push(Watcher {
                document: *document,
                number: *number,
            })?;
        }
    }
    Ok(watchers)
}

// Bindings are to start, if there are any.
fn starting_all(alloc: Global, pairs: &Pairs) -> Result<Next, NoMemory>
    ensures { IfOk result (λ next. next ≡ starting_all (map watcher_of pairs.now)) }
{
    let bindings = watchers(alloc, pairs)?;
    if bindings.is_empty() {
        return Ok(Next::On);
    }
    Ok(Next::Opens(Native::Starts(Starting {
        running: None,
        bindings,
    })))
}

/// What a write comes to, with its record if it makes one: the bindings that it affects start.
pub fn stored_as(
    alloc: Global,
    written: Written,
    item: Option<TraceItem>,
) -> Result<Effect, NoMemory>
    ensures { IfOk result (λ effect. effect ≡ stored_as written item) }
{
    match written {
        Written::Equal => Ok(Effect::silent(Next::On)),
        Written::Silent => Ok(Effect {
            next: Next::On,
            item,
        }),
        Written::Changed(pairs) => Ok(Effect {
            next: starting_all(alloc, &pairs)?,
            item,
        }),
    }
}

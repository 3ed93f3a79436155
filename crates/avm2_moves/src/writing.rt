// Properties that the player itself writes.

ghost use Rattle.std.specs.Prelude.{◌≡◌};
ghost use Rattle.avm2_meaning.specs.Script.{write_and};
ghost use Rattle.avm2_moves.specs.Answers.{Moves};

use avm2_effects::store_at;
use avm2_meaning::{Effect, Heap, Native};
use avm2_values::Refusal;
use flex_base::{ObjId, Text, Value};
use std::alloc::Global;

/// Writes a property that a component keeps, and then this is to be done.
#[tactic(auto, using(crate::proofs::Writes::by_storing))]
pub fn write_and(
    alloc: Global,
    heap: &mut Heap,
    object: ObjId,
    key: &str,
    value: Value,
    native: Native,
) -> Result<(Effect, Native), Refusal>
    ensures { Moves result heap.new (write_and object key.now value native heap.old) }
{
    let key = Text::make(alloc, key)?;
    let effect = store_at(alloc, heap, object, &key, value)?;
    Ok((effect, native))
}

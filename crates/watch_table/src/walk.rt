// The walk along a watched chain.

ghost use Rattle.std.specs.Prelude.{◌≡◌, ◌+◌, ◌≤◌, ◌&&◌, length, Some};
ghost use Rattle.std.specs.Str.{bytes_eq};
ghost use Rattle.flex_base.specs.Value.{is_object};
ghost use Rattle.flex_world.specs.Watching.{reaches};

use crate::fields::Fields;
use crate::steps::Steps;
use flex_base::{ObjId, Text};

// Whether the walk along the chain from the document reaches the object where the property is the
// next name.
pub fn reaches<W: Fields, L>(
    world: &W,
    document: ObjId,
    chain: &[Text],
    object: ObjId,
    property: &Text,
    steps: &mut Steps<L>,
) -> bool
    ensures value { result ≡ reaches (W.held world.now) object property.now chain.now (Some document) }
    ensures count { steps.new ≤ steps.old + length chain.now }
{
    let mut at = document;
    for name in chain {
        if is_here(at, name, object, property) {
            return true;
        }
        match world.field(at, name, steps) {
            Some(next) => at = next,
            None => return false,
        }
    }
    false
}

// Whether the walk has reached the object, and the property is the next name.
fn is_here(at: ObjId, next: &Text, object: ObjId, property: &Text) -> bool
    ensures { result ≡ (is_object at object && bytes_eq next.now property.now) }
{
    at.0 == object.0 && next.as_str() == property.as_str()
}

// What a native call gives.

ghost use Rattle.std.specs.Prelude.{◌≡◌};
ghost use Rattle.flex_base.specs.declared.value.Value.TheVariants as value;
ghost use Rattle.avm2_meaning.specs.Effects.{silent};
ghost use Rattle.avm2_meaning.specs.Replies.{with_value};
ghost use Rattle.avm2_meaning.specs.declared.effect.Next.TheVariants as Next;

use crate::effect::{Effect, Next};
use flex_base::Value;

/// What a native call gives, and what it comes to besides.
#[derive(Drop)]
pub struct Reply {
    /// A value, if it is there at once.
    pub value: Option<Value>,
    pub effect: Effect,
}

impl Reply {
    /// A value, and what the call comes to besides.
    pub fn with_value(value: Value, effect: Effect) -> Reply
        ensures { result ≡ with_value value effect }
    {
        Reply {
            value: Some(value),
            effect,
        }
    }

    /// A value, and nothing besides.
    pub fn gives(value: Value) -> Reply
        ensures { result ≡ with_value value (silent Next.On) }
    {
        Reply::with_value(value, Effect::silent(Next::On))
    }

    /// Undefined, and nothing besides.
    pub fn gives_nothing() -> Reply
        ensures { result ≡ with_value value.Undefined (silent Next.On) }
    {
        Reply::gives(Value::Undefined)
    }
}

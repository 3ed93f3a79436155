// Whole arithmetic: what leaves `int` stops the play. This project's own rule.

ghost use Rattle.std.specs.Prelude.{◌≡◌};
ghost use Rattle.flex_base.specs.Value.{add, add_whole, subtract, multiply, modulo, negate, joined_text, Computes};

use crate::conversion::to_text;
use crate::outcome::{RunRefusal, Stop};
use crate::text::Text;
use crate::value::Value;
use std::alloc::Global;

/// `a + b`: the sum, or `IntRange` where it isn't an `int`.
pub fn add_whole(a: i32, b: i32) -> Result<i32, Stop>
    ensures { result ≡ add_whole a b }
{
    a.checked_add(b).ok_or(Stop::IntRange)
}

/// `a - b`: the difference, or `IntRange` where it isn't an `int`.
pub fn subtract(a: i32, b: i32) -> Result<i32, Stop>
    ensures { result ≡ subtract a b }
{
    a.checked_sub(b).ok_or(Stop::IntRange)
}

/// `a * b`: the product, or `IntRange` where it isn't an `int`.
pub fn multiply(a: i32, b: i32) -> Result<i32, Stop>
    ensures { result ≡ multiply a b }
{
    a.checked_mul(b).ok_or(Stop::IntRange)
}

/// `a % b`: the remainder, with the sign of `a`, or `IntRange` where `b` is 0.
pub fn modulo(a: i32, b: i32) -> Result<i32, Stop>
    ensures { result ≡ modulo a b }
{
    match b {
        0 => Err(Stop::IntRange),
        -1 => Ok(0),
        _ => Ok(a % b),
    }
}

/// `-a`: the opposite number, or `IntRange` where it isn't an `int`.
pub fn negate(a: i32) -> Result<i32, Stop>
    ensures { result ≡ negate a }
{
    a.checked_neg().ok_or(Stop::IntRange)
}

/// The greatest number of bytes of a text that `add` makes.
const MOST_TEXT: usize = 2048;

/// `a + b`: the sum of two ints, or `IntRange`; with a text on either side both as texts, one
/// behind the other, or `TextLength` past 2,048 bytes. Any other pair is `Kind`, also an object or
/// a listener beside a text. ActionScript 3, with this project's own limits.
pub fn add(alloc: Global, a: &Value, b: &Value) -> Result<Value, RunRefusal>
    ensures { Computes result (add a.now b.now) }
{
    match (a, b) {
        (Value::Int(x), Value::Int(y)) => Ok(Value::Int(add_whole(*x, *y)?)),
        (Value::Text(_), _) | (_, Value::Text(_)) => joined_text(alloc, a, b),
        _ => Err(RunRefusal::Stop(Stop::Kind)),
    }
}

// Both sides as texts, one behind the other.
fn joined_text(alloc: Global, a: &Value, b: &Value) -> Result<Value, RunRefusal>
    ensures { Computes result (joined_text a.now b.now) }
{
    let front = to_text(alloc, a)?;
    let back = to_text(alloc, b)?;
    if front.as_str().len().saturating_add(back.as_str().len()) > MOST_TEXT {
        return Err(RunRefusal::Stop(Stop::TextLength));
    }
    let joined = format!(in alloc; "{}{}", front.as_str(), back.as_str())?;
    Ok(Value::Text(Text::make(alloc, &joined)?))
}

// Conversions of values. ActionScript 3, as far as this project has it.

ghost use Rattle.std.specs.Prelude.{◌≡◌, ◌≤◌, pos, length, IsTrue};
ghost use Rattle.std.specs.Char.{is_ascii_digit};
ghost use Rattle.std.specs.List.{list_all, list_any};
ghost use Rattle.std.specs.Str.Parse.{digits_value};
ghost use Rattle.flex_base.specs.Value.{to_int, text_to_int, signed_whole_of, whole_of, int_or, to_bool, to_text, coerce_text, length_of, Computes};
ghost use Rattle.flex_base.specs.declared.outcome.Stop.TheVariants.{NotWhole};

use crate::comparison::is_nothing;
use crate::memory::NoMemory;
use crate::outcome::{RunRefusal, Stop};
use crate::text::Text;
use crate::value::Value;
use std::alloc::Global;

/// Into an `int`: 0 for undefined, null and a text without a decimal digit; 0 or 1 for a Boolean;
/// the number for one to ten digits behind a minus or none that stand for an `int`. Any other text
/// is `NotWhole`, an object or a listener `Kind`.
pub fn to_int(v: &Value) -> Result<i32, Stop>
    ensures { result ≡ to_int v.now }
{
    match v {
        Value::Undefined | Value::Null => Ok(0),
        Value::Bool(b) => Ok(i32::from(*b)),
        Value::Int(n) => Ok(*n),
        Value::Text(text) => text_to_int(text.as_str().as_bytes()),
        Value::Ref(_) | Value::Listener(..) => Err(Stop::Kind),
    }
}

fn text_to_int(text: &[u8]) -> Result<i32, Stop>
    ensures { result ≡ text_to_int text.now }
{
    if !has_digit(text) {
        return Ok(0);
    }
    match text {
        [b'-', digits @ ..] => whole_of(true, digits),
        digits => whole_of(false, digits),
    }
}

// Whether a byte of a text is a decimal digit.
fn has_digit(text: &[u8]) -> bool
    ensures { result ≡ list_any is_ascii_digit text.now }
{
    text.iter().any(|byte| byte.is_ascii_digit())
}

// Whether each byte of a text is a decimal digit.
fn are_digits(text: &[u8]) -> bool
    ensures { result ≡ list_all is_ascii_digit text.now }
{
    text.iter().all(|byte| byte.is_ascii_digit())
}

// One to ten decimal digits that stand for an `int`, with a minus or without.
fn whole_of(negative: bool, digits: &[u8]) -> Result<i32, Stop>
    ensures { result ≡ whole_of negative digits.now }
{
    if digits.is_empty() || digits.len() > 10 || !are_digits(digits) {
        return Err(Stop::NotWhole);
    }
    let number = digits_value(digits);
    int_of(if negative { -number } else { number })
}

// A whole number, where it is an `int`.
fn int_of(number: i64) -> Result<i32, Stop>
    ensures { result ≡ int_or NotWhole number }
{
    match i32::try_from(number) {
        Ok(number) => Ok(number),
        Err(_) => Err(Stop::NotWhole),
    }
}

// What at most ten decimal digits stand for.
fn digits_value(digits: &[u8]) -> i64
    requires few { length digits.now ≤ 10 }
    requires are_digits { IsTrue (list_all is_ascii_digit digits.now) }
    ensures { result ≡ pos (digits_value 10 digits.now) }
{
    let mut number: u64 = 0;
    for digit in digits {
        number = 10 * number + u64::from(*digit - b'0');
    }
    number as i64
}

/// Into a Boolean: false for undefined, null, false, 0 and the empty text, otherwise true.
pub fn to_bool(v: &Value) -> bool
    ensures { result ≡ to_bool v.now }
{
    match v {
        Value::Undefined | Value::Null => false,
        Value::Bool(b) => *b,
        Value::Int(n) => *n != 0,
        Value::Text(text) => !text.as_str().is_empty(),
        Value::Ref(_) | Value::Listener(..) => true,
    }
}

/// `String(v)`: a number in decimal, `true`, `false`, `null`, `undefined`, or the text itself. An
/// object or a listener is `Kind`.
pub fn to_text(alloc: Global, v: &Value) -> Result<Text, RunRefusal>
    ensures { Computes result (to_text v.now) }
{
    match v {
        Value::Undefined => Ok(Text::make(alloc, "undefined")?),
        Value::Null => Ok(Text::make(alloc, "null")?),
        Value::Bool(true) => Ok(Text::make(alloc, "true")?),
        Value::Bool(false) => Ok(Text::make(alloc, "false")?),
        Value::Int(n) => Ok(Text::make(alloc, &format!(in alloc; "{n}")?)?),
        Value::Text(text) => Ok(text.clone()?),
        Value::Ref(_) | Value::Listener(..) => Err(RunRefusal::Stop(Stop::Kind)),
    }
}

/// Into a String variable: as `String(v)`, but undefined and null give null.
pub fn coerce_text(alloc: Global, v: &Value) -> Result<Value, RunRefusal>
    ensures { Computes result (coerce_text v.now) }
{
    if is_nothing(v) {
        return Ok(Value::Null);
    }
    Ok(Value::Text(to_text(alloc, v)?))
}

/// The length of a text, in units of UTF-16.
pub fn length_of(t: &Text) -> i32
    requires { length t.now ≤ 2147483647 }
    ensures { result ≡ pos (length_of t.now) }
{
    let mut units = 0;
    for character in t.as_str().chars() {
        units += character.len_utf16();
    }
    units as i32
}

// Comparisons of values. ActionScript 3, where unlike kinds stop the play by this project's own
// rule.

ghost use Rattle.std.specs.Prelude.{◌≡◌};
ghost use Rattle.flex_base.specs.Value.{same, equal, less, is_nothing, are_of_one_kind};

use crate::outcome::Stop;
use crate::value::Value;

/// `===`: whether kind and value are equal. The strict equality of ActionScript 3.
pub fn same(a: &Value, b: &Value) -> bool
    ensures { result ≡ same a.now b.now }
{
    match (a, b) {
        (Value::Undefined, Value::Undefined) | (Value::Null, Value::Null) => true,
        (Value::Bool(x), Value::Bool(y)) => x == y,
        (Value::Int(x), Value::Int(y)) => x == y,
        (Value::Text(x), Value::Text(y)) => x.as_str() == y.as_str(),
        (Value::Ref(x), Value::Ref(y)) => x.0 == y.0,
        (Value::Listener(x, m), Value::Listener(y, n)) => x.0 == y.0 && m == n,
        _ => false,
    }
}

/// `==`: undefined and null equal each other and nothing else; two values of one kind are compared
/// by value; any other pair is `Kind`.
pub fn equal(a: &Value, b: &Value) -> Result<bool, Stop>
    ensures { result ≡ equal a.now b.now }
{
    if is_nothing(a) || is_nothing(b) {
        Ok(is_nothing(a) && is_nothing(b))
    } else if are_of_one_kind(a, b) {
        Ok(same(a, b))
    } else {
        Err(Stop::Kind)
    }
}

/// `<`, of two ints; any other pair is `Kind`.
pub fn less(a: &Value, b: &Value) -> Result<bool, Stop>
    ensures { result ≡ less a.now b.now }
{
    match (a, b) {
        (Value::Int(x), Value::Int(y)) => Ok(x < y),
        _ => Err(Stop::Kind),
    }
}

// Whether the value is undefined or null.
pub(crate) fn is_nothing(value: &Value) -> bool
    ensures { result ≡ is_nothing value.now }
{
    matches!(value, Value::Undefined | Value::Null)
}

fn are_of_one_kind(a: &Value, b: &Value) -> bool
    ensures { result ≡ are_of_one_kind a.now b.now }
{
    matches!(
        (a, b),
        (Value::Bool(_), Value::Bool(_))
            | (Value::Int(_), Value::Int(_))
            | (Value::Text(_), Value::Text(_))
            | (Value::Ref(_), Value::Ref(_))
            | (Value::Listener(..), Value::Listener(..))
    )
}

// Operators.

/// An operator on two values. `!=`, `!==` and `>=` are `Not` of `Equal`, `Same` and `Less`.
#[derive(Clone, Copy, Debug, PartialEq, Eq)]
pub enum Operator {
    Plus,
    Minus,
    Times,
    Modulo,
    Less,
    LessOrEqual,
    Greater,
    /// `==`.
    Equal,
    /// `===`.
    Same,
}

// Operators and conversions on what lies on the stack.

ghost use Rattle.std.specs.Prelude.{◌≡◌};
ghost use Rattle.flex_base.specs.Value.{Computes};
ghost use Rattle.flex_world.specs.Operators.{less_or_equal, negated, on_ints, operate, truth};
ghost use Rattle.flex_base.specs.Value.{equal, less, modulo, multiply, subtract};
ghost use Rattle.avm2_meaning.specs.Act.{apply_operator, branch_where, inverted, negated_operand, on_top, same_plain, text_of};
ghost use Rattle.avm2_meaning.specs.declared.heap.Heap.{Heap};
ghost use Rattle.avm2_meaning.specs.Results.{all_plain, plain};
ghost use Rattle.avm2_values.specs.Answers.{Branches, Gives, GoesOn};

use crate::refusal::Refusal;
use crate::stack_moves::{push, take};
use avm2_meaning::{Operand, Stack, Work};
use flex_base::{
    MachineFault, RunRefusal, Sequence, Stop, Value, add, equal, less, modulo, multiply, negate,
    same, subtract, to_bool, to_text,
};
use flex_world::Operator;
use std::alloc::Global;

/// The value that an operand is.
pub fn plain(operand: Operand) -> Result<Value, Refusal>
    ensures { (h : Heap) → Gives result h (plain operand h) }
{
    match operand {
        Operand::Plain(value) => Ok(value),
        _ => Err(Refusal::from(MachineFault::WrongKind)),
    }
}

/// The values that operands are.
pub fn all_plain(alloc: Global, mut operands: Stack<Operand>) -> Result<Sequence<Value>, Refusal>
    ensures { (h : Heap) → Gives result h (all_plain operands h) }
{
    let mut values = Sequence::new(alloc);
    while let Some(operand) = operands.pop() {
        values.push(plain(operand)?)?;
    }
    Ok(values)
}

/// `String(v)` of the top of the stack.
pub fn make_text(alloc: Global, work: &mut Work) -> Result<(), Refusal>
    ensures { (h : Heap) → GoesOn result work.new h (on_top text_of work.old h) }
{
    let value = plain(take(work)?)?;
    let text = to_text(alloc, &value)?;
    push(work, Operand::Plain(Value::Text(text)))?;
    Ok(())
}

/// The top of the stack stays, which has to be a value.
pub fn keep_plain(work: &mut Work) -> Result<(), Refusal>
    ensures { (h : Heap) → GoesOn result work.new h (on_top same_plain work.old h) }
{
    let value = plain(take(work)?)?;
    push(work, Operand::Plain(value))?;
    Ok(())
}

/// The opposite of a whole number.
pub fn negate_value(value: &Value) -> Result<Value, Stop>
    ensures { result ≡ negated value.now }
{
    match value {
        Value::Int(n) => Ok(Value::Int(negate(*n)?)),
        _ => Err(Stop::Kind),
    }
}

/// The opposite of the top of the stack.
pub fn negate_top(work: &mut Work) -> Result<(), Refusal>
    ensures { (h : Heap) → GoesOn result work.new h (on_top negated_operand work.old h) }
{
    let value = plain(take(work)?)?;
    let result = negate_value(&value)?;
    push(work, Operand::Plain(result))?;
    Ok(())
}

/// Whether the top of the stack is false.
pub fn invert_top(work: &mut Work) -> Result<(), Refusal>
    ensures { (h : Heap) → GoesOn result work.new h (on_top inverted work.old h) }
{
    let value = plain(take(work)?)?;
    push(work, Operand::Plain(Value::Bool(!to_bool(&value))))?;
    Ok(())
}

/// Takes the top of the stack off: whether the branch of a condition is taken.
pub fn branch(work: &mut Work, condition: bool) -> Result<bool, Refusal>
    ensures { (h : Heap) → Branches result work.new h (branch_where condition work.old h) }
{
    let value = plain(take(work)?)?;
    Ok(to_bool(&value) == condition)
}

// The difference of two whole numbers.
fn difference(a: &Value, b: &Value) -> Result<Value, Stop>
    ensures { result ≡ on_ints subtract a.now b.now }
{
    match (a, b) {
        (Value::Int(a), Value::Int(b)) => Ok(Value::Int(subtract(*a, *b)?)),
        _ => Err(Stop::Kind),
    }
}

// The product of two whole numbers.
fn product(a: &Value, b: &Value) -> Result<Value, Stop>
    ensures { result ≡ on_ints multiply a.now b.now }
{
    match (a, b) {
        (Value::Int(a), Value::Int(b)) => Ok(Value::Int(multiply(*a, *b)?)),
        _ => Err(Stop::Kind),
    }
}

// The remainder of two whole numbers.
fn remainder(a: &Value, b: &Value) -> Result<Value, Stop>
    ensures { result ≡ on_ints modulo a.now b.now }
{
    match (a, b) {
        (Value::Int(a), Value::Int(b)) => Ok(Value::Int(modulo(*a, *b)?)),
        _ => Err(Stop::Kind),
    }
}

// Whether one whole number is below another.
fn is_less(a: &Value, b: &Value) -> Result<Value, Stop>
    ensures { result ≡ truth (less a.now b.now) }
{
    Ok(Value::Bool(less(a, b)?))
}

// Whether one whole number isn't above another.
fn is_not_above(a: &Value, b: &Value) -> Result<Value, Stop>
    ensures { result ≡ less_or_equal a.now b.now }
{
    Ok(Value::Bool(!less(b, a)?))
}

// Whether two values are equal by `==`.
fn is_equal(a: &Value, b: &Value) -> Result<Value, Stop>
    ensures { result ≡ truth (equal a.now b.now) }
{
    Ok(Value::Bool(equal(a, b)?))
}

/// What an operator gives of two values.
pub fn operate(alloc: Global, operator: Operator, a: &Value, b: &Value) -> Result<Value, RunRefusal>
    ensures { Computes result (operate operator a.now b.now) }
{
    match operator {
        Operator::Plus => add(alloc, a, b),
        Operator::Minus => Ok(difference(a, b)?),
        Operator::Times => Ok(product(a, b)?),
        Operator::Modulo => Ok(remainder(a, b)?),
        Operator::Less => Ok(is_less(a, b)?),
        Operator::LessOrEqual => Ok(is_not_above(a, b)?),
        Operator::Greater => Ok(is_less(b, a)?),
        Operator::Equal => Ok(is_equal(a, b)?),
        Operator::Same => Ok(Value::Bool(same(a, b))),
    }
}

/// An operator on the two upper operands.
pub fn apply_operator(alloc: Global, work: &mut Work, operator: Operator) -> Result<(), Refusal>
    ensures { (h : Heap) → GoesOn result work.new h (apply_operator operator work.old h) }
{
    let right = take(work)?;
    let left = take(work)?;
    let left = plain(left)?;
    let right = plain(right)?;
    let result = operate(alloc, operator, &left, &right)?;
    push(work, Operand::Plain(result))?;
    Ok(())
}

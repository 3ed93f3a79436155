// The operators of expressions.

ghost use Rattle.std.specs.Prelude.{◌≡◌};
ghost use Rattle.as3_parser.specs.Ahead.{kind_at};
ghost use Rattle.as3_parser.specs.Expressions.{strength};
ghost use Rattle.as3_parser.specs.Operators.{assignment_operator_at, operator_at, operator_of, step_operator_at, unary_operator_at};

use crate::reading::next_kind;
use crate::tree::{AssignmentOperator, BinaryOperator, StepOperator, UnaryOperator};
use as3_lexer::{Mark, Token, TokenKind};

/// The binary operator of a strength at a place.
pub fn operator_at(tokens: &[Token], at: usize, strength: u8) -> Option<BinaryOperator>
    ensures { result ≡ operator_at (kind_at tokens.now at) strength }
{
    match next_kind(tokens, at) {
        Some(TokenKind::Mark(mark)) => match operator_of(mark) {
            Some(operator) => {
                if strength_of(operator) == strength {
                    Some(operator)
                } else {
                    None
                }
            }
            None => None,
        },
        _ => None,
    }
}

// The binary operator that a mark is.
fn operator_of(mark: Mark) -> Option<BinaryOperator>
    ensures { result ≡ operator_of mark }
{
    match mark {
        Mark::Or => Some(BinaryOperator::Or),
        Mark::And => Some(BinaryOperator::And),
        Mark::Equal => Some(BinaryOperator::Equal),
        Mark::NotEqual => Some(BinaryOperator::NotEqual),
        Mark::StrictEqual => Some(BinaryOperator::StrictEqual),
        Mark::StrictNotEqual => Some(BinaryOperator::StrictNotEqual),
        Mark::Less => Some(BinaryOperator::Less),
        Mark::LessOrEqual => Some(BinaryOperator::LessOrEqual),
        Mark::Greater => Some(BinaryOperator::Greater),
        Mark::GreaterOrEqual => Some(BinaryOperator::GreaterOrEqual),
        Mark::Plus => Some(BinaryOperator::Add),
        Mark::Minus => Some(BinaryOperator::Subtract),
        Mark::Star => Some(BinaryOperator::Multiply),
        Mark::Percent => Some(BinaryOperator::Remainder),
        _ => None,
    }
}

// How strongly a binary operator binds.
fn strength_of(operator: BinaryOperator) -> u8
    ensures { result ≡ strength operator }
{
    match operator {
        BinaryOperator::Or => 1,
        BinaryOperator::And => 2,
        BinaryOperator::Equal
        | BinaryOperator::NotEqual
        | BinaryOperator::StrictEqual
        | BinaryOperator::StrictNotEqual => 3,
        BinaryOperator::Less
        | BinaryOperator::LessOrEqual
        | BinaryOperator::Greater
        | BinaryOperator::GreaterOrEqual => 4,
        BinaryOperator::Add | BinaryOperator::Subtract => 5,
        BinaryOperator::Multiply | BinaryOperator::Remainder => 6,
    }
}

/// The prefix operator at a place.
pub fn unary_operator_at(tokens: &[Token], at: usize) -> Option<UnaryOperator>
    ensures { result ≡ unary_operator_at (kind_at tokens.now at) }
{
    match next_kind(tokens, at) {
        Some(TokenKind::Mark(Mark::Minus)) => Some(UnaryOperator::Negate),
        Some(TokenKind::Mark(Mark::Not)) => Some(UnaryOperator::Not),
        _ => None,
    }
}

/// The assignment operator at a place.
pub fn assignment_operator_at(tokens: &[Token], at: usize) -> Option<AssignmentOperator>
    ensures { result ≡ assignment_operator_at (kind_at tokens.now at) }
{
    match next_kind(tokens, at) {
        Some(TokenKind::Mark(Mark::Assign)) => Some(AssignmentOperator::Assign),
        Some(TokenKind::Mark(Mark::PlusAssign)) => Some(AssignmentOperator::Add),
        Some(TokenKind::Mark(Mark::MinusAssign)) => Some(AssignmentOperator::Subtract),
        Some(TokenKind::Mark(Mark::StarAssign)) => Some(AssignmentOperator::Multiply),
        _ => None,
    }
}

/// The operator of a step at a place.
pub fn step_operator_at(tokens: &[Token], at: usize) -> Option<StepOperator>
    ensures { result ≡ step_operator_at (kind_at tokens.now at) }
{
    match next_kind(tokens, at) {
        Some(TokenKind::Mark(Mark::Increment)) => Some(StepOperator::Increment),
        Some(TokenKind::Mark(Mark::Decrement)) => Some(StepOperator::Decrement),
        _ => None,
    }
}

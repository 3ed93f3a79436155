// Operands of small works.

use crate::{Refusal, apply_operator, branch, get_local, get_scope, set_local, swap, take};
use avm2_meaning::{Operand, Stack, Work};
use flex_base::{MachineFault, NoMemory, Outcome, Sequence, Stop, Value};
use flex_world::Operator;
use std::alloc::Global;
use std::process::Abort;
use std::test::Fail;

// A work with these two operands, the second on top, and a local.
fn work_of(alloc: Global, lower: i32, upper: i32) -> Result<Work, NoMemory> {
    let mut stack = Stack::new(alloc);
    stack.push(Operand::Plain(Value::Int(lower)))?;
    stack.push(Operand::Plain(Value::Int(upper)))?;
    let mut locals = Sequence::new(alloc);
    locals.push(Operand::Natives)?;
    Ok(Work {
        method: 0,
        stack,
        scopes: Stack::new(alloc),
        locals,
    })
}

fn is_int(operand: &Operand, expected: i32) -> bool {
    matches!(operand, Operand::Plain(Value::Int(n)) if *n == expected)
}

#[test]
fn the_left_operand_lies_below(rt: HostRuntime) -> Result<(), Fail> {
    let alloc = rt.alloc();
    let mut work = work_of(alloc, 7, 3)?;
    assert!(rt; apply_operator(alloc, &mut work, Operator::Minus).is_ok());
    let is_difference = match take(&mut work) {
        Ok(operand) => is_int(&operand, 4),
        Err(_) => false,
    };
    assert!(rt; is_difference);
    Ok(())
}

#[test]
fn a_sum_that_leaves_int_stops(rt: HostRuntime) -> Result<(), Fail> {
    let alloc = rt.alloc();
    let mut work = work_of(alloc, 2147483647, 1)?;
    let sum = apply_operator(alloc, &mut work, Operator::Plus);
    assert!(rt; matches!(sum, Err(Refusal::Halt(Outcome::Stopped(Stop::IntRange)))));
    Ok(())
}

#[test]
fn what_is_not_there_is_a_fault(rt: HostRuntime) -> Result<(), Fail> {
    let alloc = rt.alloc();
    let mut work = work_of(alloc, 7, 3)?;
    let scope = get_scope(&mut work, 0);
    assert!(rt;
        matches!(
            scope,
            Err(Refusal::Halt(Outcome::Fault(MachineFault::NotHere)))
        )
    );
    Ok(())
}

#[test]
fn locals_and_branches(rt: HostRuntime) -> Result<(), Fail> {
    let alloc = rt.alloc();
    let mut work = work_of(alloc, 0, 3)?;
    assert!(rt; swap(&mut work).is_ok() && set_local(&mut work, 0).is_ok());
    assert!(rt; get_local(&mut work, 0).is_ok());
    assert!(rt; matches!(branch(&mut work, true), Ok(false)));
    assert!(rt; matches!(branch(&mut work, true), Ok(true)));
    Ok(())
}

// What instructions do to the stack, the scopes and the locals of a body alone.

ghost use Rattle.std.specs.Prelude.{◌≡◌};
ghost use Rattle.avm2_values.specs.Answers.{act_pop};
ghost use Rattle.avm2_meaning.specs.Act.{duplicate, get_local, get_scope, push_scope, set_local, swap, without_scope};
ghost use Rattle.avm2_meaning.specs.Effects.{pushes, with_top};
ghost use Rattle.avm2_meaning.specs.declared.heap.Heap.{Heap};
ghost use Rattle.avm2_values.specs.Answers.{GoesOn, Pushes, Takes};

use crate::refusal::Refusal;
use avm2_meaning::{Operand, Work};
use flex_base::{MachineFault, NoMemory};

/// Takes the top of the stack off.
pub fn take(work: &mut Work) -> Result<Operand, Refusal>
    ensures { Takes result work.old work.new }
{
    match work.stack.pop() {
        Some(operand) => Ok(operand),
        None => Err(Refusal::from(MachineFault::NotHere)),
    }
}

/// Puts an operand on the stack.
pub fn push(work: &mut Work, operand: Operand) -> Result<(), NoMemory>
    ensures { Pushes result operand work.old work.new }
{
    work.stack.push(operand)
}

/// The top of the stack once more.
pub fn duplicate(work: &mut Work) -> Result<(), Refusal>
    ensures { (h : Heap) → GoesOn result work.new h (duplicate work.old h) }
{
    let operand = take(work)?;
    let copy = operand.clone()?;
    push(work, operand)?;
    push(work, copy)?;
    Ok(())
}

/// The two upper operands change places.
pub fn swap(work: &mut Work) -> Result<(), Refusal>
    ensures { (h : Heap) → GoesOn result work.new h (swap work.old h) }
{
    let upper = take(work)?;
    let lower = take(work)?;
    push(work, upper)?;
    push(work, lower)?;
    Ok(())
}

/// Drops the top of the stack.
pub fn pop(work: &mut Work) -> Result<(), Refusal>
    ensures { (h : Heap) → GoesOn result work.new h (act_pop work.old h) }
{
    take(work)?;
    Ok(())
}

/// Opens the scope on top of the stack.
pub fn push_scope(work: &mut Work) -> Result<(), Refusal>
    ensures { (h : Heap) → GoesOn result work.new h (push_scope work.old h) }
{
    let scope = take(work)?;
    work.scopes.push(scope)?;
    Ok(())
}

/// Closes the inner scope.
pub fn pop_scope(work: &mut Work) -> Result<(), Refusal>
    ensures { (h : Heap) → GoesOn result work.new h (without_scope work.old work.old.scopes h) }
{
    match work.scopes.pop() {
        Some(_) => Ok(()),
        None => Err(Refusal::from(MachineFault::NotHere)),
    }
}

/// The scope of a number, counted from the outer one, goes onto the stack.
pub fn get_scope(work: &mut Work, number: u32) -> Result<(), Refusal>
    ensures { (h : Heap) → GoesOn result work.new h (get_scope number work.old h) }
{
    let Some(scope) = work.scopes.from_bottom(number as usize) else {
        return Err(Refusal::from(MachineFault::NotHere));
    };
    let scope = scope.clone()?;
    push(work, scope)?;
    Ok(())
}

/// The local of a number goes onto the stack.
pub fn get_local(work: &mut Work, number: u32) -> Result<(), Refusal>
    ensures { (h : Heap) → GoesOn result work.new h (get_local number work.old h) }
{
    let Some(local) = work.locals.get(number as usize) else {
        return Err(Refusal::from(MachineFault::NotHere));
    };
    let local = local.clone()?;
    push(work, local)?;
    Ok(())
}

/// The top of the stack goes into the local of a number.
#[tactic(auto, using(crate::proofs::Locals::set_changed))]
pub fn set_local(work: &mut Work, number: u32) -> Result<(), Refusal>
    ensures { (h : Heap) → GoesOn result work.new h (set_local number work.old h) }
{
    let operand = take(work)?;
    match work.locals.get_mut(number as usize) {
        Some(local) => {
            *local = operand;
            Ok(())
        }
        None => Err(Refusal::from(MachineFault::NotHere)),
    }
}

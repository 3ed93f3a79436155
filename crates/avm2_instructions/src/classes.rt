// Classes are made.

ghost use Rattle.std.specs.Prelude.{◌≡◌, IfOk};
ghost use Rattle.avm2_effects.specs.Answers.{Acts};
ghost use Rattle.avm2_instructions.specs.Forms.{act_new_class};
ghost use Rattle.avm2_meaning.specs.Heap.{with_made};
ghost use Rattle.avm2_meaning.specs.Invoking.{can_be_made, made_with, make_class, new_class, test_base};
ghost use Rattle.avm2_meaning.specs.Operands.{is_null};
ghost use Rattle.avm2_meaning.specs.declared.heap.Heap.{Heap};
ghost use Rattle.avm2_values.specs.Answers.{Leaves};

use avm2_effects::{body_of, initialiser, is_class};
use avm2_meaning::{Effect, Heap, MadeClass, Next, Operand, Stack, Statics, Work};
use avm2_program::{FileClass, Program};
use avm2_values::{Refusal, made_class, push, take};
use flex_base::{MachineFault, NoMemory, Sequence, Value};
use flex_world::{Class, StaticType};
use std::alloc::Global;

// Whether an operand is null.
fn is_null(operand: &Operand) -> bool
    ensures { result ≡ is_null operand.now }
{
    matches!(operand, Operand::Plain(Value::Null))
}

// Whether the class of a number can be made: once, and only where all of it is played.
fn can_be_made(program: &Program, heap: &Heap, number: u32, class: &FileClass) -> bool
    ensures { result ≡ can_be_made program.now number class.now heap.now }
{
    made_class(heap, number).is_none()
        && !class.is_unplayed
        && body_of(program, class.initialiser).is_some()
}

// An operand has to be the class value of a base, or null where there is no base.
fn expect_base(base: Option<StaticType>, operand: &Operand) -> Result<(), Refusal>
    ensures { (h : Heap) → Leaves result tt h (test_base base operand.now h) }
{
    let is_base = match base {
        None => is_null(operand),
        Some(StaticType::Unnamed) => return Err(Refusal::from(MachineFault::NoName)),
        Some(StaticType::Object(class)) => is_class(StaticType::Object(class), operand),
        Some(_) => false,
    };
    if is_base {
        Ok(())
    } else {
        Err(Refusal::from(MachineFault::WrongKind))
    }
}

// The same operands once more.
fn copy_of_scopes(alloc: Global, scopes: &Stack<Operand>) -> Result<Stack<Operand>, NoMemory>
    ensures { IfOk result (λ copy. copy ≡ scopes.now) }
{
    let mut copy = Sequence::new(alloc);
    for scope in scopes.bottom_up() {
        copy.push(scope.clone()?)?;
    }
    Ok(Stack::from_sequence(copy))
}

// The same values once more.
fn copy_of_slots(alloc: Global, slots: &[Value]) -> Result<Sequence<Value>, NoMemory>
    ensures { IfOk result (λ copy. copy ≡ slots.now) }
{
    let mut copy = Sequence::new(alloc);
    for slot in slots {
        copy.push(slot.clone()?)?;
    }
    Ok(copy)
}

// A class as it is made, with these scopes open.
fn made_with(
    alloc: Global,
    scopes: &Stack<Operand>,
    class: &FileClass,
) -> Result<MadeClass, NoMemory>
    ensures { IfOk result (λ made. made ≡ made_with scopes.now class.now) }
{
    Ok(MadeClass {
        scopes: copy_of_scopes(alloc, scopes)?,
        statics: Statics {
            slots: copy_of_slots(alloc, class.own_slots.as_slice())?,
            written: Stack::new(alloc),
        },
    })
}

// Keeps a class that was made.
#[tactic(auto, using(crate::proofs::Kept::set_changed, crate::proofs::Kept::unchanged))]
fn keep(heap: &mut Heap, number: u32, made: MadeClass)
    ensures { heap.new ≡ with_made made number heap.old }
{
    if let Some(kept) = heap.classes.get_mut(number as usize) {
        *kept = Some(made);
    }
}

// Makes a class, whose initialiser is to run on it.
#[tactic(auto, using(crate::proofs::Kept::class_made))]
fn make_class(
    alloc: Global,
    program: &Program,
    heap: &mut Heap,
    work: &mut Work,
    number: u32,
    class: &FileClass,
) -> Result<Effect, Refusal>
    ensures { Acts result work.new heap.new
        (make_class program.now number class.now work.old heap.old) }
{
    let value = Operand::ClassValue(StaticType::Object(Class::File(number)));
    let call = initialiser(alloc, program, heap, class.initialiser, value.clone()?)?;
    let made = made_with(alloc, &work.scopes, class)?;
    keep(heap, number, made);
    push(work, value)?;
    Ok(Effect::silent(Next::Initialises(number, call)))
}

// Makes a class whose base this operand has to be.
fn make_over(
    alloc: Global,
    program: &Program,
    heap: &mut Heap,
    work: &mut Work,
    number: u32,
    base: &Operand,
) -> Result<Effect, Refusal>
    ensures { Acts result work.new heap.new
        (new_class program.now number base.now work.old heap.old) }
{
    let Some(class) = program.classes.get(number as usize) else {
        return Err(Refusal::from(MachineFault::NotHere));
    };
    if !can_be_made(program, heap, number, class) {
        return Err(Refusal::from(MachineFault::NotHere));
    }
    expect_base(class.base, base)?;
    make_class(alloc, program, heap, work, number, class)
}

/// Makes the class of a number, whose base is on top of the stack: its initialiser is to run.
pub fn new_class(
    alloc: Global,
    program: &Program,
    heap: &mut Heap,
    work: &mut Work,
    number: u32,
) -> Result<Effect, Refusal>
    ensures { Acts result work.new heap.new
        (act_new_class program.now number work.old heap.old) }
{
    let base = take(work)?;
    make_over(alloc, program, heap, work, number, &base)
}

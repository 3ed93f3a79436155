// Where code finds a name: in the open scopes, in those that were open when its class was made, in
// the scripts, and in the native script.

ghost use Rattle.std.specs.List.{find};
ghost use Rattle.std.specs.Option.{option_copied};
ghost use Rattle.std.specs.Prelude.{◌++◌, ◌≡◌, IfOk, option_and_then};
ghost use Rattle.avm2_instructions.specs.Finding.{has_name};
ghost use Rattle.avm2_meaning.specs.Act.{find_property, get_lex, read_found};
ghost use Rattle.avm2_meaning.specs.Classes.{owner_of};
ghost use Rattle.avm2_meaning.specs.Heap.{made_class};
ghost use Rattle.avm2_meaning.specs.Members.{all_scripts, class_scopes, holders, look_up, scripts_and_native};
ghost use Rattle.avm2_meaning.specs.declared.heap.Heap.{Heap};
ghost use Rattle.avm2_meaning.specs.declared.operand.Operand.{Operand};
ghost use Rattle.avm2_values.specs.Answers.{Gives, GoesOn};

use avm2_effects::owner_of;
use avm2_meaning::{Heap, MadeClass, Operand, Stack, Work};
use avm2_program::{Name, Program};
use avm2_values::{Refusal, made_class, member, push, read};
use flex_base::{MachineFault, NoMemory};

// Whether an operand has a name.
fn has_name(
    program: &Program,
    heap: &Heap,
    operand: &Operand,
    name: &Name,
) -> Result<bool, NoMemory>
    ensures { IfOk result (λ has. has ≡ has_name program.now name.now heap.now operand.now) }
{
    Ok(member(program, heap, operand, name)?.is_some())
}

// The first of the operands of a stack, from the top, that has a name.
#[tactic(auto, using(crate::proofs::Finding::last_met))]
fn first_on(
    program: &Program,
    heap: &Heap,
    operands: &Stack<Operand>,
    name: &Name,
) -> Result<Option<Operand>, NoMemory>
    ensures { IfOk result (λ first. first ≡
        find (has_name program.now name.now heap.now) operands.now) }
{
    let mut rest = operands.bottom_up();
    while let Some((operand, others)) = rest.split_last() {
        if has_name(program, heap, operand, name)? {
            return Ok(Some(operand.clone()?));
        }
        rest = others;
    }
    Ok(None)
}

// The class of a method, if it was made.
fn class_of_method<'h>(program: &Program, heap: &'h Heap, method: u32) -> Option<&'h MadeClass>
    ensures { option_copied result ≡
        option_and_then (λ k. made_class k heap.now) (owner_of program.now method) }
{
    made_class(heap, owner_of(program, method)?)
}

// The first that has a name among the scopes that were open when the class of a method was made.
fn first_in_class(
    program: &Program,
    heap: &Heap,
    method: u32,
    name: &Name,
) -> Result<Option<Operand>, NoMemory>
    ensures { IfOk result (λ first. first ≡
        find (has_name program.now name.now heap.now) (class_scopes program.now method heap.now)) }
{
    match class_of_method(program, heap, method) {
        Some(made) => first_on(program, heap, &made.scopes, name),
        None => Ok(None),
    }
}

// The native script, if it has a name.
fn native_script(program: &Program, heap: &Heap, name: &Name) -> Result<Option<Operand>, NoMemory>
    ensures { IfOk result (λ first. first ≡
        find (has_name program.now name.now heap.now) (scripts_and_native program.now 0 0)) }
{
    if has_name(program, heap, &Operand::Natives, name)? {
        Ok(Some(Operand::Natives))
    } else {
        Ok(None)
    }
}

// The first of the scripts that has a name, the native one last.
#[tactic(auto, using(crate::proofs::Finding::script_met))]
fn first_script(program: &Program, heap: &Heap, name: &Name) -> Result<Option<Operand>, NoMemory>
    ensures { IfOk result (λ first. first ≡
        find (has_name program.now name.now heap.now) (all_scripts program.now)) }
{
    let mut number: u32 = 0;
    let mut left = program.scripts.len();
    while left > 0 {
        left -= 1;
        let script = Operand::ScriptValue(number);
        if has_name(program, heap, &script, name)? {
            return Ok(Some(script));
        }
        number = number.checked_add(1).ok_or(NoMemory)?;
    }
    let native = native_script(program, heap, name)?;
    Ok(native)
}

// The first behind the open scopes of a body that has a name.
#[tactic(auto, using(crate::proofs::Finding::found_in_front, crate::proofs::Finding::found_behind))]
fn first_behind(
    program: &Program,
    heap: &Heap,
    method: u32,
    name: &Name,
) -> Result<Option<Operand>, NoMemory>
    ensures { IfOk result (λ first. first ≡
        find (has_name program.now name.now heap.now)
        (class_scopes program.now method heap.now ++ all_scripts program.now)) }
{
    match first_in_class(program, heap, method, name)? {
        Some(operand) => Ok(Some(operand)),
        None => first_script(program, heap, name),
    }
}

// The first that has a name where the code of a body looks for it.
#[tactic(auto, using(crate::proofs::Finding::found_in_front, crate::proofs::Finding::found_behind))]
fn first_holder(
    program: &Program,
    heap: &Heap,
    work: &Work,
    name: &Name,
) -> Result<Option<Operand>, NoMemory>
    ensures { IfOk result (λ first. first ≡
        find (has_name program.now name.now heap.now) (holders program.now work.now heap.now)) }
{
    match first_on(program, heap, &work.scopes, name)? {
        Some(operand) => Ok(Some(operand)),
        None => first_behind(program, heap, work.method, name),
    }
}

// The holder of a name, as the code of a body looks for it.
fn look_up(program: &Program, heap: &Heap, work: &Work, name: &Name) -> Result<Operand, Refusal>
    ensures { Gives result heap.now (look_up program.now work.now name.now heap.now) }
{
    match first_holder(program, heap, work, name)? {
        Some(operand) => Ok(operand),
        None => Err(Refusal::from(MachineFault::NoName)),
    }
}

/// The holder of a name goes onto the stack.
pub fn find_property(
    program: &Program,
    heap: &Heap,
    work: &mut Work,
    name: &Name,
) -> Result<(), Refusal>
    ensures { GoesOn result work.new heap.now
        (find_property program.now name.now work.old heap.now) }
{
    let holder = look_up(program, heap, work, name)?;
    push(work, holder)?;
    Ok(())
}

// The value of a name at the holder that was found.
fn read_found(
    program: &Program,
    heap: &Heap,
    holder: &Operand,
    name: &Name,
) -> Result<Operand, Refusal>
    ensures { Gives result heap.now (read_found program.now holder.now name.now heap.now) }
{
    match member(program, heap, holder, name)? {
        Some(member) => read(heap, holder, &member),
        None => Err(Refusal::from(MachineFault::NoName)),
    }
}

/// The value of a name goes onto the stack.
pub fn get_lex(program: &Program, heap: &Heap, work: &mut Work, name: &Name) -> Result<(), Refusal>
    ensures { GoesOn result work.new heap.now (get_lex program.now name.now work.old heap.now) }
{
    let holder = look_up(program, heap, work, name)?;
    let value = read_found(program, heap, &holder, name)?;
    push(work, value)?;
    Ok(())
}

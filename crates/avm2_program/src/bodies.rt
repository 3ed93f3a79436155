// The instructions of a body made ready.

ghost use Rattle.std.specs.List.Sorted.{IsNonDecreasingBy};
ghost use Rattle.std.specs.Prelude.{◌≡◌, [], IfOk};
ghost use Rattle.avm2_code.specs.declared.body.PlacedInstruction.{PlacedInstruction};
ghost use Rattle.verified_code.specs.Operands.{is_late};
ghost use Rattle.avm2_program.specs.Decoding.{target};
ghost use Rattle.avm2_program.specs.Naming.{name_at, naming_with};
ghost use Rattle.avm2_program.specs.Operations.{operation, operations, operations_of, pushed_int, read_of, write_of};

use crate::branches::target;
use crate::names::{Name, OwnName};
use crate::operation::Operation;
use crate::pool::{entry_of, name_at, string_at};
use crate::types::type_at;
use abc_format::{Abc, Multiname, MultinameIndex, StringIndex};
use avm2_code::{Instruction, PlacedInstruction, instructions_of};
use flex_base::{NoMemory, Sequence, Value};
use flex_world::{Operator, StaticType};
use std::alloc::Global;

// Whether the text of a name comes from the stack.
fn is_late(abc: &Abc, number: u32) -> bool
    ensures { result ≡ is_late abc.now.constant_pool number }
{
    matches!(
        entry_of(abc.constant_pool.multinames.as_slice(), number),
        Some(Multiname::MultinameL { .. } | Multiname::MultinameLA { .. })
    )
}

// The push of an int of the pool.
fn pushed_int(abc: &Abc, number: u32) -> Operation
    ensures { result ≡ pushed_int (naming_with abc.now []) number }
{
    match entry_of(abc.constant_pool.integers.as_slice(), number) {
        Some(int) => Operation::Push(Value::Int(*int)),
        None => Operation::Push(Value::Int(0)),
    }
}

// A name that code looks up.
fn named(alloc: Global, abc: &Abc, number: u32) -> Result<Name, NoMemory>
    ensures { IfOk result (λ found. found ≡ name_at abc.now number) }
{
    name_at(alloc, abc, MultinameIndex::new(number))
}

// The read of a property, or of an element where the text of the name comes from the stack.
fn read(alloc: Global, abc: &Abc, number: u32) -> Result<Operation, NoMemory>
    ensures { IfOk result (λ ready. ready ≡ read_of (naming_with abc.now []) number) }
{
    if is_late(abc, number) {
        return Ok(Operation::GetElement);
    }
    Ok(Operation::GetProperty(named(alloc, abc, number)?))
}

// The write of a property, or of an element.
fn written(alloc: Global, abc: &Abc, number: u32) -> Result<Operation, NoMemory>
    ensures { IfOk result (λ ready. ready ≡ write_of (naming_with abc.now []) number) }
{
    if is_late(abc, number) {
        return Ok(Operation::SetElement);
    }
    Ok(Operation::SetProperty(named(alloc, abc, number)?))
}

/// The operations of a body's code: its instructions made ready.
pub fn operations(
    alloc: Global,
    abc: &Abc,
    classes: &[Option<OwnName>],
    code: &[u8],
) -> Result<Sequence<Operation>, NoMemory>
    ensures { IfOk result (λ ready. ready ≡ operations (naming_with abc.now classes.now) code.now) }
{
    let instructions = instructions_of(alloc, code)?;
    all_operations(alloc, abc, classes, instructions.as_slice())
}

// Instructions made ready.
fn all_operations(
    alloc: Global,
    abc: &Abc,
    classes: &[Option<OwnName>],
    code: &[PlacedInstruction],
) -> Result<Sequence<Operation>, NoMemory>
    requires { IsNonDecreasingBy (λ (d : PlacedInstruction). d.place) code.now }
    ensures { IfOk result (λ ready. ready ≡ operations_of (naming_with abc.now classes.now) code.now) }
{
    let mut ready = Sequence::new(alloc);
    for placed in code {
        ready.push(operation(alloc, abc, classes, code, *placed)?)?;
    }
    Ok(ready)
}

// An instruction of a body made ready.
fn operation(
    alloc: Global,
    abc: &Abc,
    classes: &[Option<OwnName>],
    code: &[PlacedInstruction],
    placed: PlacedInstruction,
) -> Result<Operation, NoMemory>
    requires { IsNonDecreasingBy (λ (d : PlacedInstruction). d.place) code.now }
    ensures { IfOk result (λ ready. ready ≡
        operation (naming_with abc.now classes.now) (target code.now placed.next) placed.instruction) }
{
    let next = placed.next;
    Ok(match placed.instruction {
        Instruction::Label => Operation::Label,
        Instruction::Jump { offset } => Operation::Jump(target(code, next, offset)?),
        Instruction::IfTrue { offset } => Operation::Branch(true, target(code, next, offset)?),
        Instruction::IfFalse { offset } => Operation::Branch(false, target(code, next, offset)?),
        Instruction::PopScope => Operation::PopScope,
        Instruction::PushNull => Operation::Push(Value::Null),
        Instruction::PushUndefined => Operation::Push(Value::Undefined),
        Instruction::PushByte { value } => Operation::Push(Value::Int(i32::from(value))),
        Instruction::PushTrue => Operation::Push(Value::Bool(true)),
        Instruction::PushFalse => Operation::Push(Value::Bool(false)),
        Instruction::Pop => Operation::Pop,
        Instruction::Dup => Operation::Dup,
        Instruction::Swap => Operation::Swap,
        Instruction::PushString { string } => {
            Operation::Push(Value::Text(string_at(alloc, abc, StringIndex::new(string))?))
        }
        Instruction::PushInt { int } => pushed_int(abc, int),
        Instruction::PushScope => Operation::PushScope,
        Instruction::CallSuper { name, count } => Operation::CallSuper(
            named(alloc, abc, name)?,
            count,
        ),
        Instruction::CallProperty { name, count } => {
            Operation::CallProperty(true, named(alloc, abc, name)?, count)
        }
        Instruction::ReturnVoid => Operation::ReturnVoid,
        Instruction::ReturnValue => Operation::ReturnValue,
        Instruction::ConstructSuper { count } => Operation::ConstructSuper(count),
        Instruction::ConstructProp { name, count } => {
            Operation::ConstructProperty(named(alloc, abc, name)?, count)
        }
        Instruction::CallPropVoid { name, count } => {
            Operation::CallProperty(false, named(alloc, abc, name)?, count)
        }
        Instruction::NewArray { count } => Operation::NewArray(count),
        Instruction::NewClass { class } => Operation::NewClass(class),
        Instruction::FindPropStrict { name } => Operation::FindProperty(named(alloc, abc, name)?),
        Instruction::GetLex { name } => Operation::GetLex(named(alloc, abc, name)?),
        Instruction::SetProperty { name } => written(alloc, abc, name)?,
        Instruction::GetLocal { local } => Operation::GetLocal(local),
        Instruction::SetLocal { local } => Operation::SetLocal(local),
        Instruction::GetScopeObject { scope } => Operation::GetScopeObject(u32::from(scope)),
        Instruction::GetProperty { name } => read(alloc, abc, name)?,
        Instruction::InitProperty { name } => Operation::SetProperty(named(alloc, abc, name)?),
        Instruction::ConvertString => Operation::ToText,
        Instruction::ConvertInt => Operation::Convert(StaticType::Int),
        Instruction::ConvertBoolean => Operation::Convert(StaticType::Boolean),
        Instruction::Coerce { name } => {
            Operation::Convert(type_at(alloc, abc, classes, MultinameIndex::new(name))?)
        }
        Instruction::CoerceAny => Operation::CoerceAny,
        Instruction::CoerceString => Operation::Convert(StaticType::String),
        Instruction::Negate => Operation::Negate,
        Instruction::Not => Operation::Not,
        Instruction::Add => Operation::Apply(Operator::Plus),
        Instruction::Subtract => Operation::Apply(Operator::Minus),
        Instruction::Multiply => Operation::Apply(Operator::Times),
        Instruction::Modulo => Operation::Apply(Operator::Modulo),
        Instruction::Equals => Operation::Apply(Operator::Equal),
        Instruction::StrictEquals => Operation::Apply(Operator::Same),
        Instruction::LessThan => Operation::Apply(Operator::Less),
        Instruction::LessEquals => Operation::Apply(Operator::LessOrEqual),
        Instruction::GreaterThan => Operation::Apply(Operator::Greater),
        Instruction::GetLocal0 => Operation::GetLocal(0),
        Instruction::GetLocal1 => Operation::GetLocal(1),
        Instruction::GetLocal2 => Operation::GetLocal(2),
        Instruction::GetLocal3 => Operation::GetLocal(3),
        Instruction::SetLocal0 => Operation::SetLocal(0),
        Instruction::SetLocal1 => Operation::SetLocal(1),
        Instruction::SetLocal2 => Operation::SetLocal(2),
        Instruction::SetLocal3 => Operation::SetLocal(3),
        Instruction::Debug { .. } | Instruction::DebugLine { .. } | Instruction::DebugFile { .. } =>
            { Operation::Skip }
    })
}

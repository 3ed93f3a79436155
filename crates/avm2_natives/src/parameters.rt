// The arguments of native calls, converted into what their parameters take.

ghost use Rattle.std.specs.Prelude.{◌≡◌, IfOk};
ghost use Rattle.flex_world.specs.Classes.{native_descends, static_type};
ghost use Rattle.flex_world.specs.Conversions.{accepts, constructor_parameters, left_out};
ghost use Rattle.flex_world.specs.Making.{start_value};
ghost use Rattle.component_catalog.specs.declared.class.NativeClass.TheVariants as native;
ghost use Rattle.avm2_meaning.specs.Conversions.{into_kind, into_parameter, into_parameters, native_arguments};
ghost use Rattle.avm2_meaning.specs.Making.{constructor_arguments};
ghost use Rattle.avm2_values.specs.Answers.{Gives};

use avm2_meaning::{Heap, Operand, Stack};
use avm2_program::Program;
use avm2_values::{Refusal, convert_value, plain};
use component_catalog::{NativeClass, Parameter, StartValue, ValueType};
use flex_base::{MachineFault, NoMemory, Stop, Text, Value};
use flex_world::{Class, StaticType};
use std::alloc::Global;

// A type of the catalog.
fn static_type(kind: ValueType) -> StaticType
    ensures { result ≡ static_type kind }
{
    match kind {
        ValueType::Int => StaticType::Int,
        ValueType::Boolean => StaticType::Boolean,
        ValueType::String => StaticType::String,
        ValueType::Object(class) => StaticType::Object(Class::Native(class)),
        ValueType::Any => StaticType::Any,
    }
}

// The value that stands where a call leaves an argument out.
fn start_value(alloc: Global, start: StartValue) -> Result<Value, NoMemory>
    ensures { IfOk result (λ value. value ≡ start_value start) }
{
    match start {
        StartValue::Null => Ok(Value::Null),
        StartValue::Bool(b) => Ok(Value::Bool(b)),
        StartValue::Int(n) => Ok(Value::Int(n)),
        StartValue::EmptyText => Ok(Value::Text(Text::make(alloc, "")?)),
    }
}

// Whether a native call may give so many arguments.
#[tactic(auto, using(crate::proofs::Counted::one_accepted))]
fn accepts(parameters: &[Parameter], count: usize) -> bool
    ensures { result ≡ accepts parameters.now count }
{
    let Some((parameter, others)) = parameters.split_first() else {
        return count == 0;
    };
    if count > 0 {
        return accepts(others, count - 1);
    }
    matches!(parameter, Parameter::Optional(..)) && accepts(others, 0)
}

// A value of a type of the catalog.
fn into_kind(
    alloc: Global,
    program: &Program,
    heap: &Heap,
    kind: ValueType,
    operand: Operand,
) -> Result<Value, Refusal>
    ensures { Gives result heap.now (into_kind program.now kind operand heap.now) }
{
    let value = plain(operand)?;
    convert_value(alloc, program, heap, static_type(kind), value)
}

// What a parameter takes.
fn into_parameter(
    alloc: Global,
    program: &Program,
    heap: &Heap,
    parameter: Parameter,
    operand: Operand,
) -> Result<Value, Refusal>
    ensures { Gives result heap.now (into_parameter program.now parameter operand heap.now) }
{
    match parameter {
        Parameter::Required(kind) => into_kind(alloc, program, heap, kind, operand),
        Parameter::Optional(kind, _) => into_kind(alloc, program, heap, kind, operand),
        Parameter::Listener => match operand {
            Operand::Plain(Value::Listener(object, method)) => Ok(Value::Listener(object, method)),
            _ => Err(Refusal::from(MachineFault::WrongKind)),
        },
    }
}

// The values of parameters that a call leaves out.
fn left_out(alloc: Global, parameters: &[Parameter]) -> Result<Stack<Value>, NoMemory>
    ensures { IfOk result (λ values. values ≡ left_out parameters.now) }
{
    let Some((parameter, others)) = parameters.split_first() else {
        return Ok(Stack::new(alloc));
    };
    let mut values = left_out(alloc, others)?;
    if let Parameter::Optional(_, start) = parameter {
        values.push(start_value(alloc, *start)?)?;
    }
    Ok(values)
}

// Arguments into what their parameters take, from left to right, and behind them the values of
// parameters that are left out.
fn into_parameters(
    alloc: Global,
    program: &Program,
    heap: &Heap,
    parameters: &[Parameter],
    mut operands: Stack<Operand>,
) -> Result<Stack<Value>, Refusal>
    ensures { Gives result heap.now
        (into_parameters program.now parameters.now operands heap.now) }
{
    let Some((parameter, others)) = parameters.split_first() else {
        return Ok(Stack::new(alloc));
    };
    let Some(operand) = operands.pop() else {
        return Ok(left_out(alloc, parameters)?);
    };
    let value = into_parameter(alloc, program, heap, *parameter, operand)?;
    let mut values = into_parameters(alloc, program, heap, others, operands)?;
    values.push(value)?;
    Ok(values)
}

/// The arguments of a native call, the first on top: they are counted before they are converted.
pub fn native_arguments(
    alloc: Global,
    program: &Program,
    heap: &Heap,
    parameters: &[Parameter],
    arguments: Stack<Operand>,
) -> Result<Stack<Value>, Refusal>
    ensures { Gives result heap.now
        (native_arguments program.now parameters.now arguments heap.now) }
{
    if !accepts(parameters, arguments.len()) {
        return Err(Refusal::from(MachineFault::WrongCount));
    }
    into_parameters(alloc, program, heap, parameters, arguments)
}

// The parameters of the constructor of a class of the catalog: only that of an event takes any.
fn constructor_parameters(class: NativeClass) -> &'static [Parameter]
    ensures { result.now ≡ constructor_parameters class }
{
    match class {
        NativeClass::Event | NativeClass::MouseEvent | NativeClass::FlexEvent => {
            &[Parameter::Required(ValueType::String), FLAG, FLAG]
        }
        NativeClass::EventDispatcher
        | NativeClass::State
        | NativeClass::UIComponent
        | NativeClass::SkinnableContainer
        | NativeClass::Group
        | NativeClass::VGroup
        | NativeClass::HGroup
        | NativeClass::Application
        | NativeClass::Panel
        | NativeClass::Label
        | NativeClass::Button
        | NativeClass::ToggleButton
        | NativeClass::CheckBox
        | NativeClass::TextInput => &[],
    }
}

// A flag that is false where a call leaves it out.
const FLAG: Parameter = Parameter::Optional(ValueType::Boolean, StartValue::Bool(false));

/// The arguments of a native constructor, the first on top: an event takes its fields, and stops at
/// a type that is null; the others take nothing.
pub fn constructor_arguments(
    alloc: Global,
    program: &Program,
    heap: &Heap,
    class: NativeClass,
    arguments: Stack<Operand>,
) -> Result<Stack<Value>, Refusal>
    ensures { Gives result heap.now
        (constructor_arguments program.now class arguments heap.now) }
{
    let parameters = constructor_parameters(class);
    let mut values = native_arguments(alloc, program, heap, parameters, arguments)?;
    match values.pop() {
        Some(Value::Null) => Err(Refusal::from(Stop::NullReference)),
        Some(first) => {
            values.push(first)?;
            Ok(values)
        }
        None => Ok(values),
    }
}

// Finding what a name is: at a value, and in code.

ghost use Rattle.std.specs.Option.{option_copied};
ghost use Rattle.std.specs.Prelude.{◌≡◌, IfOk, None, Some};
ghost use Rattle.avm2_meaning.specs.Heap.{made_class, statics_of};
ghost use Rattle.avm2_meaning.specs.Members.{found, kind_member, member, script_member};
ghost use Rattle.avm2_values.specs.Answers.{Gives};

use crate::members::{builtin_member, class_member, member_among};
use crate::refusal::Refusal;
use avm2_meaning::{Heap, MadeClass, Operand, Statics};
use avm2_program::{Member, Name, Program, native_type};
use flex_base::{MachineFault, NoMemory, ObjId, Stop, Value};
use flex_objects::Entity;
use flex_world::{Class, StaticType};

/// The class of a number, if it was made.
pub fn made_class(heap: &Heap, class: u32) -> Option<&MadeClass>
    ensures { option_copied result ≡ made_class class heap.now }
{
    heap.classes.get(class as usize)?.as_ref()
}

/// What a class value or a script value keeps for its own traits.
pub fn statics_of<'h>(heap: &'h Heap, holder: &Operand) -> Option<&'h Statics>
    ensures { option_copied result ≡ statics_of holder.now heap.now }
{
    match holder {
        Operand::ClassValue(StaticType::Object(Class::File(class))) => {
            Some(&made_class(heap, *class)?.statics)
        }
        Operand::ScriptValue(script) => heap.scripts.get(*script as usize),
        _ => None,
    }
}

// What a name is at the native script.
fn script_member(name: &Name) -> Option<Member>
    ensures { result ≡ script_member name.now }
{
    if name.has_package("") && name.text.as_str() == "trace" {
        return Some(Member::Trace);
    }
    let kind = native_type(name)?;
    Some(Member::ClassOf(kind))
}

// What a name is at an object.
fn entity_member(
    program: &Program,
    entity: &Entity,
    name: &Name,
) -> Result<Option<Member>, NoMemory>
    ensures { IfOk result (λ found. found ≡ kind_member program.now entity.now.object.kind name.now) }
{
    match entity.class() {
        Some(class) => class_member(program, class, name),
        None => builtin_member(StaticType::Array, name),
    }
}

/// What a name is at a value.
pub fn member(
    program: &Program,
    heap: &Heap,
    holder: &Operand,
    name: &Name,
) -> Result<Option<Member>, NoMemory>
    ensures { IfOk result (λ found. found ≡ member program.now holder.now name.now heap.now) }
{
    match holder {
        Operand::Plain(Value::Ref(object)) => match heap.stage.objects.get(*object) {
            Some(entity) => entity_member(program, entity, name),
            None => Ok(None),
        },
        Operand::Plain(Value::Text(_)) => builtin_member(StaticType::String, name),
        Operand::ClassValue(StaticType::Object(Class::File(class))) => {
            match program.classes.get(*class as usize) {
                Some(class) => member_among(name, class.own_members.as_slice()),
                None => Ok(None),
            }
        }
        Operand::ScriptValue(script) => match program.scripts.get(*script as usize) {
            Some(script) => member_among(name, script.members.as_slice()),
            None => Ok(None),
        },
        Operand::Natives => Ok(script_member(name)),
        _ => Ok(None),
    }
}

/// What a name is at the receiver of an instruction.
pub fn found(
    program: &Program,
    heap: &Heap,
    holder: &Operand,
    name: &Name,
) -> Result<Member, Refusal>
    ensures { Gives result heap.now (found program.now holder.now name.now heap.now) }
{
    match holder {
        Operand::Plain(Value::Undefined | Value::Null) => Err(Refusal::from(Stop::NullReference)),
        Operand::Plain(Value::Int(_) | Value::Bool(_) | Value::Listener(..)) => {
            Err(Refusal::from(MachineFault::WrongKind))
        }
        _ => match member(program, heap, holder, name)? {
            Some(member) => Ok(member),
            None => Err(Refusal::from(MachineFault::NoName)),
        },
    }
}

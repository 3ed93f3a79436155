// What the machine looks up in an ABC.

ghost use Rattle.std.specs.Prelude.{◌≡◌, ◌+◌, ◌<◌, ◌++◌, IfOk, OnOk, IfSome, MatchOption, None, Some, length, replicate};
ghost use Rattle.avm2_machine.specs.declared.frame.Operand.TheVariants as operand;
ghost use Rattle.flex_base.specs.declared.value.Value.TheVariants as value;
ghost use Rattle.std.specs.Result.{result_ok};
ghost use Rattle.avm2_code.specs.Reading.{instruction_at};
ghost use Rattle.avm2_machine.specs.Names.{texts_of};
ghost use Rattle.avm2_machine.specs.Tables.{fetch, body_of, body_in, first_locals, public_at, declared_slot, declared_onto, method_named, is_class, class_trait_in, has_class_trait, takes_click, hears_clicks};

use crate::frame::{CodeFrame, Operand};
use crate::names::{Name, name_at, native_at};
use crate::stage::{Class, PropertyType, Slot};
use abc_format::{Abc, MethodBody, MultinameIndex, Trait, TraitKind};
use avm2_code::{Instruction, instruction_at};
use flex_base::{NoMemory, Sequence, Text, Value};
use std::alloc::Global;

/// The next instruction of a frame, and the place behind it.
pub fn fetch(abc: &Abc, frame: &CodeFrame) -> Option<(Instruction, usize)>
    ensures { result ≡ fetch abc.now frame.now }
{
    let body = abc.method_bodies.get(frame.body)?;
    fetch_in(body.code.as_slice(), frame.pc)
}

fn fetch_in(code: &[u8], pc: usize) -> Option<(Instruction, usize)>
    ensures { result ≡ result_ok (instruction_at code.now pc) }
{
    if pc < code.len() {
        instruction_at(code, pc).ok()
    } else {
        None
    }
}

/// The number of the first body of a method.
pub fn body_of(abc: &Abc, method: u32) -> Option<usize>
    ensures { result ≡ body_of abc.now method }
{
    body_in(method, abc.method_bodies.as_slice())
}

fn body_in(method: u32, bodies: &[MethodBody]) -> Option<usize>
    ensures number { result ≡ body_in method bodies.now }
    ensures within { IfSome result (λ n. n < length bodies.now) }
{
    match bodies {
        [] => None,
        [body, rest @ ..] => {
            if body.method.number() == method {
                Some(0)
            } else {
                Some(body_in(method, rest)? + 1)
            }
        }
    }
}

/// The locals of a body when it is entered: the receiver and the arguments, and then undefined.
pub fn first_locals(
    abc: &Abc,
    body: usize,
    mut given: Sequence<Operand>,
) -> Result<Sequence<Operand>, NoMemory>
    ensures { IfOk result (λ locals. locals ≡ first_locals abc.now body given) }
{
    let count = match abc.method_bodies.get(body) {
        None => 0,
        Some(body) => body.local_count as usize,
    };
    let others = count.saturating_sub(given.len());
    put_undefined(&mut given, others)?;
    Ok(given)
}

// So many locals that are undefined.
fn put_undefined(locals: &mut Sequence<Operand>, count: usize) -> Result<(), NoMemory>
    ensures { OnOk result (locals.new ≡ locals.old ++ replicate count (operand.Value value.Undefined)) }
{
    for index in 0..count {
        locals.push(Operand::Value(Value::Undefined))?;
    }
    Ok(())
}

/// The text of a public name.
pub fn public_at(abc: &Abc, name: u32) -> Option<&str>
    ensures { MatchOption result (public_at abc.now name ≡ None) (λ text. public_at abc.now name ≡ Some text.now) }
{
    let name = name_at(abc, name)?;
    if name.space.is_empty() {
        Some(name.local)
    } else {
        None
    }
}

/// Whether a method has one parameter, and that is for the event of a click.
pub fn hears_clicks(abc: &Abc, method: u32) -> bool
    ensures { result ≡ hears_clicks abc.now method }
{
    match abc.methods.get(method as usize) {
        None => false,
        Some(method) => takes_click(abc, method.param_types.as_slice()),
    }
}

fn takes_click(abc: &Abc, parameters: &[MultinameIndex]) -> bool
    ensures { result ≡ takes_click abc.now parameters.now }
{
    let [parameter] = parameters else {
        return false;
    };
    match name_at(abc, parameter.number()) {
        None => false,
        Some(name) => name.space == "flash.events" && name.local == "MouseEvent",
    }
}

/// These properties and those that the members declare, each null: `None` where one has a name or
/// a type that no emitted code gives it.
pub fn declared_onto(
    alloc: Global,
    abc: &Abc,
    traits: &[Trait],
    mut slots: Sequence<Slot>,
) -> Result<Option<Sequence<Slot>>, NoMemory>
    ensures { IfOk result (λ slots'. slots' ≡ declared_onto abc.now traits.now slots) }
{
    match traits {
        [] => Ok(Some(slots)),
        [member, rest @ ..] => match declared_slot(alloc, abc, member)? {
            None => Ok(None),
            Some(None) => declared_onto(alloc, abc, rest, slots),
            Some(Some(slot)) => {
                slots.push(slot)?;
                declared_onto(alloc, abc, rest, slots)
            }
        },
    }
}

// The property of a member, if it is a variable.
fn declared_slot(alloc: Global, abc: &Abc, member: &Trait) -> Result<Option<Option<Slot>>, NoMemory>
    ensures { IfOk result (λ slot. slot ≡ declared_slot abc.now member.now.name member.now.kind) }
{
    let TraitKind::Slot { type_name, .. } = member.kind else {
        return Ok(Some(None));
    };
    let Some(name) = public_at(abc, member.name.number()) else {
        return Ok(None);
    };
    let Some(class) = native_at(abc, type_name.number()) else {
        return Ok(None);
    };
    Ok(Some(Some(Slot {
        name: Text::make(alloc, name)?,
        kind: PropertyType::Instance(Class::Native(class)),
        value: Value::Null,
    })))
}

/// The number of the first method of this name among the members.
pub fn method_named(abc: &Abc, traits: &[Trait], name: Name<'_>) -> Option<u32>
    ensures { result ≡ method_named abc.now traits.now (texts_of name.entry) }
{
    match traits {
        [] => None,
        [member, rest @ ..] => {
            if let Some(other) = name_at(abc, member.name.number()) {
                if other.is(&name) {
                    if let TraitKind::Method { method, .. } = member.kind {
                        return Some(method.number());
                    }
                }
            }
            method_named(abc, rest, name)
        }
    }
}

/// Whether a script has a member of this name for this class.
pub fn has_class_trait(abc: &Abc, script: usize, name: u32, class: u32) -> bool
    ensures { result ≡ has_class_trait abc.now script name class }
{
    match abc.scripts.get(script) {
        None => false,
        Some(script) => class_trait_in(name, class, script.traits.as_slice()),
    }
}

fn class_trait_in(name: u32, class: u32, traits: &[Trait]) -> bool
    ensures { result ≡ class_trait_in name class traits.now }
{
    match traits {
        [] => false,
        [member, rest @ ..] => {
            (member.name.number() == name && is_class(class, member.kind))
                || class_trait_in(name, class, rest)
        }
    }
}

fn is_class(class: u32, kind: TraitKind) -> bool
    ensures { result ≡ is_class class kind }
{
    match kind {
        TraitKind::Class { class: other, .. } => other.number() == class,
        _ => false,
    }
}

// Methods: their types, their bodies and the classes that name them.

ghost use Rattle.std.specs.List.{find};
ghost use Rattle.std.specs.Option.{option_copied};
ghost use Rattle.std.specs.Prelude.{◌≡◌, ◌==◌, IfOk, map};
ghost use Rattle.abc_format.specs.declared.records.MethodBody.{MethodBody};
ghost use Rattle.avm2_program.specs.Naming.{naming_with, type_at};
ghost use Rattle.avm2_program.specs.Resolving.{body_at, body_of, have_method, method_of, methods_from, names_method, owner_from, owns};

use crate::traits::method_in;
use abc_format::{Abc, ClassInfo, InstanceInfo, MethodBody, MethodInfo, MultinameIndex, Trait};
use avm2_program::{Body, Method, OwnName, operations, type_at};
use flex_base::{NoMemory, Sequence};
use flex_world::StaticType;
use std::alloc::Global;

// A body made ready.
fn body_of(
    alloc: Global,
    abc: &Abc,
    classes: &[Option<OwnName>],
    body: &MethodBody,
) -> Result<Body, NoMemory>
    ensures { IfOk result (λ ready. ready ≡ body_of (naming_with abc.now classes.now) body.now) }
{
    Ok(Body {
        locals: body.local_count,
        code: operations(alloc, abc, classes, body.code.as_slice())?,
    })
}

// The first body of a method.
fn first_body(bodies: &[MethodBody], method: u32) -> Option<&MethodBody>
    ensures { option_copied result ≡ find (λ (b : MethodBody). b.method == method) bodies.now }
{
    bodies.iter().find(|body| body.method.number() == method)
}

// The same made ready.
fn body_at(
    alloc: Global,
    abc: &Abc,
    classes: &[Option<OwnName>],
    method: u32,
) -> Result<Option<Body>, NoMemory>
    ensures { IfOk result (λ body. body ≡ body_at (naming_with abc.now classes.now) method) }
{
    match first_body(abc.method_bodies.as_slice(), method) {
        Some(body) => Ok(Some(body_of(alloc, abc, classes, body)?)),
        None => Ok(None),
    }
}

// Whether this is the method.
fn names_method(method: u32, named: Option<u32>) -> bool
    ensures { result ≡ names_method method named }
{
    match named {
        Some(other) => other == method,
        None => false,
    }
}

// Whether a trait names a method.
fn have_method(method: u32, traits: &[Trait]) -> bool
    ensures { result ≡ have_method method traits.now }
{
    traits
        .iter()
        .any(|info| names_method(method, method_in(info.kind)))
}

// Whether the constructor or a trait of a class names a method.
fn owns(method: u32, instance: &InstanceInfo, class: &ClassInfo) -> bool
    ensures { result ≡ owns method instance.now class.now }
{
    instance.iinit.number() == method
        || have_method(method, instance.traits.as_slice())
        || have_method(method, class.traits.as_slice())
}

// The number of the first class that owns a method.
fn owner_of(abc: &Abc, method: u32) -> Result<Option<u32>, NoMemory>
    ensures { IfOk result (λ owner. owner ≡ owner_from method 0 abc.now.instances abc.now.classes) }
{
    let mut number: u32 = 0;
    for instance in abc.instances.as_slice() {
        let Some(class) = abc.classes.get(number as usize) else {
            return Ok(None);
        };
        if owns(method, instance, class) {
            return Ok(Some(number));
        }
        number = number.checked_add(1).ok_or(NoMemory)?;
    }
    Ok(None)
}

// Types of the pool.
fn all_types(
    alloc: Global,
    abc: &Abc,
    classes: &[Option<OwnName>],
    types: &[MultinameIndex],
) -> Result<Sequence<StaticType>, NoMemory>
    ensures { IfOk result (λ found. found ≡ map (type_at (naming_with abc.now classes.now)) types.now) }
{
    let mut found = Sequence::new(alloc);
    for index in types {
        found.push(type_at(alloc, abc, classes, *index)?)?;
    }
    Ok(found)
}

// A method with this number.
fn method_of(
    alloc: Global,
    abc: &Abc,
    classes: &[Option<OwnName>],
    number: u32,
    info: &MethodInfo,
) -> Result<Method, NoMemory>
    ensures { IfOk result (λ method. method ≡ method_of (naming_with abc.now classes.now) number info.now) }
{
    Ok(Method {
        parameters: all_types(alloc, abc, classes, info.param_types.as_slice())?,
        result: type_at(alloc, abc, classes, info.return_type)?,
        body: body_at(alloc, abc, classes, number)?,
        owner: owner_of(abc, number)?,
    })
}

/// The methods of a file.
pub fn methods(
    alloc: Global,
    abc: &Abc,
    classes: &[Option<OwnName>],
) -> Result<Sequence<Method>, NoMemory>
    ensures { IfOk result (λ methods. methods ≡
        methods_from (naming_with abc.now classes.now) 0 abc.now.methods) }
{
    let mut methods = Sequence::new(alloc);
    let mut number: u32 = 0;
    for info in abc.methods.as_slice() {
        methods.push(method_of(alloc, abc, classes, number, info)?)?;
        number = number.checked_add(1).ok_or(NoMemory)?;
    }
    Ok(methods)
}

// The bases of the classes of a file, and what stands behind them.

ghost use Rattle.std.specs.Prelude.{◌≡◌, IfOk, option_and_then, slice_get};
ghost use Rattle.avm2_program.specs.Naming.{naming_with};
ghost use Rattle.avm2_program.specs.Resolving.{base_with, behind_class, class_bases, class_in_type, native_behind, type_bases};
ghost use Rattle.avm2_resolver.specs.Behind.{file_class};

use abc_format::{Abc, InstanceInfo, MultinameIndex};
use avm2_program::{OwnName, type_at};
use component_catalog::NativeClass;
use flex_base::{NoMemory, Sequence};
use flex_world::{Class, StaticType};
use std::alloc::Global;

/// The base of a class, whatever it is; there is none where no super_name is written.
pub fn base_with(
    alloc: Global,
    abc: &Abc,
    classes: &[Option<OwnName>],
    name: MultinameIndex,
) -> Result<Option<StaticType>, NoMemory>
    ensures { IfOk result (λ base. base ≡ base_with (naming_with abc.now classes.now) name) }
{
    if name.number() == 0 {
        return Ok(None);
    }
    Ok(Some(type_at(alloc, abc, classes, name)?))
}

/// The base of each class, whatever it is.
pub fn type_bases(
    alloc: Global,
    abc: &Abc,
    classes: &[Option<OwnName>],
) -> Result<Sequence<Option<StaticType>>, NoMemory>
    ensures { IfOk result (λ bases. bases ≡ type_bases (naming_with abc.now classes.now)) }
{
    let mut bases = Sequence::new(alloc);
    for instance in abc.instances.as_slice() {
        bases.push(base_with(alloc, abc, classes, instance.super_name)?)?;
    }
    Ok(bases)
}

// The class that a type is, if it is one.
fn class_in_type(base: Option<StaticType>) -> Option<Class>
    ensures { result ≡ option_and_then class_in_type base }
{
    match base {
        Some(StaticType::Object(class)) => Some(class),
        _ => None,
    }
}

/// The base of each class, where it has one that is a class.
pub fn class_bases(
    alloc: Global,
    bases: &[Option<StaticType>],
) -> Result<Sequence<Option<Class>>, NoMemory>
    ensures { IfOk result (λ found. found ≡ class_bases bases.now) }
{
    let mut found = Sequence::new(alloc);
    for base in bases {
        found.push(class_in_type(*base))?;
    }
    Ok(found)
}

// The base of a class of a number, if it has one.
fn base_of(bases: &[Option<StaticType>], class: u32) -> Option<StaticType>
    ensures { result ≡ option_and_then (λ base. base) (slice_get bases.now class) }
{
    match bases.get(class as usize) {
        Some(base) => *base,
        None => None,
    }
}

/// What stands behind a class and its ancestors of the file, where these are their bases; a ring of
/// bases has no end.
pub fn behind(bases: &[Option<StaticType>], class: u32) -> Option<StaticType>
    ensures { result ≡ behind_class bases.now class }
{
    let mut found = base_of(bases, class);
    for _ in 0..bases.len() {
        let Some(base) = file_class(found) else {
            return found;
        };
        found = base_of(bases, base);
    }
    None
}

// The number of the class of the file that a type is, if it is one.
fn file_class(found: Option<StaticType>) -> Option<u32>
    ensures { result ≡ file_class found }
{
    match found {
        Some(StaticType::Object(Class::File(class))) => Some(class),
        _ => None,
    }
}

/// The class of the catalog that stands behind, if one does.
pub fn native_behind(behind: Option<StaticType>) -> Option<NativeClass>
    ensures { result ≡ native_behind behind }
{
    match behind {
        Some(StaticType::Object(Class::Native(class))) => Some(class),
        _ => None,
    }
}

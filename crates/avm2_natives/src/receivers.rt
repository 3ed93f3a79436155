// What the receivers of native calls are.

ghost use Rattle.std.specs.Prelude.{◌≡◌};
ghost use Rattle.avm2_meaning.specs.Classes.{is_container_object, is_event_object, is_of};
ghost use Rattle.avm2_meaning.specs.Natives.{has_method};

use avm2_program::Program;
use component_catalog::{NativeClass, NativeMethod};
use flex_objects::Entity;
use flex_world::{Class, descends};

// Whether an object is of a class of the catalog or of one that descends from it.
fn is_of(program: &Program, ancestor: NativeClass, entity: &Entity) -> bool
    ensures { result ≡ is_of program.now ancestor entity.now.object }
{
    match entity.class() {
        Some(class) => descends(program.bases.as_slice(), class, Class::Native(ancestor)),
        None => false,
    }
}

// Whether an object is a container.
fn is_container(program: &Program, entity: &Entity) -> bool
    ensures { result ≡ is_container_object program.now entity.now.object }
{
    is_of(program, NativeClass::SkinnableContainer, entity)
        || is_of(program, NativeClass::Group, entity)
}

// Whether an object is an event.
fn is_event(program: &Program, entity: &Entity) -> bool
    ensures { result ≡ is_event_object program.now entity.now.object }
{
    is_of(program, NativeClass::Event, entity)
}

// Whether an object has a method of the catalog.
pub fn has_method(program: &Program, method: NativeMethod, entity: &Entity) -> bool
    ensures { result ≡ has_method program.now method entity.now.object }
{
    match method {
        NativeMethod::AddElement
        | NativeMethod::RemoveElement
        | NativeMethod::RemoveAllElements
        | NativeMethod::GetElementAt => is_container(program, entity),
        NativeMethod::StopPropagation
        | NativeMethod::StopImmediatePropagation
        | NativeMethod::PreventDefault
        | NativeMethod::IsDefaultPrevented => is_event(program, entity),
        NativeMethod::AddEventListener
        | NativeMethod::RemoveEventListener
        | NativeMethod::HasEventListener
        | NativeMethod::DispatchEvent => is_of(program, NativeClass::EventDispatcher, entity),
    }
}

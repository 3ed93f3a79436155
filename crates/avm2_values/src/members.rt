// What a name is at a value.

ghost use Rattle.std.specs.Option.{option_copied};
ghost use Rattle.std.specs.List.{find};
ghost use Rattle.std.specs.Prelude.{◌≡◌, IfOk};
ghost use Rattle.component_catalog.specs.Classes.{or_else};
ghost use Rattle.component_catalog.specs.declared.class.NativeClass.TheVariants as native;
ghost use Rattle.flex_world.specs.Classes.{native_descends};
ghost use Rattle.avm2_program.specs.Names.{names_it};
ghost use Rattle.avm2_meaning.specs.Members.{array_member, base_member, builtin_member, class_member, file_member, found, inherited_member, member, member_among, method_member, native_member, property_member, runtime_call, runtime_member, text_member};
ghost use Rattle.avm2_meaning.specs.declared.heap.Heap.{Heap};
ghost use Rattle.avm2_values.specs.Answers.{Gives};

use crate::refusal::Refusal;
use avm2_meaning::{Heap, Operand};
use avm2_program::{FileClass, Member, Name, NamedMember, Program, RuntimeCall};
use component_catalog::{NativeClass, method_of, property_of};
use flex_base::{MachineFault, NoMemory, Stop, Value};
use flex_world::{Class, StaticType};

/// The same member once more.
pub fn copy_of(member: &Member) -> Result<Member, NoMemory>
    ensures { IfOk result (λ copy. copy ≡ member.now) }
{
    match member {
        Member::Slot(key) => Ok(Member::Slot(key.clone()?)),
        Member::HiddenSlot(key) => Ok(Member::HiddenSlot(key.clone()?)),
        Member::OwnSlot(number, kind) => Ok(Member::OwnSlot(*number, *kind)),
        Member::ClassTrait(place, class) => Ok(Member::ClassTrait(*place, *class)),
        Member::Written(method) => Ok(Member::Written(*method)),
        Member::Unplayed => Ok(Member::Unplayed),
        Member::Catalog(method) => Ok(Member::Catalog(*method)),
        Member::Runtime(call) => Ok(Member::Runtime(*call)),
        Member::Push => Ok(Member::Push),
        Member::Pop => Ok(Member::Pop),
        Member::ArrayLength => Ok(Member::ArrayLength),
        Member::TextLength => Ok(Member::TextLength),
        Member::Trace => Ok(Member::Trace),
        Member::ClassOf(kind) => Ok(Member::ClassOf(*kind)),
    }
}

// The first of some members that a name names.
fn named<'m>(name: &Name, members: &'m [NamedMember]) -> Option<&'m NamedMember>
    ensures { option_copied result ≡ find (λ (m : NamedMember). names_it name.now m.name) members.now }
{
    members.iter().find(|member| name.names_it(&member.name))
}

/// What a name is among some members.
pub fn member_among(name: &Name, members: &[NamedMember]) -> Result<Option<Member>, NoMemory>
    ensures { IfOk result (λ found. found ≡ member_among name.now members.now) }
{
    match named(name, members) {
        Some(found) => Ok(Some(copy_of(&found.member)?)),
        None => Ok(None),
    }
}

// What a public name is at objects of a class of the catalog.
fn catalog_member(class: NativeClass, name: &Name) -> Result<Option<Member>, NoMemory>
    ensures { IfOk result (λ found. found ≡
        or_else (property_member class name.now.text) (method_member class name.now.text)) }
{
    if property_of(class, name.text.as_str()).is_some() {
        return Ok(Some(Member::Slot(name.text.clone()?)));
    }
    match method_of(class, name.text.as_str()) {
        Some(row) => Ok(Some(Member::Catalog(row.method))),
        None => Ok(None),
    }
}

/// What a name is at objects of a class of the catalog.
pub fn native_member(class: NativeClass, name: &Name) -> Result<Option<Member>, NoMemory>
    ensures { IfOk result (λ found. found ≡ native_member class name.now) }
{
    if name.has_package("") {
        catalog_member(class, name)
    } else {
        Ok(None)
    }
}

// The call of the runtime of this name.
fn runtime_call(text: &str) -> Option<RuntimeCall>
    ensures { result ≡ runtime_call text.now }
{
    match text {
        "state" => Some(RuntimeCall::RegisterState),
        "bind" => Some(RuntimeCall::Bind),
        "runBinding" => Some(RuntimeCall::RunBinding),
        "begin" => Some(RuntimeCall::Begin),
        "place" => Some(RuntimeCall::Place),
        "takeOut" => Some(RuntimeCall::TakeOut),
        _ => None,
    }
}

// Whether a class of the catalog is UIComponent or extends it.
fn is_component(class: NativeClass) -> bool
    ensures { result ≡ native_descends class native.UIComponent }
{
    match class {
        NativeClass::EventDispatcher
        | NativeClass::State
        | NativeClass::Event
        | NativeClass::MouseEvent
        | NativeClass::FlexEvent => false,
        NativeClass::UIComponent
        | NativeClass::SkinnableContainer
        | NativeClass::Group
        | NativeClass::VGroup
        | NativeClass::HGroup
        | NativeClass::Application
        | NativeClass::Panel
        | NativeClass::Label
        | NativeClass::Button
        | NativeClass::ToggleButton
        | NativeClass::CheckBox
        | NativeClass::TextInput => true,
    }
}

// What a name is among the calls of the runtime, at objects of a class of the file that descend
// from a class of the catalog.
fn runtime_member(class: NativeClass, name: &Name) -> Option<Member>
    ensures { result ≡ runtime_member class name.now }
{
    if !name.has_package("flexc") || !is_component(class) {
        return None;
    }
    let call = runtime_call(name.text.as_str())?;
    Some(Member::Runtime(call))
}

// What a public name is at an array.
fn array_member(text: &str) -> Option<Member>
    ensures { result ≡ array_member text.now }
{
    match text {
        "length" => Some(Member::ArrayLength),
        "push" => Some(Member::Push),
        "pop" => Some(Member::Pop),
        _ => None,
    }
}

// What a public name is at a text.
fn text_member(text: &str) -> Option<Member>
    ensures { result ≡ text_member text.now }
{
    match text {
        "length" => Some(Member::TextLength),
        _ => None,
    }
}

/// What a name is at a value of a class of the native script.
pub fn builtin_member(kind: StaticType, name: &Name) -> Result<Option<Member>, NoMemory>
    ensures { IfOk result (λ found. found ≡ builtin_member kind name.now) }
{
    match kind {
        StaticType::Object(Class::Native(class)) => native_member(class, name),
        StaticType::Array if name.has_package("") => Ok(array_member(name.text.as_str())),
        StaticType::String if name.has_package("") => Ok(text_member(name.text.as_str())),
        _ => Ok(None),
    }
}

/// What a name is at objects of a class of the file behind which this stands: the calls of the
/// runtime come last.
pub fn inherited_member(behind: Option<StaticType>, name: &Name) -> Result<Option<Member>, NoMemory>
    ensures { IfOk result (λ found. found ≡ inherited_member behind name.now) }
{
    match behind {
        Some(StaticType::Object(Class::Native(class))) => match native_member(class, name)? {
            Some(member) => Ok(Some(member)),
            None => Ok(runtime_member(class, name)),
        },
        Some(kind) => builtin_member(kind, name),
        None => Ok(None),
    }
}

// What a name is at objects of a class of the file.
fn member_of_class(class: &FileClass, name: &Name) -> Result<Option<Member>, NoMemory>
    ensures { IfOk result (λ found. found ≡
        or_else (member_among name.now class.now.members) (inherited_member class.now.behind name.now)) }
{
    match member_among(name, class.members.as_slice())? {
        Some(member) => Ok(Some(member)),
        None => inherited_member(class.behind, name),
    }
}

/// What a name is at objects of the class of a number.
pub fn file_member(program: &Program, class: u32, name: &Name) -> Result<Option<Member>, NoMemory>
    ensures { IfOk result (λ found. found ≡ file_member program.now class name.now) }
{
    match program.classes.get(class as usize) {
        Some(class) => member_of_class(class, name),
        None => Ok(None),
    }
}

/// What a name is at objects of a class.
pub fn class_member(
    program: &Program,
    class: Class,
    name: &Name,
) -> Result<Option<Member>, NoMemory>
    ensures { IfOk result (λ found. found ≡ class_member program.now class name.now) }
{
    match class {
        Class::File(class) => file_member(program, class, name),
        Class::Native(class) => native_member(class, name),
    }
}

/// What a name is where `super` begins with this base.
pub fn base_member(
    program: &Program,
    base: StaticType,
    name: &Name,
) -> Result<Option<Member>, NoMemory>
    ensures { IfOk result (λ found. found ≡ base_member program.now base name.now) }
{
    match base {
        StaticType::Object(Class::File(class)) => file_member(program, class, name),
        _ => inherited_member(Some(base), name),
    }
}

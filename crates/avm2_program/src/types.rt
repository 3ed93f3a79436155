// The types that names name.

ghost use Rattle.std.specs.List.{find};
ghost use Rattle.std.specs.Prelude.{◌≡◌, IfOk, option_map, unwrap_or};
ghost use Rattle.component_catalog.specs.Classes.{classes};
ghost use Rattle.flex_world.specs.declared.kind.StaticType.TheVariants.{Unnamed};
ghost use Rattle.avm2_program.specs.Naming.{class_numbered, is_class_of_code, is_native_name, name_at, native_type, primitive_named, type_at, type_named};

use crate::names::{Name, OwnName};
use crate::pool::name_at;
use abc_format::{Abc, MultinameIndex};
use component_catalog::NativeClass;
use flex_base::NoMemory;
use flex_world::{Class, StaticType};
use std::alloc::Global;

// All classes of the catalog.
const CLASSES: &[NativeClass] = &[
    NativeClass::EventDispatcher,
    NativeClass::UIComponent,
    NativeClass::SkinnableContainer,
    NativeClass::Group,
    NativeClass::VGroup,
    NativeClass::HGroup,
    NativeClass::Application,
    NativeClass::Panel,
    NativeClass::Label,
    NativeClass::Button,
    NativeClass::ToggleButton,
    NativeClass::CheckBox,
    NativeClass::TextInput,
    NativeClass::State,
    NativeClass::Event,
    NativeClass::MouseEvent,
    NativeClass::FlexEvent,
];

// States are no classes of code.
fn is_class_of_code(class: NativeClass) -> bool
    ensures { result ≡ is_class_of_code class }
{
    !matches!(class, NativeClass::State)
}

// Whether a name names a class of the catalog.
fn is_native_name(name: &Name, class: NativeClass) -> bool
    ensures { result ≡ is_native_name name.now class }
{
    is_class_of_code(class)
        && name.text.as_str() == class.name()
        && name.has_package(class.package())
}

// The class of the catalog that a name names.
fn native_class(name: &Name) -> Option<NativeClass>
    ensures { result ≡ find (is_native_name name.now) classes }
{
    CLASSES
        .iter()
        .copied()
        .find(|class| is_native_name(name, *class))
}

// The type of the native script that has this name and is no class of the catalog.
fn primitive(text: &str) -> Option<StaticType>
    ensures { result ≡ primitive_named text.now }
{
    match text {
        "int" => Some(StaticType::Int),
        "Boolean" => Some(StaticType::Boolean),
        "String" => Some(StaticType::String),
        "Array" => Some(StaticType::Array),
        _ => None,
    }
}

/// The class of the native script that a name names.
pub fn native_type(name: &Name) -> Option<StaticType>
    ensures { result ≡ native_type name.now }
{
    if name.has_package("")
        && let Some(found) = primitive(name.text.as_str())
    {
        return Some(found);
    }
    let class = native_class(name)?;
    Some(StaticType::Object(Class::Native(class)))
}

/// The type that a name names, where the classes of the file have these names: the first of them,
/// made or not, or else a class of the native script.
pub fn type_named(classes: &[Option<OwnName>], name: &Name) -> Result<Option<StaticType>, NoMemory>
    ensures { IfOk result (λ found. found ≡ type_named classes.now name.now) }
{
    match class_numbered(classes, name) {
        Some(number) => {
            let number = u32::try_from(number).map_err(|_| NoMemory)?;
            Ok(Some(StaticType::Object(Class::File(number))))
        }
        None => Ok(native_type(name)),
    }
}

// The number of the first class that a name names.
fn class_numbered(classes: &[Option<OwnName>], name: &Name) -> Option<usize>
    ensures { result ≡ class_numbered name.now classes.now }
{
    classes.iter().position(|own| name.names_it(own))
}

/// The type of a number of the pool; 0 is no type.
pub fn type_at(
    alloc: Global,
    abc: &Abc,
    classes: &[Option<OwnName>],
    index: MultinameIndex,
) -> Result<StaticType, NoMemory>
    ensures { IfOk result (λ found. found ≡
        type_at (record { abc = abc.now; class_names = classes.now }) index) }
{
    if index.number() == 0 {
        return Ok(StaticType::Any);
    }
    let found = named_type(alloc, abc, classes, index)?;
    Ok(found)
}

// The type of the name of a number of the pool.
fn named_type(
    alloc: Global,
    abc: &Abc,
    classes: &[Option<OwnName>],
    index: MultinameIndex,
) -> Result<StaticType, NoMemory>
    ensures { IfOk result (λ found. found ≡
        unwrap_or (type_named classes.now (name_at abc.now index)) Unnamed) }
{
    let name = name_at(alloc, abc, index)?;
    match type_named(classes, &name)? {
        Some(found) => Ok(found),
        None => Ok(StaticType::Unnamed),
    }
}

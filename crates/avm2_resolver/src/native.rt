// What the classes of the catalog give the objects of a file's classes.

ghost use Rattle.std.specs.List.{flat_map};
ghost use Rattle.std.specs.Prelude.{◌≡◌, ◌++◌, IfOk, OnOk, map};
ghost use Rattle.component_catalog.specs.Classes.{lineage};
ghost use Rattle.component_catalog.specs.Properties.{Property, properties};
ghost use Rattle.flex_world.specs.Classes.{static_type};
ghost use Rattle.flex_world.specs.Making.{is_computed, native_field, native_fields, start_value};
ghost use Rattle.avm2_program.specs.Resolving.{fields_behind, kept_fields, names_behind, property_names};
ghost use Rattle.avm2_resolver.specs.Natives.{fields_named};

use avm2_program::ClassField;
use component_catalog::{
    NativeClass, PropertyRow, StartValue, ValueType, property_names, property_of,
};
use flex_base::{Names, NoMemory, Sequence, Text, Value};
use flex_world::{Class, StaticType};
use std::alloc::Global;

// A class and its ancestors, the nearest first.
#[tactic(auto, using(crate::proofs::Natives::lineage_up))]
fn lineage(alloc: Global, class: NativeClass) -> Result<Sequence<NativeClass>, NoMemory>
    ensures { IfOk result (λ classes. classes ≡ lineage class) }
{
    let mut classes = Sequence::new(alloc);
    let mut level = Some(class);
    while let Some(class) = level {
        classes.push(class)?;
        level = class.base();
    }
    Ok(classes)
}

/// The names of the properties of the class of the catalog that stands behind a class, and of its
/// ancestors.
pub fn names_behind(alloc: Global, class: Option<NativeClass>) -> Result<Names, NoMemory>
    ensures { IfOk result (λ names. names ≡ names_behind class) }
{
    let mut names = Sequence::new(alloc);
    let Some(class) = class else {
        return Ok(names);
    };
    let classes = lineage(alloc, class)?;
    add_all_names(alloc, &mut names, classes.as_slice())?;
    Ok(names)
}

// Adds the names of the properties of classes.
fn add_all_names(alloc: Global, names: &mut Names, classes: &[NativeClass]) -> Result<(), NoMemory>
    ensures { OnOk result (names.new ≡
        names.old ++ flat_map (λ level. map (λ (p : Property). p.name) (properties level)) classes.now) }
{
    for class in classes {
        add_names(alloc, names, *class)?;
    }
    Ok(())
}

// Adds the names of the properties that a class has beside those of its base.
fn add_names(alloc: Global, names: &mut Names, class: NativeClass) -> Result<(), NoMemory>
    ensures { OnOk result (names.new ≡ names.old ++ map (λ (p : Property). p.name) (properties class)) }
{
    for name in property_names(class) {
        names.push(Text::make(alloc, name)?)?;
    }
    Ok(())
}

/// Adds the properties that objects keep by the class of the catalog that stands behind theirs.
pub fn add_fields_behind(
    alloc: Global,
    fields: &mut Sequence<ClassField>,
    class: Option<NativeClass>,
) -> Result<(), NoMemory>
    ensures { OnOk result (fields.new ≡ fields.old ++ fields_behind class) }
{
    let Some(class) = class else {
        return Ok(());
    };
    let classes = lineage(alloc, class)?;
    add_all_fields(alloc, fields, classes.as_slice())
}

// Adds the properties that objects keep by some classes.
fn add_all_fields(
    alloc: Global,
    fields: &mut Sequence<ClassField>,
    classes: &[NativeClass],
) -> Result<(), NoMemory>
    ensures { OnOk result (fields.new ≡ fields.old ++ flat_map native_fields classes.now) }
{
    for class in classes {
        add_fields(alloc, fields, *class)?;
    }
    Ok(())
}

// Adds the properties that a class has beside those of its base.
#[tactic(auto, using(crate::proofs::Natives::fields_by_name))]
fn add_fields(
    alloc: Global,
    fields: &mut Sequence<ClassField>,
    class: NativeClass,
) -> Result<(), NoMemory>
    ensures { OnOk result (fields.new ≡ fields.old ++ native_fields class) }
{
    for name in property_names(class) {
        add_named(alloc, fields, class, name)?;
    }
    Ok(())
}

// Adds the property of this name, unless objects don't keep it.
fn add_named(
    alloc: Global,
    fields: &mut Sequence<ClassField>,
    class: NativeClass,
    name: &str,
) -> Result<(), NoMemory>
    ensures { OnOk result (fields.new ≡ fields.old ++ fields_named class name.now) }
{
    if is_computed(name) {
        return Ok(());
    }
    let Some(row) = property_of(class, name) else {
        return Ok(());
    };
    fields.push(native_field(alloc, name, row)?)
}

// Whether no object keeps the property of this name, since it is where the object stands or how
// many children it has.
fn is_computed(name: &str) -> bool
    ensures { result ≡ is_computed name.now }
{
    name == "parent" || name == "numElements"
}

// A property of the catalog.
fn native_field(alloc: Global, name: &str, row: PropertyRow) -> Result<ClassField, NoMemory>
    ensures { IfOk result (λ field. field ≡ native_field (record { name = name.now; row = row })) }
{
    Ok(ClassField {
        key: Text::make(alloc, name)?,
        text: Text::make(alloc, name)?,
        kind: static_type(row.kind),
        public: row.public,
        bindable: row.bindable,
        read_only: row.read_only,
        is_slot: false,
        start: start_value(alloc, row.start)?,
    })
}

// A type of the catalog.
fn static_type(kind: ValueType) -> StaticType
    ensures { result ≡ static_type kind }
{
    match kind {
        ValueType::Int => StaticType::Int,
        ValueType::Boolean => StaticType::Boolean,
        ValueType::String => StaticType::String,
        ValueType::Object(class) => StaticType::Object(Class::Native(class)),
        ValueType::Any => StaticType::Any,
    }
}

// A starting value of the catalog.
fn start_value(alloc: Global, start: StartValue) -> Result<Value, NoMemory>
    ensures { IfOk result (λ value. value ≡ start_value start) }
{
    match start {
        StartValue::Null => Ok(Value::Null),
        StartValue::Bool(b) => Ok(Value::Bool(b)),
        StartValue::Int(n) => Ok(Value::Int(n)),
        StartValue::EmptyText => Ok(Value::Text(Text::make(alloc, "")?)),
    }
}

// Look-ups of members in the class table and the catalog.

ghost use Rattle.std.specs.Prelude.{◌≡◌, IfOk, length, map, option_map};
ghost use Rattle.std.specs.List.{filter, find, list_any};
ghost use Rattle.std.specs.Str.{bytes_eq};
ghost use Rattle.as3_types.specs.declared.table.OwnMember.{OwnMember};
ghost use Rattle.as3_types.specs.declared.table.ClassTable.{ClassTable};
ghost use Rattle.component_catalog.specs.Methods as catalog_methods;
ghost use Rattle.component_catalog.specs.Methods.{row, row_of};
ghost use Rattle.component_catalog.specs.Properties as catalog_properties;
ghost use Rattle.flex_world.specs.declared.kind.Class.TheVariants as Class;
ghost use Rattle.source_sites.specs.LookUps.{member_named, member_of, own_members};
ghost use Rattle.source_sites.specs.Members.{nth_list};
ghost use Rattle.source_sites.specs.Types.{may_be_left_out, native_type, parameter_type, result_type_of};
ghost use Rattle.as3_types.specs.Natives.{declares_method};
ghost use Rattle.as3_types.specs.Tables.{found_as, member_as, owned_of, signature_of_row, table_of};
ghost use Rattle.as3_types.specs.Types.{signature_as, type_of};
ghost use Rattle.as3_types.specs.Clauses.{member_found, own_named};

use crate::table::{ClassTable, OwnMember};
use crate::types::{Signature, ValueType};
use component_catalog::{
    MethodRow, NativeClass, NativeMethod, Parameter, PropertyRow, ValueType as NativeType,
    method_of, property_names, property_of,
};
use flex_base::{NoMemory, Sequence};
use flex_world::{CATALOG_LEVELS, Class, base_of};
use std::alloc::Global;

/// A member that was found by its name.
#[derive(Clone, Copy)]
pub enum Found<'a> {
    /// Of a source class.
    Source(&'a OwnMember),
    /// A property of the catalog.
    Property(PropertyRow),
    /// A method of the catalog.
    Method(MethodRow),
}

/// A member with the class that declares it.
#[derive(Clone, Copy)]
pub struct FoundMember<'a> {
    pub owner: Class,
    pub member: Found<'a>,
}

/// The member of the nearest class, from this one upward, that has the name.
#[tactic(auto, using(crate::proofs::Inherited::none_left))]
pub fn member_of<'a>(table: &'a ClassTable, class: Class, name: &str) -> Option<FoundMember<'a>>
    ensures { option_map (found_as name.now) result ≡ member_found table.now class name.now }
{
    let mut level = Some(class);
    let mut left = table.bases.len() + CATALOG_LEVELS;
    while left > 0 {
        let Some(class) = level else {
            return None;
        };
        if let Some(member) = own_member(table, class, name) {
            let owner = class;
            return Some(FoundMember { owner, member });
        }
        level = base_of(table.bases.as_slice(), class);
        left -= 1;
    }
    None
}

/// The member of this name that a class declares itself.
pub fn own_member<'a>(table: &'a ClassTable, class: Class, name: &str) -> Option<Found<'a>>
    ensures { option_map (member_as name.now) result ≡ own_named table.now class name.now }
{
    match class {
        Class::Native(class) => native_member(class, name),
        Class::File(number) => match source_member(table, number, name) {
            Some(member) => Some(Found::Source(member)),
            None => None,
        },
    }
}

fn source_member<'a>(table: &'a ClassTable, number: u32, name: &str) -> Option<&'a OwnMember>
    ensures { option_map (λ m. owned_of m.now) result ≡ member_named name.now (nth_list (table_of table.now).members number) }
{
    let members = table.members.get(number as usize)?;
    first_named(members.as_slice(), name)
}

fn first_named<'a>(members: &'a [OwnMember], name: &str) -> Option<&'a OwnMember>
    ensures { option_map (λ m. m.now) result ≡ find (λ (m : OwnMember). bytes_eq m.name name.now) members.now }
{
    members.iter().find(|member| member.name.as_str() == name)
}

fn native_member<'a>(class: NativeClass, name: &str) -> Option<Found<'a>>
    ensures { (table : ClassTable) → option_map (member_as name.now) result ≡ member_named name.now (own_members (table_of table) (Class.Native class)) }
{
    if let Some(row) = own_property(class, name) {
        return Some(Found::Property(row));
    }
    match own_method(class, name) {
        Some(method) => Some(Found::Method(method)),
        None => None,
    }
}

// The property of this name that a class of the catalog has beside those of its base.
fn own_property(class: NativeClass, name: &str) -> Option<PropertyRow>
    ensures { result ≡ catalog_properties.own_property class name.now }
{
    if stands_among(name, property_names(class)) {
        property_of(class, name)
    } else {
        None
    }
}

fn stands_among(name: &str, names: &[&str]) -> bool
    ensures { result ≡ list_any (λ n. bytes_eq n.now name.now) names.now }
{
    names.iter().any(|other| *other == name)
}

// The method of this name that a class of the catalog has beside those of its base.
#[tactic(auto, using(crate::proofs::Natives::inherited_method, crate::proofs::Natives::without_method))]
fn own_method(class: NativeClass, name: &str) -> Option<MethodRow>
    ensures { option_map row_of result ≡ option_map row (catalog_methods.own_method class name.now) }
{
    let found = method_of(class, name)?;
    if declares_method(class, found.method) {
        Some(found)
    } else {
        None
    }
}

// Whether a class of the catalog has a method itself.
fn declares_method(class: NativeClass, method: NativeMethod) -> bool
    ensures { result ≡ declares_method class method }
{
    match class {
        NativeClass::EventDispatcher => matches!(
            method,
            NativeMethod::AddEventListener
                | NativeMethod::RemoveEventListener
                | NativeMethod::HasEventListener
                | NativeMethod::DispatchEvent
        ),
        NativeClass::SkinnableContainer | NativeClass::Group => matches!(
            method,
            NativeMethod::AddElement
                | NativeMethod::RemoveElement
                | NativeMethod::RemoveAllElements
                | NativeMethod::GetElementAt
        ),
        NativeClass::Event => matches!(
            method,
            NativeMethod::StopPropagation
                | NativeMethod::StopImmediatePropagation
                | NativeMethod::PreventDefault
                | NativeMethod::IsDefaultPrevented
        ),
        _ => false,
    }
}

/// What a method of the catalog takes and gives.
pub fn native_signature(alloc: Global, method: MethodRow) -> Result<Signature, NoMemory>
    ensures { IfOk result (λ s. signature_as s ≡ signature_of_row method) }
{
    Ok(Signature {
        parameters: parameter_types(alloc, method.parameters)?,
        optional: optional_count(method.parameters),
        result: result_type_of(method.result),
    })
}

fn parameter_types(alloc: Global, parameters: &[Parameter]) -> Result<Sequence<ValueType>, NoMemory>
    ensures { IfOk result (λ types. map type_of types ≡ map parameter_type parameters.now) }
{
    let mut types = Sequence::new(alloc);
    for parameter in parameters {
        types.push(parameter_type(*parameter))?;
    }
    Ok(types)
}

fn optional_count(parameters: &[Parameter]) -> usize
    ensures { result ≡ length (filter may_be_left_out parameters.now) }
{
    parameters
        .iter()
        .filter(|parameter| may_be_left_out(**parameter))
        .count()
}

fn parameter_type(parameter: Parameter) -> ValueType
    ensures { type_of result ≡ parameter_type parameter }
{
    match parameter {
        Parameter::Required(kind) => native_type(kind),
        Parameter::Optional(kind, _) => native_type(kind),
        Parameter::Listener => ValueType::Listener,
    }
}

fn may_be_left_out(parameter: Parameter) -> bool
    ensures { result ≡ may_be_left_out parameter }
{
    matches!(parameter, Parameter::Optional(_, _))
}

fn result_type_of(given: Option<NativeType>) -> ValueType
    ensures { type_of result ≡ result_type_of given }
{
    match given {
        None => ValueType::Void,
        Some(kind) => native_type(kind),
    }
}

/// The type of the catalog that a type of code is.
pub fn native_type(kind: NativeType) -> ValueType
    ensures { type_of result ≡ native_type kind }
{
    match kind {
        NativeType::Int => ValueType::Int,
        NativeType::Boolean => ValueType::Boolean,
        NativeType::String => ValueType::String,
        NativeType::Object(class) => ValueType::Object(Class::Native(class)),
        NativeType::Any => ValueType::Any,
    }
}

// The types that code names.

ghost use Rattle.std.specs.Prelude.{◌≡◌, ◌<◌, IfOk, List, Option, length, map, option_map};
ghost use Rattle.source_sites.specs.Functions.{is_constructor};
ghost use Rattle.source_sites.specs.Members.{built_in, result_type, signature_of, type_at, type_of_class};
ghost use Rattle.source_sites.specs.Names as names;
ghost use Rattle.source_sites.specs.Names.{path_names};
ghost use Rattle.source_sites.specs.Trees.{result_of};
ghost use Rattle.source_sites.specs.Syntax.{TypedName};
ghost use Rattle.as3_parser.specs.declared.tree.Parameter.{Parameter};
ghost use Rattle.as3_parser.specs.declared.tree.ResultType.{ResultType};
ghost use Rattle.as3_types.specs.Meanings.{meaning_of};
ghost use Rattle.as3_types.specs.Types.{built_in_path, function_of, signature_as, type_of, type_of_parameter};
ghost use Rattle.as3_types.specs.Clauses.{IsSignature, NamesConstructor};

use crate::imports::class_at;
use crate::meaning::Meaning;
use as3_parser::{Lexeme, Parameter, ResultType};
use flex_base::{NoMemory, Sequence};
use flex_world::Class;
use source_sites::NamedClass;
use std::alloc::Global;

/// The type of an expression, a variable, a parameter or a result. ActionScript 3.
#[derive(Clone, Copy, Debug, PartialEq, Eq)]
pub enum ValueType {
    Int,
    Boolean,
    String,
    Array,
    Object(Class),
    /// `*`
    Any,
    /// That of `null`.
    Nothing,
    Void,
    /// That of a parameter that takes a listener.
    Listener,
    /// There is none, because another rule is broken.
    Unknown,
}

/// What a call has to give, and what it gives back.
#[derive(Drop)]
pub struct Signature {
    pub parameters: Sequence<ValueType>,
    /// So many of the last parameters may be left out.
    pub optional: usize,
    pub result: ValueType,
}

/// The type that names joined by dots stand for in the code of a class: one that stands for itself,
/// else a class; `Unknown` exactly where there is none.
#[tactic(auto, using(crate::proofs::Typed::by_class, crate::proofs::Typed::by_name))]
pub fn type_at(
    alloc: Global,
    classes: &[NamedClass],
    here: &NamedClass,
    path: &[Lexeme],
) -> Result<ValueType, NoMemory>
    ensures { IfOk result (λ t. type_of t ≡ type_at classes.now here.now (path_names path.now)) }
{
    if let Some(found) = bare_type(path) {
        return Ok(found);
    }
    let class = class_at(alloc, classes, here, path)?;
    Ok(type_of_class(class))
}

// The type that stands for itself, where a path is its name alone.
fn bare_type(path: &[Lexeme]) -> Option<ValueType>
    ensures { option_map type_of result ≡ built_in_path (path_names path.now) }
{
    match path {
        [name] => built_in(name.text.as_str()),
        _ => None,
    }
}

/// A type that stands for itself.
pub fn built_in(name: &str) -> Option<ValueType>
    ensures { option_map type_of result ≡ built_in name.now }
{
    match name {
        "int" => Some(ValueType::Int),
        "Boolean" => Some(ValueType::Boolean),
        "String" => Some(ValueType::String),
        "Array" => Some(ValueType::Array),
        _ => None,
    }
}

/// The type of the objects of a class.
pub fn type_of_class(class: Meaning) -> ValueType
    ensures { type_of result ≡ type_of_class (names.class_of (meaning_of class)) }
{
    match class {
        Meaning::Class(class) => ValueType::Object(class),
        Meaning::NoClass | Meaning::State => ValueType::Unknown,
    }
}

/// What a function in the code of a class takes and gives.
pub fn signature_of(
    alloc: Global,
    classes: &[NamedClass],
    here: &NamedClass,
    name: &Lexeme,
    parameters: &[Parameter],
    given: &Option<ResultType>,
) -> Result<Signature, NoMemory>
    ensures { IfOk result (IsSignature classes.now here.now name.now parameters.now given.now) }
{
    let types = parameter_types(alloc, classes, here, parameters)?;
    let result = result_type(alloc, classes, here, name, given)?;
    Ok(Signature {
        parameters: types,
        optional: 0,
        result,
    })
}

fn parameter_types(
    alloc: Global,
    classes: &[NamedClass],
    here: &NamedClass,
    parameters: &[Parameter],
) -> Result<Sequence<ValueType>, NoMemory>
    ensures { IfOk result (λ types. map type_of types ≡ map (type_of_parameter classes.now here.now) parameters.now) }
{
    let mut types = Sequence::new(alloc);
    for parameter in parameters {
        types.push(type_at(alloc, classes, here, parameter.type_name.as_slice())?)?;
    }
    Ok(types)
}

// What a function gives.
fn result_type(
    alloc: Global,
    classes: &[NamedClass],
    here: &NamedClass,
    name: &Lexeme,
    given: &Option<ResultType>,
) -> Result<ValueType, NoMemory>
    ensures { IfOk result (λ t. (parameters : List Parameter) (locals : List TypedName) → type_of t ≡ result_type classes.now here.now (function_of name.now parameters given.now locals) (result_of given.now)) }
{
    match given {
        None if is_constructor(here, name) => Ok(ValueType::Void),
        None => Ok(ValueType::Unknown),
        Some(ResultType::Void(_)) => Ok(ValueType::Void),
        Some(ResultType::Path(path)) => type_at(alloc, classes, here, path.as_slice()),
    }
}

/// Whether a function of this name is a constructor of a class.
pub fn is_constructor(here: &NamedClass, name: &Lexeme) -> bool
    ensures { NamesConstructor here.now name.now result }
{
    name.text.as_str() == here.name.as_str()
}

// Programs and their classes.

ghost use Rattle.std.specs.Option.{option_copied};
ghost use Rattle.std.specs.Prelude.{◌≡◌, map, option_map};
ghost use Rattle.flex_program.specs.CodeTerms.{method_of};
ghost use Rattle.flex_program.specs.ProgramTerms.{HasDocument, constructor_of, member_of, program_of, source_class_of, variable_of};

use crate::code::{Expr, Method};
use crate::document::Document;
use flex_base::Text;
use flex_world::{Class, StaticType};

/// A variable or an id of a class.
#[derive(Drop)]
pub struct Variable {
    pub name: Text,
    pub kind: StaticType,
    pub start: Option<Expr>,
    pub public: bool,
    pub bindable: bool,
}

/// The name of a method in a class, and its number among the program's methods.
#[derive(Drop)]
pub struct Member {
    pub name: Text,
    pub method: u32,
}

/// A written constructor: its number among the program's methods, and whether its body has
/// `super(..)`.
#[derive(Clone, Copy, Debug, PartialEq, Eq)]
pub struct Constructor {
    pub method: u32,
    pub calls_super: bool,
}

/// A class of the sources.
#[derive(Drop)]
pub struct SourceClass {
    /// The full dotted name.
    pub name: Text,
    pub base: Option<Class>,
    /// Its own, ids included, in order of declaration.
    pub variables: Vec<Variable>,
    /// Its own.
    pub members: Vec<Member>,
    pub constructor: Option<Constructor>,
    /// Of an MXML document.
    pub document: Option<Document>,
}

impl SourceClass {
    /// The full dotted name.
    pub fn name(&self) -> &str
        ensures { result.now ≡ (source_class_of self.now).name }
    {
        self.name.as_str()
    }

    /// The class that it extends, if there is one.
    pub fn base(&self) -> Option<Class>
        ensures { result ≡ (source_class_of self.now).base }
    {
        self.base
    }

    /// Its own variables and ids, in order of declaration.
    pub fn variables(&self) -> &[Variable]
        ensures { map variable_of result.now ≡ (source_class_of self.now).variables }
    {
        &self.variables
    }

    /// Its own methods.
    pub fn members(&self) -> &[Member]
        ensures { map member_of result.now ≡ (source_class_of self.now).members }
    {
        &self.members
    }

    /// Its constructor, if one is written.
    pub fn constructor(&self) -> Option<Constructor>
        ensures { option_map constructor_of result ≡ (source_class_of self.now).constructor }
    {
        self.constructor
    }

    /// What it declares, if it is an MXML document.
    pub fn document(&self) -> Option<&Document>
        ensures { HasDocument self.now (option_copied result) }
    {
        self.document.as_ref()
    }
}

/// A checked program.
#[derive(Drop)]
pub struct Program {
    pub classes: Vec<SourceClass>,
    pub methods: Vec<Method>,
    /// The number of the class of the main document.
    pub main: u32,
}

impl Program {
    /// The classes; the number of each is its place.
    pub fn classes(&self) -> &[SourceClass]
        ensures { map source_class_of result.now ≡ (program_of self.now).classes }
    {
        &self.classes
    }

    /// All methods, constructors and handlers; the number of each is its place.
    pub fn methods(&self) -> &[Method]
        ensures { map method_of result.now ≡ (program_of self.now).methods }
    {
        &self.methods
    }

    /// The number of the class of the main document.
    pub fn main(&self) -> u32
        ensures { result ≡ (program_of self.now).main }
    {
        self.main
    }
}

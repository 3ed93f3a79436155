// The program of a document of Labels and Buttons.

ghost use Rattle.std.specs.List.{flat_map};
ghost use Rattle.std.specs.Prelude.{◌≡◌, ◌≤◌, IfOk, length, map};
ghost use Rattle.flex_program.specs.CodeTerms.{method_of};
ghost use Rattle.flex_program.specs.DocumentTerms.{document_of, instance_of};
ghost use Rattle.flex_program.specs.ProgramTerms.{program_of, source_class_of, variable_of};
ghost use Rattle.built_programs.specs.Programs.{declared_document, handler_of, handlers_in, id_variable, main_class, root_of, source_program};

use crate::children::{children, class_of, id_of};
use component_catalog::NativeClass;
use flex_base::{NoMemory, Text};
use flex_front::{Document as Source, Element};
use flex_program::{
    Class, Document, Expr, Instance, Literal, Method, Part, Program, SourceClass, Start,
    StaticType, Stmt, Variable,
};
use std::alloc::Global;

/// The program of a document of at most 100 Labels and Buttons: the class `Main`, which extends
/// Application, and the handlers of its Buttons in document order.
pub fn source_program(alloc: Global, source: &Source) -> Result<Program, NoMemory>
    requires { length source.now.elements ≤ 100 }
    ensures { IfOk result (λ program. program_of program ≡ source_program source.now) }
{
    let elements = source.elements.as_slice();
    let mut classes = Vec::new(alloc);
    classes.push(main_class(alloc, elements)?)?;
    Ok(Program {
        classes,
        methods: handlers(alloc, elements)?,
        main: 0,
    })
}

fn main_class(alloc: Global, elements: &[Element]) -> Result<SourceClass, NoMemory>
    requires { length elements.now ≤ 100 }
    ensures { IfOk result (λ class. source_class_of class ≡ main_class elements.now) }
{
    Ok(SourceClass {
        name: Text::make(alloc, "Main")?,
        base: Some(Class::Native(NativeClass::Application)),
        variables: id_variables(alloc, elements)?,
        members: Vec::new(alloc),
        constructor: None,
        document: Some(declared_document(alloc, elements)?),
    })
}

fn declared_document(alloc: Global, elements: &[Element]) -> Result<Document, NoMemory>
    requires { length elements.now ≤ 100 }
    ensures { IfOk result (λ document. document_of document ≡ declared_document elements.now) }
{
    Ok(Document {
        root: root(alloc, elements)?,
        bindings: Vec::new(alloc),
        states: Vec::new(alloc),
    })
}

fn root(alloc: Global, elements: &[Element]) -> Result<Instance, NoMemory>
    requires { length elements.now ≤ 100 }
    ensures { IfOk result (λ root. instance_of root ≡ root_of elements.now) }
{
    let part = Part {
        number: 0,
        class: Class::Native(NativeClass::Application),
        id: None,
        presence: None,
        attributes: Vec::new(alloc),
    };
    Ok(Instance {
        part,
        contents: children(alloc, elements)?,
    })
}

fn id_variables(alloc: Global, elements: &[Element]) -> Result<Vec<Variable>, NoMemory>
    ensures { IfOk result (λ variables. map variable_of variables.items ≡ map id_variable elements.now) }
{
    let mut variables = Vec::new(alloc);
    for element in elements {
        variables.push(id_variable(element)?)?;
    }
    Ok(variables)
}

// An id is a variable of its document.
fn id_variable(element: &Element) -> Result<Variable, NoMemory>
    ensures { IfOk result (λ variable. variable_of variable ≡ id_variable element.now) }
{
    Ok(Variable {
        name: id_of(element).clone()?,
        kind: StaticType::Object(Class::Native(class_of(element))),
        start: None,
        public: true,
        bindable: true,
    })
}

fn handlers(alloc: Global, elements: &[Element]) -> Result<Vec<Method>, NoMemory>
    ensures { IfOk result (λ methods. map method_of methods.items ≡ flat_map handlers_in elements.now) }
{
    let mut methods = Vec::new(alloc);
    for element in elements {
        if let Element::Button {
            click: Some(text),
            ..
        } = element
        {
            methods.push(handler(alloc, text)?)?;
        }
    }
    Ok(methods)
}

// A handler of clicks, which traces a text.
fn handler(alloc: Global, text: &Text) -> Result<Method, NoMemory>
    ensures { IfOk result (λ method. method_of method ≡ handler_of text.now) }
{
    let mut arguments = Vec::new(alloc);
    arguments.push(Expr {
        start: Start::Constant(Literal::Text(text.clone()?)),
        steps: Vec::new(alloc),
    })?;
    let mut body = Vec::new(alloc);
    body.push(Stmt::Trace(arguments))?;
    let mut parameters = Vec::new(alloc);
    parameters.push(StaticType::Object(Class::Native(NativeClass::MouseEvent)))?;
    Ok(Method {
        parameters,
        locals: Vec::new(alloc),
        result: None,
        body,
    })
}

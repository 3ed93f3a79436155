// The elements of a document as instances.

ghost use Rattle.std.specs.Prelude.{◌≡◌, ◌<◌, ◌≤◌, IfOk, length, map};
ghost use Rattle.flex_front.specs.Source as source;
ghost use Rattle.flex_program.specs.DocumentTerms.{attribute_of, contents_of, instance_of, part_of};
ghost use Rattle.built_programs.specs.Programs.{attributes_of, child_of, children_of, element_class, element_part, next_handler};

use component_catalog::NativeClass;
use flex_base::{NoMemory, Text};
use flex_front::Element;
use flex_program::{Attribute, Class, Content, Instance, Literal, Part, laws_of_terms};
use std::alloc::Global;

// The children of the root, which is number 0.
pub fn children(alloc: Global, elements: &[Element]) -> Result<Vec<Content>, NoMemory>
    requires { length elements.now ≤ 100 }
    ensures { IfOk result (λ contents. contents_of contents.items ≡ children_of 1 0 elements.now) }
{
    laws_of_terms();
    let mut contents = Vec::new(alloc);
    let mut number = 1;
    let mut handler = 0;
    for element in elements {
        contents.push(Content::Child(child(alloc, number, handler, element)?))?;
        number += 1;
        handler = next_handler(handler, element);
    }
    Ok(contents)
}

// An element as the instance of this number, where the next handler has that one.
fn child(alloc: Global, number: u32, handler: u32, element: &Element) -> Result<Instance, NoMemory>
    ensures { IfOk result (λ child. instance_of child ≡ child_of number handler element.now) }
{
    let part = Part {
        number,
        class: Class::Native(class_of(element)),
        id: Some(id_of(element).clone()?),
        presence: None,
        attributes: attributes(alloc, handler, element)?,
    };
    Ok(Instance {
        part,
        contents: Vec::new(alloc),
    })
}

// A Label's text is set, and a Button's handler registered, by its number.
fn attributes(alloc: Global, handler: u32, element: &Element) -> Result<Vec<Attribute>, NoMemory>
    ensures { IfOk result (λ attributes. map attribute_of attributes.items ≡ attributes_of handler element.now) }
{
    let mut attributes = Vec::new(alloc);
    match element {
        Element::Label { text, .. } => attributes.push(Attribute::Sets {
            name: Text::make(alloc, "text")?,
            value: Literal::Text(text.clone()?),
        })?,
        Element::Button { click: Some(_), .. } => attributes.push(Attribute::Handles {
            event: Text::make(alloc, "click")?,
            method: handler,
        })?,
        Element::Button { click: None, .. } => {}
    }
    Ok(attributes)
}

// The number of the handler behind those of this element.
fn next_handler(handler: u32, element: &Element) -> u32
    requires { handler < 100 }
    ensures { result ≡ next_handler handler element.now }
{
    match element {
        Element::Button { click: Some(_), .. } => handler + 1,
        _ => handler,
    }
}

// The class of an element.
pub fn class_of(element: &Element) -> NativeClass
    ensures { result ≡ element_class element.now }
{
    match element {
        Element::Label { .. } => NativeClass::Label,
        Element::Button { .. } => NativeClass::Button,
    }
}

// The id of an element.
pub fn id_of(element: &Element) -> &Text
    ensures { result.now ≡ source.id_of element.now }
{
    match element {
        Element::Label { id, .. } => id,
        Element::Button { id, .. } => id,
    }
}

// The ABC of a document: its class, with one method for each activity.

ghost use Rattle.std.specs.Prelude.{ℕ, ◌≡◌, ◌≤◌, ◌<◌, ◌+◌, ◌++◌, ◌∷◌, [], length, map, pos, IfOk, OnOk, All};
ghost use Rattle.std.specs.List.{flat_map};
ghost use Rattle.avm2_code.specs.Assembly.{FitsForm};
ghost use Rattle.avm2_code.specs.Table.{operands};
ghost use Rattle.avm2_code.specs.declared.parts.Part.{Part};
ghost use Rattle.avm2_code.specs.declared.instruction.Instruction.TheVariants.{GetLocal0, GetLocal1, PushString, SetProperty, GetProperty, CallPropVoid};
ghost use Rattle.flexc.specs.Emitted.{encode_all, each_from, each_handler, fixed_strings, element_strings, handler_text, class_number, id_string, text_string, handler_string, id_name, handler_name, rank_int, fixed_names, element_names, namespaces, pool_of, plain_method, handler_method, methods_of, handler_number, bindable, id_trait, building_trait, handler_trait, instance_traits, instance_of, class_info, script_info, making_code, place_code, element_code, building_code, handler_code, body, handler_body, bodies_of, abc_of};

use abc_format::{
    Abc, ClassIndex, ClassInfo, ConstantPool, InstanceInfo, MetadataIndex, MetadataInfo,
    MethodBody, MethodIndex, MethodInfo, Multiname, MultinameIndex, Namespace, NamespaceIndex,
    NamespaceKind, ScriptInfo, StringIndex, Trait, TraitKind,
};
use avm2_code::{Instruction, Part, Parts, assemble};
use flex_base::{Bytes, NoMemory, Sequence, Text};
use flex_front::{Document, Element};
use std::alloc::Global;

/// The name of the main class.
pub const MAIN: &str = "Main";

// The strings that every pool begins with are numbered from 1 on. Behind them stand each element's
// id, its text and the name of its handler.
const MAIN_STRING: u32 = 1;

const COMPONENTS_STRING: u32 = 2;

const APPLICATION_STRING: u32 = 3;

const LABEL_STRING: u32 = 4;

const TEXT_STRING: u32 = 5;

const RUNTIME_STRING: u32 = 6;

const PLACE_STRING: u32 = 7;

const BUILDING_STRING: u32 = 8;

const BINDABLE_STRING: u32 = 9;

const BUTTON_STRING: u32 = 10;

const TRACE_STRING: u32 = 11;

const CLICK_STRING: u32 = 12;

const ADD_EVENT_LISTENER_STRING: u32 = 13;

const EVENTS_STRING: u32 = 14;

const MOUSE_EVENT_STRING: u32 = 15;

const PUBLIC: u32 = 1;

const COMPONENTS: u32 = 2;

const RUNTIME: u32 = 3;

const EVENTS: u32 = 4;

// Behind the names that every pool begins with stand those of each element's id and of its handler.
const MAIN_NAME: u32 = 1;

const APPLICATION_NAME: u32 = 2;

const LABEL_NAME: u32 = 3;

const TEXT_NAME: u32 = 4;

const PLACE_NAME: u32 = 5;

const BUILDING_NAME: u32 = 6;

const BUTTON_NAME: u32 = 7;

const TRACE_NAME: u32 = 8;

const ADD_EVENT_LISTENER_NAME: u32 = 9;

const MOUSE_EVENT_NAME: u32 = 10;

const SCRIPT_INITIALISER: u32 = 0;

const CLASS_INITIALISER: u32 = 1;

const CONSTRUCTOR: u32 = 2;

const BUILDING: u32 = 3;

const FIRST_HANDLER: u32 = 4;

/// The flag of a class whose instances have no properties but those of its traits.
const SEALED: u8 = 0x01;

// The number of the string of an element's id.
fn id_string(element: u32) -> u32
    requires { element < 100 }
    ensures { result ≡ id_string element }
{
    16 + 3 * element
}

// The number of the string of an element's text.
fn text_string(element: u32) -> u32
    requires { element < 100 }
    ensures { result ≡ text_string element }
{
    17 + 3 * element
}

// The number of the string of the name of an element's handler.
fn handler_string(element: u32) -> u32
    requires { element < 100 }
    ensures { result ≡ handler_string element }
{
    18 + 3 * element
}

// The number of the name of an element's id.
fn id_name(element: u32) -> u32
    requires { element < 100 }
    ensures { result ≡ id_name element }
{
    11 + 2 * element
}

// The number of the name of an element's handler.
fn handler_name(element: u32) -> u32
    requires { element < 100 }
    ensures { result ≡ handler_name element }
{
    12 + 2 * element
}

// The number of the int that is an element's number.
fn rank_int(element: u32) -> u32
    requires { element < 100 }
    ensures { result ≡ rank_int element }
{
    1 + element
}

// The number of the name of an element's class.
fn class_number(element: &Element) -> u32
    ensures { result ≡ class_number element.now }
{
    match element {
        Element::Label { .. } => LABEL_NAME,
        Element::Button { .. } => BUTTON_NAME,
    }
}

/// The ABC of a document.
pub fn emit(alloc: Global, document: &Document) -> Result<Abc, NoMemory>
    requires { length document.now.elements ≤ 100 }
    ensures { IfOk result (λ abc. abc ≡ abc_of document.now.elements) }
{
    let elements = document.elements.as_slice();
    Ok(Abc {
        constant_pool: constant_pool(alloc, elements)?,
        methods: methods(alloc, elements)?,
        metadata: metadata(alloc)?,
        instances: instances(alloc, elements)?,
        classes: classes(alloc)?,
        scripts: scripts(alloc)?,
        method_bodies: method_bodies(alloc, elements)?,
    })
}

fn constant_pool(alloc: Global, elements: &[Element]) -> Result<ConstantPool, NoMemory>
    requires { length elements.now ≤ 100 }
    ensures { IfOk result (λ pool. pool ≡ pool_of elements.now) }
{
    Ok(ConstantPool {
        integers: ranks(alloc, elements.len() as u32)?,
        unsigned_integers: Sequence::new(alloc),
        doubles: Sequence::new(alloc),
        strings: strings(alloc, elements)?,
        namespaces: namespaces(alloc)?,
        namespace_sets: Sequence::new(alloc),
        multinames: multinames(alloc, elements.len() as u32)?,
    })
}

// The numbers of the elements, from 0.
#[tactic(auto, using(crate::proofs::Each::numbers))]
fn ranks(alloc: Global, count: u32) -> Result<Sequence<i32>, NoMemory>
    requires { count ≤ 100 }
    ensures { IfOk result (λ integers. integers ≡ each_from (λ k. pos k ∷ []) 0 count) }
{
    let mut integers = Sequence::new(alloc);
    for element in 0..count {
        integers.push(element as i32)?;
    }
    Ok(integers)
}

fn strings(alloc: Global, elements: &[Element]) -> Result<Sequence<Text>, NoMemory>
    ensures { IfOk result (λ strings. strings ≡ fixed_strings ++ flat_map element_strings elements.now) }
{
    let mut strings = fixed_strings(alloc)?;
    for element in elements {
        put_element_strings(alloc, &mut strings, element)?;
    }
    Ok(strings)
}

fn fixed_strings(alloc: Global) -> Result<Sequence<Text>, NoMemory>
    ensures { IfOk result (λ strings. strings ≡ fixed_strings) }
{
    let mut strings = Sequence::new(alloc);
    strings.push(Text::make(alloc, MAIN)?)?;
    strings.push(Text::make(alloc, "spark.components")?)?;
    strings.push(Text::make(alloc, "Application")?)?;
    strings.push(Text::make(alloc, "Label")?)?;
    strings.push(Text::make(alloc, "text")?)?;
    strings.push(Text::make(alloc, "flexc")?)?;
    strings.push(Text::make(alloc, "place")?)?;
    strings.push(Text::make(alloc, "#building")?)?;
    strings.push(Text::make(alloc, "Bindable")?)?;
    strings.push(Text::make(alloc, "Button")?)?;
    strings.push(Text::make(alloc, "trace")?)?;
    strings.push(Text::make(alloc, "click")?)?;
    strings.push(Text::make(alloc, "addEventListener")?)?;
    strings.push(Text::make(alloc, "flash.events")?)?;
    strings.push(Text::make(alloc, "MouseEvent")?)?;
    Ok(strings)
}

fn put_element_strings(
    alloc: Global,
    strings: &mut Sequence<Text>,
    element: &Element,
) -> Result<(), NoMemory>
    ensures { OnOk result (strings.new ≡ strings.old ++ element_strings element.now) }
{
    match element {
        Element::Label { id, text } => {
            strings.push(id.clone()?)?;
            strings.push(text.clone()?)?;
            strings.push(Text::make(alloc, "")?)
        }
        Element::Button { id, click: None } => {
            strings.push(id.clone()?)?;
            strings.push(Text::make(alloc, "")?)?;
            strings.push(Text::make(alloc, "")?)
        }
        Element::Button {
            id,
            click: Some(text),
        } => {
            strings.push(id.clone()?)?;
            strings.push(text.clone()?)?;
            strings.push(handler_text(alloc, id)?)
        }
    }
}

// The name of the method that handles the clicks of an element.
fn handler_text(alloc: Global, id: &Text) -> Result<Text, NoMemory>
    ensures { IfOk result (λ text. text ≡ handler_text id.now) }
{
    let text = format!(in alloc; "#click-{}", id.as_str())?;
    Text::make(alloc, text.as_str())
}

fn namespaces(alloc: Global) -> Result<Sequence<Namespace>, NoMemory>
    ensures { IfOk result (λ spaces. spaces ≡ namespaces) }
{
    let mut namespaces = Sequence::new(alloc);
    namespaces.push(Namespace {
        kind: NamespaceKind::PackageNamespace,
        name: StringIndex::new(0),
    })?;
    namespaces.push(Namespace {
        kind: NamespaceKind::PackageNamespace,
        name: StringIndex::new(COMPONENTS_STRING),
    })?;
    namespaces.push(Namespace {
        kind: NamespaceKind::Namespace,
        name: StringIndex::new(RUNTIME_STRING),
    })?;
    namespaces.push(Namespace {
        kind: NamespaceKind::PackageNamespace,
        name: StringIndex::new(EVENTS_STRING),
    })?;
    Ok(namespaces)
}

#[tactic(auto, using(crate::proofs::Each::numbers))]
fn multinames(alloc: Global, count: u32) -> Result<Sequence<Multiname>, NoMemory>
    requires { count ≤ 100 }
    ensures { IfOk result (λ names. names ≡ fixed_names ++ each_from element_names 0 count) }
{
    let mut multinames = Sequence::new(alloc);
    multinames.push(qualified(PUBLIC, MAIN_STRING))?;
    multinames.push(qualified(COMPONENTS, APPLICATION_STRING))?;
    multinames.push(qualified(COMPONENTS, LABEL_STRING))?;
    multinames.push(qualified(PUBLIC, TEXT_STRING))?;
    multinames.push(qualified(RUNTIME, PLACE_STRING))?;
    multinames.push(qualified(RUNTIME, BUILDING_STRING))?;
    multinames.push(qualified(COMPONENTS, BUTTON_STRING))?;
    multinames.push(qualified(PUBLIC, TRACE_STRING))?;
    multinames.push(qualified(PUBLIC, ADD_EVENT_LISTENER_STRING))?;
    multinames.push(qualified(EVENTS, MOUSE_EVENT_STRING))?;
    for element in 0..count {
        put_element_names(&mut multinames, element)?;
    }
    Ok(multinames)
}

// The names of an element's id and of its handler.
fn put_element_names(multinames: &mut Sequence<Multiname>, element: u32) -> Result<(), NoMemory>
    requires { element < 100 }
    ensures { OnOk result (multinames.new ≡ multinames.old ++ element_names element) }
{
    multinames.push(qualified(PUBLIC, id_string(element)))?;
    multinames.push(qualified(RUNTIME, handler_string(element)))
}

fn qualified(namespace: u32, name: u32) -> Multiname
    ensures { result ≡ Multiname.QName namespace name }
{
    Multiname::QName {
        namespace: NamespaceIndex::new(namespace),
        name: StringIndex::new(name),
    }
}

fn methods(alloc: Global, elements: &[Element]) -> Result<Sequence<MethodInfo>, NoMemory>
    ensures { IfOk result (λ methods. methods ≡ methods_of elements.now) }
{
    let mut methods = Sequence::new(alloc);
    methods.push(plain_method(alloc))?;
    methods.push(plain_method(alloc))?;
    methods.push(plain_method(alloc))?;
    methods.push(plain_method(alloc))?;
    put_handler_methods(alloc, &mut methods, elements)?;
    Ok(methods)
}

// A method without parameters and without a result.
fn plain_method(alloc: Global) -> MethodInfo
    ensures { result ≡ plain_method }
{
    MethodInfo {
        return_type: MultinameIndex::new(0),
        param_types: Sequence::new(alloc),
        name: StringIndex::new(0),
        flags: 0,
        options: Sequence::new(alloc),
        param_names: Sequence::new(alloc),
    }
}

// A method for each handler, whichever numbers the first handler and the first element have.
fn put_handler_methods(
    alloc: Global,
    methods: &mut Sequence<MethodInfo>,
    elements: &[Element],
) -> Result<(), NoMemory>
    ensures { OnOk result ((h k : ℕ) → methods.new ≡ methods.old ++ each_handler (λ m n. handler_method) h k elements.now) }
{
    match elements {
        [] => Ok(()),
        [Element::Button { click: Some(_), .. }, rest @ ..] => {
            methods.push(handler_method(alloc)?)?;
            put_handler_methods(alloc, methods, rest)
        }
        [_, rest @ ..] => put_handler_methods(alloc, methods, rest),
    }
}

// The method of a handler, whose parameter is the event.
fn handler_method(alloc: Global) -> Result<MethodInfo, NoMemory>
    ensures { IfOk result (λ method. method ≡ handler_method) }
{
    let mut param_types = Sequence::new(alloc);
    param_types.push(MultinameIndex::new(MOUSE_EVENT_NAME))?;
    Ok(MethodInfo {
        return_type: MultinameIndex::new(0),
        param_types,
        name: StringIndex::new(0),
        flags: 0,
        options: Sequence::new(alloc),
        param_names: Sequence::new(alloc),
    })
}

// The number of the method of a handler.
fn handler_number(handler: u32) -> u32
    requires { handler < 100 }
    ensures { result ≡ handler_number handler }
{
    FIRST_HANDLER + handler
}

fn metadata(alloc: Global) -> Result<Sequence<MetadataInfo>, NoMemory>
    ensures { IfOk result (λ metadata. metadata ≡ bindable ∷ []) }
{
    let mut metadata = Sequence::new(alloc);
    metadata.push(MetadataInfo {
        name: StringIndex::new(BINDABLE_STRING),
        items: Sequence::new(alloc),
    })?;
    Ok(metadata)
}

fn instances(alloc: Global, elements: &[Element]) -> Result<Sequence<InstanceInfo>, NoMemory>
    requires { length elements.now ≤ 100 }
    ensures { IfOk result (λ instances. instances ≡ instance_of elements.now ∷ []) }
{
    let traits = instance_traits(alloc, elements)?;
    let mut instances = Sequence::new(alloc);
    instances.push(InstanceInfo {
        name: MultinameIndex::new(MAIN_NAME),
        super_name: MultinameIndex::new(APPLICATION_NAME),
        flags: SEALED,
        protected_namespace: NamespaceIndex::new(0),
        interfaces: Sequence::new(alloc),
        iinit: MethodIndex::new(CONSTRUCTOR),
        traits,
    })?;
    Ok(instances)
}

fn instance_traits(alloc: Global, elements: &[Element]) -> Result<Sequence<Trait>, NoMemory>
    requires { length elements.now ≤ 100 }
    ensures { IfOk result (λ traits. traits ≡ instance_traits elements.now) }
{
    let mut traits = Sequence::new(alloc);
    for number in 0..elements.len() {
        traits.push(id_trait(alloc, number as u32, &elements[number])?)?;
    }
    traits.push(building_trait(alloc))?;
    put_handler_traits(alloc, &mut traits, 0, 0, elements)?;
    Ok(traits)
}

// The bindable slot of an element's id.
fn id_trait(alloc: Global, number: u32, element: &Element) -> Result<Trait, NoMemory>
    requires { number < 100 }
    ensures { IfOk result (λ member. member ≡ id_trait number element.now) }
{
    let mut metadata = Sequence::new(alloc);
    metadata.push(MetadataIndex::new(0))?;
    Ok(Trait {
        name: MultinameIndex::new(id_name(number)),
        kind: TraitKind::Slot {
            slot_id: 0,
            type_name: MultinameIndex::new(class_number(element)),
            vindex: 0,
            vkind: 0,
        },
        attributes: Trait::METADATA,
        metadata,
    })
}

// The method that builds the document.
fn building_trait(alloc: Global) -> Trait
    ensures { result ≡ building_trait }
{
    Trait {
        name: MultinameIndex::new(BUILDING_NAME),
        kind: TraitKind::Method {
            disp_id: 0,
            method: MethodIndex::new(BUILDING),
        },
        attributes: 0,
        metadata: Sequence::new(alloc),
    }
}

// A trait for each handler, where the first handler and the first element have these numbers.
fn put_handler_traits(
    alloc: Global,
    traits: &mut Sequence<Trait>,
    handler: u32,
    number: u32,
    elements: &[Element],
) -> Result<(), NoMemory>
    requires handlers { handler ≤ number }
    requires elements { number + length elements.now ≤ 100 }
    ensures { OnOk result (traits.new ≡ traits.old ++ each_handler handler_trait handler number elements.now) }
{
    match elements {
        [] => Ok(()),
        [Element::Button { click: Some(_), .. }, rest @ ..] => {
            traits.push(handler_trait(alloc, handler, number))?;
            put_handler_traits(alloc, traits, handler + 1, number + 1, rest)
        }
        [_, rest @ ..] => put_handler_traits(alloc, traits, handler, number + 1, rest),
    }
}

// The method that handles the clicks of an element.
fn handler_trait(alloc: Global, handler: u32, number: u32) -> Trait
    requires handler { handler < 100 }
    requires number { number < 100 }
    ensures { result ≡ handler_trait handler number }
{
    Trait {
        name: MultinameIndex::new(handler_name(number)),
        kind: TraitKind::Method {
            disp_id: 0,
            method: MethodIndex::new(handler_number(handler)),
        },
        attributes: 0,
        metadata: Sequence::new(alloc),
    }
}

fn classes(alloc: Global) -> Result<Sequence<ClassInfo>, NoMemory>
    ensures { IfOk result (λ classes. classes ≡ class_info ∷ []) }
{
    let mut classes = Sequence::new(alloc);
    classes.push(ClassInfo {
        cinit: MethodIndex::new(CLASS_INITIALISER),
        traits: Sequence::new(alloc),
    })?;
    Ok(classes)
}

fn scripts(alloc: Global) -> Result<Sequence<ScriptInfo>, NoMemory>
    ensures { IfOk result (λ scripts. scripts ≡ script_info ∷ []) }
{
    let mut traits = Sequence::new(alloc);
    traits.push(Trait {
        name: MultinameIndex::new(MAIN_NAME),
        kind: TraitKind::Class {
            slot_id: 0,
            class: ClassIndex::new(0),
        },
        attributes: 0,
        metadata: Sequence::new(alloc),
    })?;
    let mut scripts = Sequence::new(alloc);
    scripts.push(ScriptInfo {
        init: MethodIndex::new(SCRIPT_INITIALISER),
        traits,
    })?;
    Ok(scripts)
}

// Makes the class, and writes it into the script's slot.
const SCRIPT_INITIALISER_CODE: [Instruction; 5] = [
    Instruction::GetLocal0,
    Instruction::GetLex {
        name: APPLICATION_NAME,
    },
    Instruction::NewClass { class: 0 },
    Instruction::InitProperty { name: MAIN_NAME },
    Instruction::ReturnVoid,
];

const CLASS_INITIALISER_CODE: [Instruction; 1] = [Instruction::ReturnVoid];

// Runs the base's constructor, and builds the document.
const CONSTRUCTOR_CODE: [Instruction; 5] = [
    Instruction::GetLocal0,
    Instruction::ConstructSuper { count: 0 },
    Instruction::GetLocal0,
    Instruction::CallPropVoid {
        name: BUILDING_NAME,
        count: 0,
    },
    Instruction::ReturnVoid,
];

// Makes an element, and writes its id.
fn making_code(number: u32, element: &Element) -> [Instruction; 6]
    requires { number < 100 }
    ensures { result ≡ making_code number element.now }
{
    let class = class_number(element);
    [
        Instruction::FindPropStrict { name: class },
        Instruction::ConstructProp {
            name: class,
            count: 0,
        },
        Instruction::SetLocal1,
        Instruction::GetLocal0,
        Instruction::GetLocal1,
        Instruction::SetProperty {
            name: id_name(number),
        },
    ]
}

// Writes the text of a Label.
fn text_code(number: u32) -> [Instruction; 3]
    requires { number < 100 }
    ensures { result ≡ GetLocal1 ∷ PushString (text_string number) ∷ SetProperty 4 ∷ [] }
{
    [
        Instruction::GetLocal1,
        Instruction::PushString {
            string: text_string(number),
        },
        Instruction::SetProperty { name: TEXT_NAME },
    ]
}

// Registers the handler of a Button's clicks.
fn registering_code(number: u32) -> [Instruction; 5]
    requires { number < 100 }
    ensures { result ≡ GetLocal1 ∷ PushString 12 ∷ GetLocal0 ∷ GetProperty (handler_name number) ∷ CallPropVoid 9 2 ∷ [] }
{
    [
        Instruction::GetLocal1,
        Instruction::PushString {
            string: CLICK_STRING,
        },
        Instruction::GetLocal0,
        Instruction::GetProperty {
            name: handler_name(number),
        },
        Instruction::CallPropVoid {
            name: ADD_EVENT_LISTENER_NAME,
            count: 2,
        },
    ]
}

// Adds the element to the document.
fn place_code(number: u32) -> [Instruction; 5]
    requires { number < 100 }
    ensures { result ≡ place_code number }
{
    [
        Instruction::GetLocal0,
        Instruction::GetLocal0,
        Instruction::GetLocal1,
        Instruction::PushInt {
            int: rank_int(number),
        },
        Instruction::CallPropVoid {
            name: PLACE_NAME,
            count: 3,
        },
    ]
}

// Makes an element, writes its id, applies its attributes, and adds it to the document.
fn put_element(
    code: &mut Sequence<Instruction>,
    number: u32,
    element: &Element,
) -> Result<(), NoMemory>
    requires { number < 100 }
    ensures { OnOk result (code.new ≡ code.old ++ element_code number element.now) }
{
    put_all(code, &making_code(number, element))?;
    match element {
        Element::Label { .. } => put_all(code, &text_code(number))?,
        Element::Button { click: None, .. } => {}
        Element::Button { click: Some(_), .. } => put_all(code, &registering_code(number))?,
    }
    put_all(code, &place_code(number))
}

// Builds the elements one after another.
fn building_code(alloc: Global, elements: &[Element]) -> Result<Sequence<Instruction>, NoMemory>
    requires { length elements.now ≤ 100 }
    ensures { IfOk result (λ code. code ≡ building_code elements.now) }
{
    let mut code = Sequence::new(alloc);
    for number in 0..elements.len() {
        put_element(&mut code, number as u32, &elements[number])?;
    }
    code.push(Instruction::ReturnVoid)?;
    Ok(code)
}

// Traces the text of a handler.
fn handler_code(number: u32) -> [Instruction; 4]
    requires { number < 100 }
    ensures { result ≡ handler_code number }
{
    [
        Instruction::FindPropStrict { name: TRACE_NAME },
        Instruction::PushString {
            string: text_string(number),
        },
        Instruction::CallPropVoid {
            name: TRACE_NAME,
            count: 1,
        },
        Instruction::ReturnVoid,
    ]
}

fn put_all(code: &mut Sequence<Instruction>, instructions: &[Instruction]) -> Result<(), NoMemory>
    ensures { OnOk result (code.new ≡ code.old ++ instructions.now) }
{
    for instruction in instructions {
        code.push(*instruction)?;
    }
    Ok(())
}

// The bytes of code without branches.
fn assembled(alloc: Global, instructions: &[Instruction]) -> Result<Bytes, NoMemory>
    requires fits { All (λ i. All FitsForm (operands i)) instructions.now }
    requires few { length instructions.now < 100000 }
    ensures { IfOk result (λ code. code ≡ encode_all instructions.now) }
{
    let parts = plain_parts(alloc, instructions)?;
    let marks = Sequence::new(alloc);
    assemble(alloc, &Parts { parts, marks })
}

fn plain_parts(alloc: Global, instructions: &[Instruction]) -> Result<Sequence<Part>, NoMemory>
    ensures { IfOk result (λ parts. parts ≡ map Part.Plain instructions.now) }
{
    let mut parts = Sequence::new(alloc);
    for instruction in instructions {
        parts.push(Part::Plain(*instruction))?;
    }
    Ok(parts)
}

fn method_bodies(alloc: Global, elements: &[Element]) -> Result<Sequence<MethodBody>, NoMemory>
    requires { length elements.now ≤ 100 }
    ensures { IfOk result (λ bodies. bodies ≡ bodies_of elements.now) }
{
    let mut bodies = Sequence::new(alloc);
    let script_initialiser = assembled(alloc, &SCRIPT_INITIALISER_CODE)?;
    bodies.push(body(alloc, SCRIPT_INITIALISER, 2, 1, script_initialiser))?;
    let class_initialiser = assembled(alloc, &CLASS_INITIALISER_CODE)?;
    bodies.push(body(alloc, CLASS_INITIALISER, 0, 1, class_initialiser))?;
    let constructor = assembled(alloc, &CONSTRUCTOR_CODE)?;
    bodies.push(body(alloc, CONSTRUCTOR, 1, 1, constructor))?;
    let building = building_code(alloc, elements)?;
    let building = assembled(alloc, building.as_slice())?;
    bodies.push(body(alloc, BUILDING, 4, 2, building))?;
    put_handler_bodies(alloc, &mut bodies, 0, 0, elements)?;
    Ok(bodies)
}

// A body for each handler, where the first handler and the first element have these numbers.
fn put_handler_bodies(
    alloc: Global,
    bodies: &mut Sequence<MethodBody>,
    handler: u32,
    number: u32,
    elements: &[Element],
) -> Result<(), NoMemory>
    requires handlers { handler ≤ number }
    requires elements { number + length elements.now ≤ 100 }
    ensures { OnOk result (bodies.new ≡ bodies.old ++ each_handler handler_body handler number elements.now) }
{
    match elements {
        [] => Ok(()),
        [Element::Button { click: Some(_), .. }, rest @ ..] => {
            bodies.push(handler_body(alloc, handler, number)?)?;
            put_handler_bodies(alloc, bodies, handler + 1, number + 1, rest)
        }
        [_, rest @ ..] => put_handler_bodies(alloc, bodies, handler, number + 1, rest),
    }
}

// The body of a handler.
fn handler_body(alloc: Global, handler: u32, number: u32) -> Result<MethodBody, NoMemory>
    requires handler { handler < 100 }
    requires number { number < 100 }
    ensures { IfOk result (λ body. body ≡ handler_body handler number) }
{
    let code = assembled(alloc, &handler_code(number))?;
    Ok(body(alloc, handler_number(handler), 2, 2, code))
}

fn body(alloc: Global, method: u32, max_stack: u32, local_count: u32, code: Bytes) -> MethodBody
    ensures { result ≡ body method max_stack local_count code }
{
    MethodBody {
        method: MethodIndex::new(method),
        max_stack,
        local_count,
        init_scope_depth: 0,
        max_scope_depth: 0,
        code,
        exceptions: Sequence::new(alloc),
        traits: Sequence::new(alloc),
    }
}

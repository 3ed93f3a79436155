// A program that is built by hand and read back, and an expression with very many steps.

use crate::{
    Attribute, Binding, BindingSource, Change, Class, Content, Destination, Document, Expr,
    Instance, Literal, Member, Method, Operator, Override, Part, Program, SourceClass, Start,
    State, StaticType, Step, Stmt, Variable, WatchedChain,
};
use component_catalog::NativeClass;
use flex_base::{Bytes, Chain, NoMemory, Text};
use std::alloc::Global;
use std::test::Fail;

// `<s:Button id="go" label="{guest}" click="greet()"/>` in an Application, where `greet` is
// `trace(guest + '!')`, and a state in which the button is disabled.
fn program(alloc: Global) -> Result<Program, NoMemory> {
    let mut members = Vec::new(alloc);
    members.push(Member {
        name: Text::make(alloc, "greet")?,
        method: 0,
    })?;
    let class = SourceClass {
        name: Text::make(alloc, "Main")?,
        base: Some(Class::Native(NativeClass::Application)),
        variables: variables(alloc)?,
        members,
        constructor: None,
        document: Some(document(alloc)?),
    };
    let mut classes = Vec::new(alloc);
    classes.push(class)?;
    let mut methods = Vec::new(alloc);
    methods.push(greet(alloc)?)?;
    Ok(Program {
        classes,
        methods,
        main: 0,
    })
}

fn variables(alloc: Global) -> Result<Vec<Variable>, NoMemory> {
    let mut variables = Vec::new(alloc);
    variables.push(Variable {
        name: Text::make(alloc, "guest")?,
        kind: StaticType::String,
        start: Some(text(alloc, "Ada")?),
        public: true,
        bindable: true,
    })?;
    variables.push(Variable {
        name: Text::make(alloc, "go")?,
        kind: StaticType::Object(Class::Native(NativeClass::Button)),
        start: None,
        public: true,
        bindable: true,
    })?;
    Ok(variables)
}

fn text(alloc: Global, s: &str) -> Result<Expr, NoMemory> {
    Ok(Expr {
        start: Start::Constant(Literal::Text(Text::make(alloc, s)?)),
        steps: Vec::new(alloc),
    })
}

// `this.guest`
fn guest(alloc: Global) -> Result<Expr, NoMemory> {
    let mut steps = Vec::new(alloc);
    steps.push(Step::Property(Text::make(alloc, "guest")?))?;
    Ok(Expr {
        start: Start::This,
        steps,
    })
}

fn greet(alloc: Global) -> Result<Method, NoMemory> {
    let mut greeting = guest(alloc)?;
    greeting
        .steps
        .push(Step::Apply(Operator::Plus, text(alloc, "!")?))?;
    let mut arguments = Vec::new(alloc);
    arguments.push(greeting)?;
    let mut body = Vec::new(alloc);
    body.push(Stmt::Trace(arguments))?;
    Ok(Method {
        parameters: Vec::new(alloc),
        locals: Vec::new(alloc),
        result: None,
        body,
    })
}

fn document(alloc: Global) -> Result<Document, NoMemory> {
    let mut contents = Vec::new(alloc);
    contents.push(Content::Child(button(alloc)?))?;
    let root = Instance {
        part: Part {
            number: 0,
            class: Class::Native(NativeClass::Application),
            id: None,
            presence: None,
            attributes: Vec::new(alloc),
        },
        contents,
    };
    let mut bindings = Vec::new(alloc);
    bindings.push(label(alloc)?)?;
    let mut states = Vec::new(alloc);
    states.push(busy(alloc)?)?;
    Ok(Document {
        root,
        bindings,
        states,
    })
}

fn button(alloc: Global) -> Result<Instance, NoMemory> {
    let mut attributes = Vec::new(alloc);
    attributes.push(Attribute::Handles {
        event: Text::make(alloc, "click")?,
        method: 0,
    })?;
    Ok(Instance {
        part: Part {
            number: 1,
            class: Class::Native(NativeClass::Button),
            id: Some(Text::make(alloc, "go")?),
            presence: None,
            attributes,
        },
        contents: Vec::new(alloc),
    })
}

fn label(alloc: Global) -> Result<Binding, NoMemory> {
    let mut names = Chain::new(alloc);
    names.push(Text::make(alloc, "guest")?)?;
    let mut chains = Vec::new(alloc);
    chains.push(WatchedChain { start: None, names })?;
    Ok(Binding {
        source: BindingSource::Expression(guest(alloc)?),
        destination: Destination::Instance {
            instance: 1,
            name: Text::make(alloc, "label")?,
        },
        chains,
        counterpart: None,
        second: false,
    })
}

fn busy(alloc: Global) -> Result<State, NoMemory> {
    let mut overrides = Vec::new(alloc);
    overrides.push(Override {
        instance: 1,
        change: Change::Property {
            name: Text::make(alloc, "enabled")?,
            value: Literal::Bool(false),
        },
    })?;
    Ok(State {
        name: Text::make(alloc, "busy")?,
        overrides,
    })
}

fn put(words: &mut Bytes, word: &str) -> Result<(), NoMemory> {
    words.extend(word.as_bytes())?;
    words.push(b' ')
}

// The names and texts of a program, as its readers give them.
fn words_of(alloc: Global, program: &Program) -> Result<Bytes, NoMemory> {
    let mut words = Bytes::new(alloc);
    for class in program.classes() {
        put_class(&mut words, class)?;
    }
    for method in program.methods() {
        for statement in method.body() {
            put_trace(&mut words, statement)?;
        }
    }
    Ok(words)
}

fn put_class(words: &mut Bytes, class: &SourceClass) -> Result<(), NoMemory> {
    put(words, class.name())?;
    for variable in class.variables() {
        put(words, variable.name.as_str())?;
    }
    for member in class.members() {
        put(words, member.name.as_str())?;
    }
    match class.document() {
        Some(document) => put_document(words, document),
        None => Ok(()),
    }
}

fn put_document(words: &mut Bytes, document: &Document) -> Result<(), NoMemory> {
    for content in document.root().contents() {
        if let Content::Child(instance) = content {
            put_id(words, instance.part())?;
        }
    }
    for binding in document.bindings() {
        if let Destination::Instance { instance: _, name } = binding.destination() {
            put(words, name.as_str())?;
        }
    }
    for state in document.states() {
        put(words, state.name())?;
    }
    Ok(())
}

fn put_id(words: &mut Bytes, part: &Part) -> Result<(), NoMemory> {
    match &part.id {
        Some(id) => put(words, id.as_str()),
        None => Ok(()),
    }
}

fn put_trace(words: &mut Bytes, statement: &Stmt) -> Result<(), NoMemory> {
    if let Stmt::Trace(arguments) = statement {
        for argument in arguments {
            put_steps(words, argument.steps())?;
        }
    }
    Ok(())
}

fn put_steps(words: &mut Bytes, steps: &[Step]) -> Result<(), NoMemory> {
    for step in steps {
        match step {
            Step::Property(name) => put(words, name.as_str())?,
            Step::Apply(_, right) => put_constant(words, right.start())?,
            _ => {}
        }
    }
    Ok(())
}

fn put_constant(words: &mut Bytes, start: &Start) -> Result<(), NoMemory> {
    match start {
        Start::Constant(Literal::Text(text)) => put(words, text.as_str()),
        _ => Ok(()),
    }
}

#[test]
fn a_program_is_read_back(rt: HostRuntime) -> Result<(), Fail> {
    let alloc = rt.alloc();
    let program = program(alloc)?;
    assert_eq!(rt;
        words_of(alloc, &program)?.as_slice(),
        b"Main guest go greet go label busy guest ! ".as_slice()
    );
    Ok(())
}

#[test]
fn a_long_expression_is_not_deep(rt: HostRuntime) -> Result<(), Fail> {
    let alloc = rt.alloc();
    let mut sum = guest(alloc)?;
    for _ in 0..200_000 {
        sum.steps
            .push(Step::Apply(Operator::Plus, text(alloc, "!")?))?;
    }
    assert_eq!(rt; sum.steps().len(), 200_001);
    Ok(())
}

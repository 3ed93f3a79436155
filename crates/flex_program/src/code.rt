// Expressions, statements and methods.

ghost use Rattle.std.specs.List.{fold};
ghost use Rattle.std.specs.Prelude.{◌≡◌, map, option_map};
ghost use Rattle.flex_program.specs.CodeTerms.{block_of, expr_of, method_of, start_of, step_from};

use flex_base::Text;
use flex_world::{Class, Operator, StaticType};

/// A value that is written in a source.
#[derive(Drop)]
pub enum Literal {
    Null,
    Bool(bool),
    Int(i32),
    Text(Text),
}

/// An expression: what it begins with and, one after another, the steps from there, each of which
/// makes a longer expression of the one so far. `-(a.b + c)` begins with `a`, and its steps are
/// `.b`, `+ c` and the negation. So only what stands in brackets, behind an operator or as an
/// argument is nested, and no chain of operators or properties is deep.
#[cycle(expression)]
#[derive(Drop)]
pub struct Expr {
    pub start: Start,
    pub steps: Vec<Step>,
}

impl Expr {
    /// What the expression begins with.
    pub fn start(&self) -> &Start
        ensures { fold step_from (start_of result.now) self.now.steps.items ≡ expr_of self.now }
    {
        &self.start
    }

    /// The steps from there, in order.
    pub fn steps(&self) -> &[Step]
        ensures { fold step_from (start_of self.now.start) result.now ≡ expr_of self.now }
    {
        &self.steps
    }
}

/// What an expression begins with.
#[cycle(expression)]
#[derive(Drop)]
pub enum Start {
    Constant(Literal),
    This,
    /// A parameter or, numbered behind these, a local variable of the body.
    Local(u32),
    /// `[a, b, c]`.
    Array(Vec<Expr>),
    /// `super.name(..)`: a method that the base names, on this object.
    CallSuper {
        base: Class,
        name: Text,
        arguments: Vec<Expr>,
    },
    New {
        class: Class,
        arguments: Vec<Expr>,
    },
}

/// What makes a longer expression of the one so far, its operand.
#[cycle(expression)]
#[derive(Drop)]
pub enum Step {
    /// A property of an object.
    Property(Text),
    /// The length of a String or an Array.
    Length,
    /// The element at an index.
    Element(Expr),
    /// A method taken from an object as a listener.
    Method(Text),
    /// A call of a method, which the class of the object names.
    Call {
        name: Text,
        arguments: Vec<Expr>,
    },
    Push(Expr),
    Pop,
    /// `int(e)`, `Boolean(e)` or `C(e)`, by the type.
    Convert(StaticType),
    /// `String(e)`.
    ToText,
    Negate,
    Not,
    /// An operator, with its right operand.
    Apply(Operator, Expr),
    And(Expr),
    Or(Expr),
    /// `e ? yes : no`, and the type that its value is converted into.
    Choose {
        yes: Expr,
        no: Expr,
        kind: StaticType,
    },
}

/// What is assigned to.
#[derive(Drop)]
pub enum Place {
    /// A parameter or local variable, and its type.
    Local { number: u32, kind: StaticType },
    Property { object: Expr, name: Text },
    Element { array: Expr, index: Expr },
}

/// A statement.
#[derive(Drop)]
pub enum Stmt {
    /// The value is dropped.
    Do(Expr),
    Trace(Vec<Expr>),
    Assign(Place, Expr),
    /// `place += e`, `place -= e` or `place *= e`; `place++` is `place += 1`.
    Update(Place, Operator, Expr),
    If {
        test: Expr,
        yes: Vec<Stmt>,
        no: Vec<Stmt>,
    },
    /// `for (; test; step) body`. A `while` has no step, and what a `for` begins with stands before
    /// it.
    Loop {
        test: Option<Expr>,
        step: Vec<Stmt>,
        body: Vec<Stmt>,
    },
    DoWhile {
        body: Vec<Stmt>,
        test: Expr,
    },
    Break,
    Continue,
    Return(Option<Expr>),
    /// `super(..)`, with the base of the class, if it has one.
    Super {
        base: Option<Class>,
        arguments: Vec<Expr>,
    },
}

/// A method, a constructor, or the handler of an event, which has the event as its parameter.
#[derive(Drop)]
pub struct Method {
    pub parameters: Vec<StaticType>,
    /// The variables that the body declares.
    pub locals: Vec<StaticType>,
    /// None of a method that gives no value.
    pub result: Option<StaticType>,
    pub body: Vec<Stmt>,
}

impl Method {
    /// The types of the parameters.
    pub fn parameters(&self) -> &[StaticType]
        ensures { result.now ≡ (method_of self.now).parameters }
    {
        &self.parameters
    }

    /// The types of the variables that the body declares, which are numbered behind the parameters.
    pub fn locals(&self) -> &[StaticType]
        ensures { result.now ≡ (method_of self.now).locals }
    {
        &self.locals
    }

    /// The type of the value, or none of a method that gives no value.
    pub fn result(&self) -> Option<StaticType>
        ensures { result ≡ (method_of self.now).result }
    {
        self.result
    }

    /// The statements.
    pub fn body(&self) -> &[Stmt]
        ensures { block_of result.now ≡ (method_of self.now).body }
    {
        &self.body
    }
}

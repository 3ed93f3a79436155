// The syntax trees of ActionScript.

use flex_base::Text;

/// Where a part of a text stands: the place of its first byte, and the place behind its last.
#[derive(Clone, Copy, Debug, PartialEq, Eq)]
pub struct Span {
    pub start: usize,
    pub end: usize,
}

/// A token: its own text, and where it stands.
#[derive(Drop)]
pub struct Lexeme {
    pub span: Span,
    pub text: Text,
}

/// An operator between two operands.
#[derive(Clone, Copy, Debug, PartialEq, Eq)]
pub enum BinaryOperator {
    /// `||`
    Or,
    /// `&&`
    And,
    /// `==`
    Equal,
    /// `!=`
    NotEqual,
    /// `===`
    StrictEqual,
    /// `!==`
    StrictNotEqual,
    /// `<`
    Less,
    /// `<=`
    LessOrEqual,
    /// `>`
    Greater,
    /// `>=`
    GreaterOrEqual,
    /// `+`
    Add,
    /// `-`
    Subtract,
    /// `*`
    Multiply,
    /// `%`
    Remainder,
}

/// An operator before its operand.
#[derive(Clone, Copy, Debug, PartialEq, Eq)]
pub enum UnaryOperator {
    /// `-`
    Negate,
    /// `!`
    Not,
}

/// An expression. Each but a token has a span: that of all its tokens.
pub enum Expression {
    /// An identifier.
    Name(Lexeme),
    /// A number, as it is written.
    Number(Lexeme),
    /// A text, as it is written, with its quotation marks.
    Text(Lexeme),
    /// `true`
    True(Span),
    /// `false`
    False(Span),
    /// `null`
    Null(Span),
    /// `this`
    This(Span),
    /// `super`
    Super(Span),
    /// `(expression)`
    Parenthesized(Span, Box<Expression>),
    /// `[items]`
    Array(Span, Vec<Expression>),
    /// `new path(arguments)`
    New(Span, Vec<Lexeme>, Vec<Expression>),
    /// `object.name`
    Member(Span, Box<Expression>, Lexeme),
    /// `object[index]`
    Index(Span, Box<Expression>, Box<Expression>),
    /// `function(arguments)`
    Call(Span, Box<Expression>, Vec<Expression>),
    /// A prefix operator and its operand.
    Unary(Span, UnaryOperator, Box<Expression>),
    /// Two operands with an operator between them.
    Binary(Span, BinaryOperator, Box<Expression>, Box<Expression>),
    /// `condition ? first : second`
    Conditional(Span, Box<Expression>, Box<Expression>, Box<Expression>),
}

impl Drop for Expression {
    // What stands on the left of an operator may be as long as a text: it is taken apart in a loop.
    fn drop(mut self) {
        loop {
            match self {
                Expression::Member(_, object, _name) => self = Box::into_inner(object),
                Expression::Index(_, object, _index) => self = Box::into_inner(object),
                Expression::Call(_, function, _arguments) => self = Box::into_inner(function),
                Expression::Binary(_, _, left, _right) => self = Box::into_inner(left),
                Expression::Name(_token) | Expression::Number(_token) | Expression::Text(_token) =>
                    {
                        return;
                    }
                Expression::True(_)
                | Expression::False(_)
                | Expression::Null(_)
                | Expression::This(_)
                | Expression::Super(_) => return,
                Expression::Parenthesized(_, _inner) | Expression::Unary(_, _, _inner) => return,
                Expression::Array(_, _items) => return,
                Expression::New(_, _path, _arguments) => return,
                Expression::Conditional(_, _condition, _first, _second) => return,
            }
        }
    }
}

/// An argument of a metadata tag: a text, as it is written, that may have a key.
#[derive(Drop)]
pub struct MetadataArgument {
    pub key: Option<Lexeme>,
    pub value: Lexeme,
}

/// A metadata tag, as `[Event(name="change", type="flash.events.Event")]`.
#[derive(Drop)]
pub struct MetadataTag {
    pub span: Span,
    pub name: Lexeme,
    pub arguments: Vec<MetadataArgument>,
}

/// Metadata of a document's class.
#[derive(Drop)]
pub struct Metadata {
    pub tags: Vec<MetadataTag>,
}

/// A variable that is declared, with its type, a path of names.
#[derive(Drop)]
pub struct Variable {
    pub name: Lexeme,
    pub type_name: Vec<Lexeme>,
    pub value: Option<Expression>,
}

/// What is done with the value of an assignment.
#[derive(Clone, Copy, Debug, PartialEq, Eq)]
pub enum AssignmentOperator {
    /// `=`
    Assign,
    /// `+=`
    Add,
    /// `-=`
    Subtract,
    /// `*=`
    Multiply,
}

/// A step by one.
#[derive(Clone, Copy, Debug, PartialEq, Eq)]
pub enum StepOperator {
    /// `++`
    Increment,
    /// `--`
    Decrement,
}

/// A statement that may stand in the head of a `for`.
#[derive(Drop)]
pub enum SimpleStatement {
    /// `expression`
    Expression(Expression),
    /// `target = value`, and the other assignments.
    Assignment(Span, AssignmentOperator, Expression, Expression),
    /// `++operand`
    Prefix(Span, StepOperator, Expression),
    /// `operand++`
    Postfix(Span, StepOperator, Expression),
}

/// What stands first in the head of a `for`.
#[derive(Drop)]
pub enum LoopStart {
    /// `var` and variables.
    Variables(Span, Vec<Variable>),
    /// A simple statement.
    Simple(SimpleStatement),
}

/// The head of a `for`, of which each part may be left out.
#[derive(Drop)]
pub struct LoopHead {
    pub start: Option<LoopStart>,
    pub condition: Option<Expression>,
    pub step: Option<SimpleStatement>,
}

/// A statement.
#[derive(Drop)]
pub enum Statement {
    /// `{statements}`
    Block(Span, Vec<Statement>),
    /// `var` and variables.
    Variables(Span, Vec<Variable>),
    /// `if (condition) statement`, without an `else`.
    If(Span, Expression, Box<Statement>),
    /// `if (condition) statement else statement`
    IfElse(Span, Expression, Box<Statement>, Box<Statement>),
    /// `while (condition) statement`
    While(Span, Expression, Box<Statement>),
    /// `do statement while (condition);`
    DoWhile(Span, Box<Statement>, Expression),
    /// `for (start; condition; step) statement`
    For(Span, LoopHead, Box<Statement>),
    /// `break;`
    Break(Span),
    /// `continue;`
    Continue(Span),
    /// `return;` or `return expression;`
    Return(Span, Option<Expression>),
    /// `;`
    Empty(Span),
    /// A simple statement and `;`.
    Simple(Span, SimpleStatement),
}

/// The statements of a handler.
#[derive(Drop)]
pub struct Body {
    pub statements: Vec<Statement>,
}

/// A step of an import behind its first name.
#[derive(Drop)]
pub enum ImportStep {
    /// A name.
    Name(Lexeme),
    /// `*`
    All(Span),
}

/// `import first.steps;`
#[derive(Drop)]
pub struct Import {
    pub span: Span,
    pub first: Lexeme,
    pub steps: Vec<ImportStep>,
}

/// What stands before the word `var`, `function` or `class`.
#[derive(Clone, Copy, Debug, PartialEq, Eq)]
pub enum Modifier {
    Public,
    Private,
    Protected,
    Override,
}

/// A parameter of a method, with its type, a path of names.
#[derive(Drop)]
pub struct Parameter {
    pub name: Lexeme,
    pub type_name: Vec<Lexeme>,
}

/// The type that a method gives.
#[derive(Drop)]
pub enum ResultType {
    /// A path of names.
    Path(Vec<Lexeme>),
    /// `void`
    Void(Span),
}

/// What a member is.
#[derive(Drop)]
pub enum MemberKind {
    /// `var` and variables.
    Variables(Vec<Variable>),
    /// `function name(parameters):result {statements}`
    Method(Lexeme, Vec<Parameter>, Option<ResultType>, Vec<Statement>),
}

/// A member of a class.
#[derive(Drop)]
pub struct Member {
    pub span: Span,
    pub metadata: Vec<MetadataTag>,
    pub modifiers: Vec<Modifier>,
    pub kind: MemberKind,
}

/// An import or a member.
#[derive(Drop)]
pub enum MembersItem {
    Import(Import),
    Member(Member),
}

/// The script of a document.
#[derive(Drop)]
pub struct Members {
    pub items: Vec<MembersItem>,
}

/// A class: `class name extends base {members}`, and what stands before it.
#[derive(Drop)]
pub struct Class {
    pub metadata: Vec<MetadataTag>,
    pub modifiers: Vec<Modifier>,
    pub name: Lexeme,
    pub base: Option<Vec<Lexeme>>,
    pub members: Vec<Member>,
}

/// A file that holds one class: `package path {imports class}`
#[derive(Drop)]
pub struct ClassFile {
    pub package_name: Option<Vec<Lexeme>>,
    pub imports: Vec<Import>,
    pub class: Class,
}

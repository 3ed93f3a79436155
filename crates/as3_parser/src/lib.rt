//! The syntax of ActionScript: which tokens are what a text is to be, and which token is at fault
//! where they aren't.
#![tactic(auto)]

mod classes;
mod declarations;
mod expressions;
mod faults;
mod handler;
mod imports;
mod kinds;
mod loops;
mod members;
mod metadata;
mod operators;
mod parse;
mod paths;
mod reading;
mod refusal;
mod simple;
mod stack;
mod start;
mod statements;
mod syntax;
mod table;
#[cfg(test)]
mod tests;
mod tree;

pub use parse::{parse_class_file, parse_expression, parse_handler, parse_members, parse_metadata};
pub use refusal::ParseRefusal;
pub use start::Start;
pub use syntax::{check_syntax, laws_of_syntax};
pub use tree::{
    AssignmentOperator, BinaryOperator, Body, Class, ClassFile, Expression, Import, ImportStep,
    Lexeme, LoopHead, LoopStart, Member, MemberKind, Members, MembersItem, Metadata,
    MetadataArgument, MetadataTag, Modifier, Parameter, ResultType, SimpleStatement, Span,
    Statement, StepOperator, UnaryOperator, Variable,
};

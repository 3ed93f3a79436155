//! Checked programs: classes, documents, methods with typed bodies, bindings and states, in which
//! names are resolved; and which of them are fine. ActionScript 3 and MXML 2009, in this project's
//! profile.
//!
//! A declared program stands for a term (`program_of`), of which `flex_meaning` speaks, and each
//! reader gives a part of that term. Fields are public, since programs are made by literals.
//! The functions whose names begin with `laws` do nothing: their contracts state laws.
#![tactic(auto)]

mod code;
mod document;
mod laws;
mod program;
#[cfg(test)]
mod tests;

pub use code::{Expr, Literal, Method, Place, Start, Step, Stmt};
pub use document::{
    Attribute, Binding, BindingSource, Change, Content, Destination, Document, Given, Instance,
    Override, Part, Presence, State, WatchedChain,
};
pub use flex_world::{Class, Operator, StaticType};
pub use laws::{laws_of_classes, laws_of_terms};
pub use program::{Constructor, Member, Program, SourceClass, Variable};

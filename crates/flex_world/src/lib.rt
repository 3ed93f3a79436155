//! What the world of a source and the stage of a machine share: the objects of a play with their
//! fields, listeners and children, the types of places, the operators, and the pure functions on
//! them. Beside the types of places, the operators and the ancestors of classes, definitions alone.
#![tactic(auto)]

mod ancestors;
mod kind;
mod operator;

pub use ancestors::{CATALOG_LEVELS, base_of, descends, is_above, is_same_class};
pub use kind::{Class, StaticType};
pub use operator::Operator;

// Methods.

use crate::operation::Operation;
use flex_base::Sequence;
use flex_world::StaticType;

/// The code of a method.
#[derive(Drop)]
pub struct Body {
    /// The number of its locals.
    pub locals: u32,
    pub code: Sequence<Operation>,
}

/// A method.
#[derive(Drop)]
pub struct Method {
    /// The types of its parameters.
    pub parameters: Sequence<StaticType>,
    pub result: StaticType,
    /// The first that the file has.
    pub body: Option<Body>,
    /// The number of the first class that names it.
    pub owner: Option<u32>,
}

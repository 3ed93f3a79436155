// What a text may be.

/// What a text is to be: a start of the grammar.
#[derive(Clone, Copy, Debug, PartialEq, Eq)]
pub enum Start {
    /// A file that holds one class, in its package.
    ClassFile,
    /// The script of a document: imports and members of its class.
    Members,
    /// The handler of an event: statements, the last of which may lack its `;`.
    Handler,
    /// Metadata of a document's class.
    Metadata,
    /// One expression, such as a binding is.
    Expression,
}

// What a source says.

use flex_base::{Sequence, Text};

/// An element of a document.
#[derive(Drop)]
pub enum Element {
    /// A Label: its id and its text.
    Label { id: Text, text: Text },
    /// A Button: its id, and the text that is traced at each click, where it has a handler.
    Button { id: Text, click: Option<Text> },
}

/// The document of the main source.
#[derive(Drop)]
pub struct Document {
    /// The elements in the order of the source.
    pub elements: Sequence<Element>,
}

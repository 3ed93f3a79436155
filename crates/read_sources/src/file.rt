// Files with what they read as.

use as3_parser::{Members, Metadata};
use flex_base::{Names, Sequence};
use mxml_tree::Tree;
use source_sites::ParsedClass;

/// A document whose code is read.
#[derive(Drop)]
pub struct ReadDocument {
    pub tree: Tree,
    /// What stands in its `fx:Script` elements, in document order.
    pub scripts: Sequence<Members>,
    /// What stands in its `fx:Metadata` elements, in document order.
    pub metadata: Sequence<Metadata>,
}

/// What a file reads as.
#[derive(Drop)]
pub enum ReadContent {
    Document(ReadDocument),
    ClassFile(ParsedClass),
}

/// The path of a source file, taken apart.
#[derive(Drop)]
pub struct SourcePath {
    /// The folders and the file, without the end of its name and without a leading `./`.
    pub names: Names,
    /// Whether the file is an MXML document.
    pub is_document: bool,
}

/// A source file that is read.
#[derive(Drop)]
pub struct ReadFile {
    pub path: SourcePath,
    pub content: ReadContent,
}

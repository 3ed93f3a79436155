// The tree of a document, as a table of nodes.

ghost use Rattle.std.specs.Prelude.{◌≡◌, ◌<◌, IfOk, OnSome, length, option_copied, slice_get};

use flex_base::{NoMemory, Sequence, Text};
use std::marker::Model;

/// An attribute that declares no namespace.
#[derive(Drop)]
pub struct Attribute {
    /// The place of its name in the file, in bytes from 0.
    pub at: usize,
    /// The namespace of its prefix; empty without one.
    pub space: Text,
    /// Its name behind the prefix.
    pub local: Text,
    /// Its value: references as what they stand for, and a space for each line end and TAB.
    pub value: Text,
}

/// An element.
#[derive(Drop)]
pub struct Element {
    /// The place past its last byte in the file.
    pub end: usize,
    /// The namespace of its prefix, or of names without one.
    pub space: Text,
    /// Its name behind the prefix.
    pub local: Text,
    /// Its attributes in text order, without those that declare namespaces.
    pub attributes: Sequence<Attribute>,
}

/// A text, or several texts and CDATA between which nothing or white space alone stands.
#[derive(Drop)]
pub struct Characters {
    /// With line ends as LF, and references as what they stand for.
    pub text: Text,
    /// The bytes of the file between which its characters stand: `None` exactly where it comes from
    /// several items or holds a reference.
    pub span: Option<(usize, usize)>,
}

/// What a node is.
#[derive(Drop)]
pub enum NodeKind {
    Element(Element),
    Characters(Characters),
}

/// A node of a tree.
#[derive(Drop)]
pub struct Node {
    /// The number of the element that it stands in; the root has none.
    pub parent: Option<u32>,
    /// The place of its first byte in the file, in bytes from 0.
    pub at: usize,
    pub kind: NodeKind,
}

/// The tree of a document, which contracts see as its nodes in the order of the text.
#[derive(Drop)]
pub struct Tree {
    nodes: Sequence<Node>,
    count: u32,
}

impl Model for Tree {
    ghost use Rattle.std.specs.Prelude.{◌≡◌, List, length};
    ghost use Rattle.mxml_tree.specs.declared.tree.Node.{Node};

    ghost Value = { List Node };

    ghost view = { λ t. t.nodes };

    ghost invariant = { λ t. t.count ≡ length t.nodes };
}

impl Tree {
    // A tree of 4,294,967,296 nodes and more has no room.
    pub(crate) fn of(nodes: Sequence<Node>) -> Result<Tree, NoMemory>
        ensures { IfOk result (λ tree. tree ≡ nodes) }
    {
        match u32::try_from(nodes.len()) {
            Ok(count) => Ok(Tree { nodes, count }),
            Err(_) => Err(NoMemory),
        }
    }

    /// The number of nodes, 1 at least.
    pub fn count(&self) -> u32
        ensures { result ≡ length self.now }
    {
        self.count
    }

    /// The node with this number: 0 is the root, and an element stands before the nodes in it.
    /// `None` exactly where the number isn't below the count.
    pub fn node(&self, n: u32) -> Option<&Node>
        ensures value { option_copied result ≡ slice_get self.now n }
        ensures within { OnSome result (n < length self.now) }
    {
        self.nodes.get(n as usize)
    }

    /// All nodes, in the order of the text.
    pub fn nodes(&self) -> &[Node]
        ensures { result.now ≡ self.now }
    {
        self.nodes.as_slice()
    }
}

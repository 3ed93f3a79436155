// Names and their namespaces.

ghost use Rattle.std.specs.Prelude.{◌≡◌};
ghost use Rattle.avm2_program.specs.Names.{has_space, names, names_it, package_space, same_kind, same_space, told_as};

use abc_format::NamespaceKind;
use flex_base::{Sequence, Text};

/// A namespace: its kind and its text. AVM2 Overview, 4.4.1.
#[derive(Drop)]
pub enum Space {
    /// Number 0, which no namespace equals but itself.
    Absent,
    /// A private one, which is told apart by its number.
    Private(u32),
    /// One of any other kind.
    OfKind(NamespaceKind, Text),
}

impl Space {
    /// Whether both are one namespace: the kinds 08 and 16 count as one.
    pub fn is(&self, other: &Space) -> bool
        ensures { result ≡ same_space self.now other.now }
    {
        match (self, other) {
            (Space::Absent, Space::Absent) => true,
            (Space::Private(number), Space::Private(other)) => number == other,
            (Space::OfKind(kind, text), Space::OfKind(other_kind, other_text)) => {
                is_same_kind(*kind, *other_kind) && text.as_str() == other_text.as_str()
            }
            _ => false,
        }
    }

    /// Whether it is the namespace of a package.
    pub fn is_package(&self, text: &str) -> bool
        ensures { result ≡ same_space (package_space text.now) self.now }
    {
        match self {
            Space::OfKind(kind, own) => {
                is_same_kind(NamespaceKind::PackageNamespace, *kind) && text == own.as_str()
            }
            _ => false,
        }
    }
}

// Whether two kinds count as one.
fn is_same_kind(kind: NamespaceKind, other: NamespaceKind) -> bool
    ensures { result ≡ same_kind kind other }
{
    counted_as(kind).byte() == counted_as(other).byte()
}

// The kind as which a kind counts.
fn counted_as(kind: NamespaceKind) -> NamespaceKind
    ensures { result ≡ told_as kind }
{
    match kind {
        NamespaceKind::Namespace => NamespaceKind::PackageNamespace,
        kind => kind,
    }
}

/// A name that code looks up: its text, and the namespaces where it is looked for. AVM2 Overview,
/// 4.4.3.
#[derive(Drop)]
pub struct Name {
    pub text: Text,
    pub spaces: Sequence<Space>,
}

impl Name {
    /// Whether it is looked for in a namespace.
    pub fn has_space(&self, space: &Space) -> bool
        ensures { result ≡ has_space space.now self.now }
    {
        self.spaces.as_slice().iter().any(|own| space.is(own))
    }

    /// Whether it is looked for in the namespace of a package.
    pub fn has_package(&self, text: &str) -> bool
        ensures { result ≡ has_space (package_space text.now) self.now }
    {
        self.spaces
            .as_slice()
            .iter()
            .any(|space| space.is_package(text))
    }

    /// Whether it is found at a trait or a class with this name.
    pub fn names(&self, own: &OwnName) -> bool
        ensures { result ≡ names self.now own.now }
    {
        own.text.as_str() == self.text.as_str() && self.has_space(&own.space)
    }

    /// The same at what may have no own name; that is never found.
    pub fn names_it(&self, own: &Option<OwnName>) -> bool
        ensures { result ≡ names_it self.now own.now }
    {
        match own {
            Some(own) => self.names(own),
            None => false,
        }
    }
}

/// The name that a class or a trait has itself.
#[derive(Drop)]
pub struct OwnName {
    pub text: Text,
    pub space: Space,
}

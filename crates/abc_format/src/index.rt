// The numbers by which records name entries of the tables, with a type for each table. A clause
// sees each as its number. Whether the entry is there is said by the rules of `tables`.

ghost use Rattle.std.specs.Prelude.{◌≡◌, ℕ};

use std::marker::Model;

/// An int of the pool: a number of `integers`, which counts from 1.
#[derive(Clone, Copy, Debug, PartialEq, Eq, Hash)]
pub struct IntegerIndex {
    number: u32,
}

impl Model for IntegerIndex {
    ghost Value = { ℕ };

    ghost view = { λ index. index.number };

    ghost inverse = { λ number. record { number = number } };
}

impl IntegerIndex {
    /// The index with this number.
    pub const fn new(number: u32) -> IntegerIndex
        ensures { result ≡ number }
    {
        IntegerIndex { number }
    }

    /// The number.
    pub const fn number(self) -> u32
        ensures { result ≡ self }
    {
        self.number
    }
}

/// A string of the pool: a number of `strings`, which counts from 1; 0 is the empty text.
#[derive(Clone, Copy, Debug, PartialEq, Eq, Hash)]
pub struct StringIndex {
    number: u32,
}

impl Model for StringIndex {
    ghost Value = { ℕ };

    ghost view = { λ index. index.number };

    ghost inverse = { λ number. record { number = number } };
}

impl StringIndex {
    /// The index with this number.
    pub const fn new(number: u32) -> StringIndex
        ensures { result ≡ number }
    {
        StringIndex { number }
    }

    /// The number.
    pub const fn number(self) -> u32
        ensures { result ≡ self }
    {
        self.number
    }
}

/// A namespace of the pool: a number of `namespaces`, which counts from 1; 0 is any namespace or
/// none.
#[derive(Clone, Copy, Debug, PartialEq, Eq, Hash)]
pub struct NamespaceIndex {
    number: u32,
}

impl Model for NamespaceIndex {
    ghost Value = { ℕ };

    ghost view = { λ index. index.number };

    ghost inverse = { λ number. record { number = number } };
}

impl NamespaceIndex {
    /// The index with this number.
    pub const fn new(number: u32) -> NamespaceIndex
        ensures { result ≡ number }
    {
        NamespaceIndex { number }
    }

    /// The number.
    pub const fn number(self) -> u32
        ensures { result ≡ self }
    {
        self.number
    }
}

/// A set of namespaces of the pool: a number of `namespace_sets`, which counts from 1.
#[derive(Clone, Copy, Debug, PartialEq, Eq, Hash)]
pub struct NamespaceSetIndex {
    number: u32,
}

impl Model for NamespaceSetIndex {
    ghost Value = { ℕ };

    ghost view = { λ index. index.number };

    ghost inverse = { λ number. record { number = number } };
}

impl NamespaceSetIndex {
    /// The index with this number.
    pub const fn new(number: u32) -> NamespaceSetIndex
        ensures { result ≡ number }
    {
        NamespaceSetIndex { number }
    }

    /// The number.
    pub const fn number(self) -> u32
        ensures { result ≡ self }
    {
        self.number
    }
}

/// A name of the pool: a number of `multinames`, which counts from 1; 0 is any name or none.
#[derive(Clone, Copy, Debug, PartialEq, Eq, Hash)]
pub struct MultinameIndex {
    number: u32,
}

impl Model for MultinameIndex {
    ghost Value = { ℕ };

    ghost view = { λ index. index.number };

    ghost inverse = { λ number. record { number = number } };
}

impl MultinameIndex {
    /// The index with this number.
    pub const fn new(number: u32) -> MultinameIndex
        ensures { result ≡ number }
    {
        MultinameIndex { number }
    }

    /// The number.
    pub const fn number(self) -> u32
        ensures { result ≡ self }
    {
        self.number
    }
}

/// A method: a number of `methods`, which counts from 0.
#[derive(Clone, Copy, Debug, PartialEq, Eq, Hash)]
pub struct MethodIndex {
    number: u32,
}

impl Model for MethodIndex {
    ghost Value = { ℕ };

    ghost view = { λ index. index.number };

    ghost inverse = { λ number. record { number = number } };
}

impl MethodIndex {
    /// The index with this number.
    pub const fn new(number: u32) -> MethodIndex
        ensures { result ≡ number }
    {
        MethodIndex { number }
    }

    /// The number.
    pub const fn number(self) -> u32
        ensures { result ≡ self }
    {
        self.number
    }
}

/// Metadata: a number of `metadata`, which counts from 0.
#[derive(Clone, Copy, Debug, PartialEq, Eq, Hash)]
pub struct MetadataIndex {
    number: u32,
}

impl Model for MetadataIndex {
    ghost Value = { ℕ };

    ghost view = { λ index. index.number };

    ghost inverse = { λ number. record { number = number } };
}

impl MetadataIndex {
    /// The index with this number.
    pub const fn new(number: u32) -> MetadataIndex
        ensures { result ≡ number }
    {
        MetadataIndex { number }
    }

    /// The number.
    pub const fn number(self) -> u32
        ensures { result ≡ self }
    {
        self.number
    }
}

/// A class: a number of `instances` and `classes`, which counts from 0.
#[derive(Clone, Copy, Debug, PartialEq, Eq, Hash)]
pub struct ClassIndex {
    number: u32,
}

impl Model for ClassIndex {
    ghost Value = { ℕ };

    ghost view = { λ index. index.number };

    ghost inverse = { λ number. record { number = number } };
}

impl ClassIndex {
    /// The index with this number.
    pub const fn new(number: u32) -> ClassIndex
        ensures { result ≡ number }
    {
        ClassIndex { number }
    }

    /// The number.
    pub const fn number(self) -> u32
        ensures { result ≡ self }
    {
        self.number
    }
}

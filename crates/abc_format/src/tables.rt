// The tables of an ABC, and what a number that names an entry of one may be.

ghost use Rattle.std.specs.Prelude.{◌≡◌, ◌↔◌, IsTrue};
ghost use Rattle.abc_format.specs.Indexes.{IsIndex, allows, class_rule, interface_rule, metadata_rule, method_rule, name_rule, namespace_rule, pool_tables, set_rule, string_rule};

use crate::records::ConstantPool;

/// How many entries each table has that a number may name. Entry 0 of a table of the pool isn't
/// counted.
#[derive(Clone, Copy, Debug, PartialEq, Eq)]
pub struct Tables {
    pub strings: usize,
    pub namespaces: usize,
    pub namespace_sets: usize,
    pub multinames: usize,
    pub methods: usize,
    pub metadata: usize,
    pub classes: usize,
}

/// What a number that names an entry may be, by the number of entries of its table.
#[derive(Clone, Copy, Debug, PartialEq, Eq)]
pub enum IndexRule {
    /// An entry of a table of the pool, counted from 1.
    Entry(usize),
    /// Such an entry, or 0 for none.
    EntryOrZero(usize),
    /// An item of a table that is counted from 0.
    Item(usize),
}

impl IndexRule {
    /// Whether the number may stand.
    pub fn allows(self, number: u32) -> bool
        ensures { result ≡ allows self number }
    {
        match self {
            IndexRule::Entry(count) => 0 < number && number as usize <= count,
            IndexRule::EntryOrZero(count) => number as usize <= count,
            IndexRule::Item(count) => (number as usize) < count,
        }
    }
}

impl Tables {
    /// Without any entry.
    pub const NONE: Tables = Tables {
        strings: 0,
        namespaces: 0,
        namespace_sets: 0,
        multinames: 0,
        methods: 0,
        metadata: 0,
        classes: 0,
    };

    /// The entries of the pool, before any other table.
    pub fn of_pool(pool: &ConstantPool) -> Tables
        ensures { result ≡ pool_tables pool.now }
    {
        Tables {
            strings: pool.strings.len(),
            namespaces: pool.namespaces.len(),
            namespace_sets: pool.namespace_sets.len(),
            multinames: pool.multinames.len(),
            methods: 0,
            metadata: 0,
            classes: 0,
        }
    }

    /// A string, where 0 is the empty text.
    pub fn string(&self) -> IndexRule
        ensures { result ≡ string_rule self.now }
    {
        IndexRule::EntryOrZero(self.strings)
    }

    /// A namespace, or 0 for none.
    pub fn namespace(&self) -> IndexRule
        ensures { result ≡ namespace_rule self.now }
    {
        IndexRule::EntryOrZero(self.namespaces)
    }

    /// A set of namespaces.
    pub fn namespace_set(&self) -> IndexRule
        ensures { result ≡ set_rule self.now }
    {
        IndexRule::Entry(self.namespace_sets)
    }

    /// The name of a member, a class, its base or a type, or 0 for none.
    pub fn name(&self) -> IndexRule
        ensures { result ≡ name_rule self.now }
    {
        IndexRule::EntryOrZero(self.multinames)
    }

    /// The name of an interface.
    pub fn interface(&self) -> IndexRule
        ensures { result ≡ interface_rule self.now }
    {
        IndexRule::Entry(self.multinames)
    }

    /// A method.
    pub fn method(&self) -> IndexRule
        ensures { result ≡ method_rule self.now }
    {
        IndexRule::Item(self.methods)
    }

    /// Metadata.
    pub fn metadata(&self) -> IndexRule
        ensures { result ≡ metadata_rule self.now }
    {
        IndexRule::Item(self.metadata)
    }

    /// A class.
    pub fn class(&self) -> IndexRule
        ensures { result ≡ class_rule self.now }
    {
        IndexRule::Item(self.classes)
    }
}

// The pool in which emitted code interns its texts, ints and names.

ghost use Rattle.std.specs.Prelude.{◌≡◌, ◌+◌, ◌<◌, IfOk, OnOk, OnErr, map};
ghost use Rattle.std.specs.String.{string_bytes};
ghost use Rattle.indexmap.specs.IndexSet.{index_set_len, insert_index, insert_key, spare};
ghost use Rattle.abc_writer.specs.Interning.{Interns, count, int_number, interned, name_number, namespace_named, no_entries, number_in, pair_eq, pool_of, qualified_name, text_eq, text_number, with_int, with_name, with_text};

use abc_format::{
    ConstantPool, IntegerIndex, Multiname, MultinameIndex, Namespace, NamespaceIndex,
    NamespaceKind, StringIndex,
};
use flex_base::{NoMemory, Sequence, Text};
use indexmap::IndexSet;
use std::alloc::Global;
use std::hash::Hash;
use std::marker::Model;

/// A constant pool that grows: each entry stands once, in the order in which they were first seen,
/// and keeps its number, which counts from 1.
#[derive(Drop)]
pub struct Pool {
    alloc: Global,
    integers: IndexSet<i32>,
    strings: IndexSet<String>,
    spaces: IndexSet<u32>,
    names: IndexSet<(u32, u32)>,
    ghost few: { count (record { integers = integers.keys; strings = map string_bytes strings.keys; spaces = spaces.keys; names = names.keys }) < 1073741824 },
}

impl Model for Pool {
    ghost use Rattle.std.specs.Prelude.{map};
    ghost use Rattle.std.specs.String.{string_bytes};
    ghost use Rattle.abc_writer.specs.Interning.{Entries};

    ghost Value = { Entries };

    ghost view = { λ p. record { integers = p.integers.keys; strings = map string_bytes p.strings.keys; spaces = p.spaces.keys; names = p.names.keys } };
}

impl Pool {
    /// The pool without entries. It takes no memory.
    pub fn new(alloc: Global) -> Pool
        ensures { result ≡ no_entries }
    {
        Pool {
            alloc,
            integers: IndexSet::new(alloc),
            strings: IndexSet::new(alloc),
            spaces: IndexSet::new(alloc),
            names: IndexSet::new(alloc),
        }
    }

    /// The largest number of entries of one of its tables.
    pub fn count(&self) -> u32
        ensures { result ≡ count self.now }
    {
        let numbers = self.integers.len().max(self.strings.len());
        let names = self.spaces.len().max(self.names.len());
        numbers.max(names) as u32
    }

    /// The index of a text. After want of memory the pool is as it was.
    pub fn text(&mut self, text: &Text) -> Result<StringIndex, NoMemory>
        requires { count self.old < 1073741820 }
        ensures number { IfOk result (λ n. n ≡ text_number self.old text.now) }
        ensures entries { OnOk result (self.new ≡ with_text self.old text.now) }
        ensures unchanged { OnErr result (self.new ≡ self.old) }
    {
        let text = String::from_str(self.alloc, text.as_str())?;
        self.strings.reserve(1)?;
        Ok(StringIndex::new(intern_text(&mut self.strings, text)))
    }

    /// The index of an int. After want of memory the pool is as it was.
    pub fn int(&mut self, value: i32) -> Result<IntegerIndex, NoMemory>
        requires { count self.old < 1073741820 }
        ensures number { IfOk result (λ n. n ≡ int_number self.old value) }
        ensures entries { OnOk result (self.new ≡ with_int self.old value) }
        ensures unchanged { OnErr result (self.new ≡ self.old) }
    {
        self.integers.reserve(1)?;
        Ok(IntegerIndex::new(intern(&mut self.integers, value)))
    }

    /// The index of the name with the text `local` in the namespace with the text `space`. After
    /// want of memory the pool is as it was.
    pub fn name(&mut self, space: &Text, local: &Text) -> Result<MultinameIndex, NoMemory>
        requires { count self.old < 1073741820 }
        ensures number { IfOk result (λ n. n ≡ name_number self.old space.now local.now) }
        ensures entries { OnOk result (self.new ≡ with_name self.old space.now local.now) }
        ensures unchanged { OnErr result (self.new ≡ self.old) }
    {
        let space = String::from_str(self.alloc, space.as_str())?;
        let local = String::from_str(self.alloc, local.as_str())?;
        self.strings.reserve(2)?;
        self.spaces.reserve(1)?;
        self.names.reserve(1)?;
        let space = intern_text(&mut self.strings, space);
        let namespace = intern(&mut self.spaces, space);
        let local = intern_text(&mut self.strings, local);
        Ok(MultinameIndex::new(intern_pair(&mut self.names, (namespace, local))))
    }
}

impl Pool {
    /// The constant pool of the entries, which are the names of kind QName in namespaces of kind
    /// Namespace, and the texts and ints.
    pub fn constant_pool(&self) -> Result<ConstantPool, NoMemory>
        ensures { IfOk result (λ pool. pool ≡ pool_of self.now) }
    {
        Ok(ConstantPool {
            integers: Sequence::from_vec(self.integers.as_slice().to_vec(self.alloc)?),
            unsigned_integers: Sequence::new(self.alloc),
            doubles: Sequence::new(self.alloc),
            strings: texts(self.alloc, self.strings.as_slice())?,
            namespaces: namespaces(self.alloc, self.spaces.as_slice())?,
            namespace_sets: Sequence::new(self.alloc),
            multinames: multinames(self.alloc, self.names.as_slice())?,
        })
    }
}

fn texts(alloc: Global, strings: &[String]) -> Result<Sequence<Text>, NoMemory>
    ensures { IfOk result (λ texts. texts ≡ map string_bytes strings.now) }
{
    let mut texts = Sequence::new(alloc);
    for string in strings {
        texts.push(Text::make(alloc, string.as_str())?)?;
    }
    Ok(texts)
}

fn namespaces(alloc: Global, spaces: &[u32]) -> Result<Sequence<Namespace>, NoMemory>
    ensures { IfOk result (λ namespaces. namespaces ≡ map namespace_named spaces.now) }
{
    let mut namespaces = Sequence::new(alloc);
    for space in spaces {
        namespaces.push(Namespace {
            kind: NamespaceKind::Namespace,
            name: StringIndex::new(*space),
        })?;
    }
    Ok(namespaces)
}

fn multinames(alloc: Global, names: &[(u32, u32)]) -> Result<Sequence<Multiname>, NoMemory>
    ensures { IfOk result (λ multinames. multinames ≡ map qualified_name names.now) }
{
    let mut multinames = Sequence::new(alloc);
    for (namespace, name) in names {
        multinames.push(Multiname::QName {
            namespace: NamespaceIndex::new(*namespace),
            name: StringIndex::new(*name),
        })?;
    }
    Ok(multinames)
}

// The number of a value in a table, at the end of which it is added if it isn't there.
fn intern<T: Eq + Hash + Drop>(table: &mut IndexSet<T>, value: T) -> u32
    requires few { index_set_len table.old < 1073741824 }
    requires room { 0 < spare table.old }
    ensures keys { table.new.keys ≡ insert_key T.eq table.old.keys value }
    ensures number { result ≡ insert_index T.eq table.old value + 1 }
    ensures grows { index_set_len table.new < index_set_len table.old + 2 }
    ensures left { spare table.old < spare table.new + 2 }
{
    match table.insert_full(value) {
        Ok((index, _)) => index as u32 + 1,
        Err(_) => unreachable!(),
    }
}

// The number of a text, by its bytes.
#[tactic(auto, using(crate::proofs::Interned::texts_interned))]
fn intern_text(table: &mut IndexSet<String>, text: String) -> u32
    requires few { index_set_len table.old < 1073741824 }
    requires room { 0 < spare table.old }
    ensures texts { Interns (map string_bytes table.old.keys) (map string_bytes table.new.keys) (string_bytes text) }
    ensures number { result ≡ number_in text_eq (map string_bytes table.old.keys) (string_bytes text) }
    ensures grows { index_set_len table.new < index_set_len table.old + 2 }
    ensures left { spare table.old < spare table.new + 2 }
{
    intern(table, text)
}

// The number of a pair.
fn intern_pair(table: &mut IndexSet<(u32, u32)>, pair: (u32, u32)) -> u32
    requires few { index_set_len table.old < 1073741824 }
    requires room { 0 < spare table.old }
    ensures pairs { table.new.keys ≡ interned pair_eq table.old.keys pair }
    ensures number { result ≡ number_in pair_eq table.old.keys pair }
    ensures grows { index_set_len table.new < index_set_len table.old + 2 }
{
    intern(table, pair)
}

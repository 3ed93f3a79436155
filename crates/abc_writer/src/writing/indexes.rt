// The numbers that name entries.

ghost use Rattle.abc_format.specs.Numbers.{u30_bytes};

use crate::writing::lists::Written;
use abc_format::{
    ClassIndex, MetadataIndex, MethodIndex, MultinameIndex, NamespaceIndex, NamespaceSetIndex,
    StringIndex,
};
use flex_base::{Bytes, NoMemory};

impl Written for StringIndex {
    ghost spelling = { u30_bytes };

    fn put(&self, bytes: &mut Bytes) -> Result<(), NoMemory> {
        self.number().put(bytes)
    }
}

impl Written for NamespaceIndex {
    ghost spelling = { u30_bytes };

    fn put(&self, bytes: &mut Bytes) -> Result<(), NoMemory> {
        self.number().put(bytes)
    }
}

impl Written for NamespaceSetIndex {
    ghost spelling = { u30_bytes };

    fn put(&self, bytes: &mut Bytes) -> Result<(), NoMemory> {
        self.number().put(bytes)
    }
}

impl Written for MultinameIndex {
    ghost spelling = { u30_bytes };

    fn put(&self, bytes: &mut Bytes) -> Result<(), NoMemory> {
        self.number().put(bytes)
    }
}

impl Written for MethodIndex {
    ghost spelling = { u30_bytes };

    fn put(&self, bytes: &mut Bytes) -> Result<(), NoMemory> {
        self.number().put(bytes)
    }
}

impl Written for MetadataIndex {
    ghost spelling = { u30_bytes };

    fn put(&self, bytes: &mut Bytes) -> Result<(), NoMemory> {
        self.number().put(bytes)
    }
}

impl Written for ClassIndex {
    ghost spelling = { u30_bytes };

    fn put(&self, bytes: &mut Bytes) -> Result<(), NoMemory> {
        self.number().put(bytes)
    }
}

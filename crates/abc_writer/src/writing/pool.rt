// The pool of constants. AVM2 Overview, chapter 4.

ghost use Rattle.std.specs.Prelude.{◌≡◌, ◌∷◌, ◌++◌, OnOk};
ghost use Rattle.abc_format.specs.Numbers.{u30_bytes};
ghost use Rattle.abc_writer.specs.Spelling.{counted, multiname_bytes, namespace_bytes, pool_bytes, string_bytes_of};

use crate::writing::lists::{Written, put_counted, put_table};
use abc_format::{ConstantPool, Multiname, Namespace, NamespaceIndex, put_length};
use flex_base::{Bytes, NoMemory, Sequence, Text};

// Each table.
pub fn put_pool(bytes: &mut Bytes, pool: &ConstantPool) -> Result<(), NoMemory>
    ensures { OnOk result (bytes.new ≡ bytes.old ++ pool_bytes pool.now) }
{
    put_table(bytes, pool.integers.as_slice())?;
    put_table(bytes, pool.unsigned_integers.as_slice())?;
    put_table(bytes, pool.doubles.as_slice())?;
    put_table(bytes, pool.strings.as_slice())?;
    put_table(bytes, pool.namespaces.as_slice())?;
    put_table(bytes, pool.namespace_sets.as_slice())?;
    put_table(bytes, pool.multinames.as_slice())
}

impl Written for Text {
    ghost spelling = { string_bytes_of };

    fn put(&self, bytes: &mut Bytes) -> Result<(), NoMemory> {
        let text = self.as_str().as_bytes();
        put_length(bytes, text.len() as u64)?;
        bytes.extend(text)
    }
}

impl Written for Namespace {
    ghost spelling = { namespace_bytes };

    fn put(&self, bytes: &mut Bytes) -> Result<(), NoMemory> {
        bytes.push(self.kind.byte())?;
        self.name.put(bytes)
    }
}

// A set of namespaces.
impl Written for Sequence<NamespaceIndex> {
    ghost spelling = { counted u30_bytes };

    fn put(&self, bytes: &mut Bytes) -> Result<(), NoMemory> {
        put_counted(bytes, self.as_slice())
    }
}

impl Written for Multiname {
    ghost spelling = { multiname_bytes };

    fn put(&self, bytes: &mut Bytes) -> Result<(), NoMemory> {
        match self {
            Multiname::QName { namespace, name } => put_two(
                bytes,
                Multiname::QNAME,
                namespace,
                name,
            ),
            Multiname::QNameA { namespace, name } => put_two(
                bytes,
                Multiname::QNAME_A,
                namespace,
                name,
            ),
            Multiname::RtqName { name } => put_one(bytes, Multiname::RTQ_NAME, name),
            Multiname::RtqNameA { name } => put_one(bytes, Multiname::RTQ_NAME_A, name),
            Multiname::RtqNameL => bytes.push(Multiname::RTQ_NAME_L),
            Multiname::RtqNameLA => bytes.push(Multiname::RTQ_NAME_LA),
            Multiname::Multiname {
                name,
                namespace_set,
            } => { put_two(bytes, Multiname::MULTINAME, name, namespace_set) }
            Multiname::MultinameA {
                name,
                namespace_set,
            } => { put_two(bytes, Multiname::MULTINAME_A, name, namespace_set) }
            Multiname::MultinameL { namespace_set } => put_one(
                bytes,
                Multiname::MULTINAME_L,
                namespace_set,
            ),
            Multiname::MultinameLA { namespace_set } => put_one(
                bytes,
                Multiname::MULTINAME_LA,
                namespace_set,
            ),
        }
    }
}

// A kind, and one part.
fn put_one<T: Written>(bytes: &mut Bytes, kind: u8, part: &T) -> Result<(), NoMemory>
    ensures { OnOk result (bytes.new ≡ bytes.old ++ kind ∷ T.spelling part.now) }
{
    bytes.push(kind)?;
    part.put(bytes)
}

// A kind, and two parts.
fn put_two<T: Written, U: Written>(
    bytes: &mut Bytes,
    kind: u8,
    first: &T,
    second: &U,
) -> Result<(), NoMemory>
    ensures { OnOk result (bytes.new ≡ bytes.old ++ (kind ∷ T.spelling first.now ++ U.spelling second.now)) }
{
    put_one(bytes, kind, first)?;
    second.put(bytes)
}

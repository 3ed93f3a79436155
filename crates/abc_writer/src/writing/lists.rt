// Lists of records.

ghost use Rattle.std.specs.Prelude.{◌≡◌, ◌++◌, ◌<◌, ◌^◌, OnOk, length};
ghost use Rattle.std.specs.List.{flat_map};
ghost use Rattle.abc_format.specs.Numbers.{u30_bytes};
ghost use Rattle.abc_writer.specs.Spelling.{counted, table};

use abc_format::put_length;
use flex_base::{Bytes, NoMemory};

// What stands in the lists of an ABC: each record has one spelling.
pub trait Written {
    ghost use Rattle.std.specs.Prelude.{List, ℕ};

    ghost spelling: { Self → List ℕ };

    // Writes the record at the end.
    fn put(&self, bytes: &mut Bytes) -> Result<(), NoMemory>
        ensures { OnOk result (bytes.new ≡ bytes.old ++ spelling self.now) };
}

// One record after another.
pub fn put_all<T: Written>(bytes: &mut Bytes, items: &[T]) -> Result<(), NoMemory>
    ensures { OnOk result (bytes.new ≡ bytes.old ++ flat_map T.spelling items.now) }
{
    for item in items {
        item.put(bytes)?;
    }
    Ok(())
}

// A count, and as many records.
pub fn put_counted<T: Written>(bytes: &mut Bytes, items: &[T]) -> Result<(), NoMemory>
    ensures { OnOk result (bytes.new ≡ bytes.old ++ counted T.spelling items.now) }
{
    put_length(bytes, items.len() as u64)?;
    put_all(bytes, items)
}

// A table of the pool: its count is one more than its entries, and 0 where there are none.
pub fn put_table<T: Written>(bytes: &mut Bytes, items: &[T]) -> Result<(), NoMemory>
    requires { length items.now < 2 ^ 63 }
    ensures { OnOk result (bytes.new ≡ bytes.old ++ table T.spelling items.now) }
{
    if items.is_empty() {
        return put_length(bytes, 0);
    }
    put_length(bytes, items.len() as u64 + 1)?;
    put_all(bytes, items)
}

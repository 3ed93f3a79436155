// Lists of records.

ghost use Rattle.abc_format.specs.Fields.{Answers, counted, table, times};

use crate::reading::unread::Unread;
use crate::reason::AbcRefusal;
use crate::tables::Tables;
use flex_base::Sequence;
use std::alloc::Global;

// What stands in the lists of an ABC.
pub trait Readable: Sized {
    ghost use Rattle.abc_format.specs.Fields.{Cursor, Reading};
    ghost use Rattle.abc_format.specs.declared.tables.Tables.{Tables};

    ghost reading: { Tables → Cursor → Reading Self };

    // The record at the front.
    fn read(alloc: Global, unread: &mut Unread<'_>, tables: &Tables) -> Result<Self, AbcRefusal>
        ensures { Answers (reading tables.now unread.old) result unread.new };
}

// So many records.
#[tactic(auto, using(crate::proofs::Lists::times_read))]
pub fn read_times<T: Readable + Drop>(
    alloc: Global,
    unread: &mut Unread<'_>,
    tables: &Tables,
    count: u32,
) -> Result<Sequence<T>, AbcRefusal>
    ensures { Answers (times (T.reading tables.now) count unread.old) result unread.new }
{
    let mut items = Sequence::new(alloc);
    for _index in 0..count {
        items.push(T::read(alloc, unread, tables)?)?;
    }
    Ok(items)
}

// A count, and as many records.
pub fn read_counted<T: Readable + Drop>(
    alloc: Global,
    unread: &mut Unread<'_>,
    tables: &Tables,
) -> Result<Sequence<T>, AbcRefusal>
    ensures { Answers (counted (T.reading tables.now) unread.old) result unread.new }
{
    let count = unread.number()?;
    read_times(alloc, unread, tables, count)
}

// A table of the pool: its count is one more than its entries, or 0.
pub fn read_table<T: Readable + Drop>(
    alloc: Global,
    unread: &mut Unread<'_>,
    tables: &Tables,
) -> Result<Sequence<T>, AbcRefusal>
    ensures { Answers (table (T.reading tables.now) unread.old) result unread.new }
{
    let count = unread.number()?;
    read_times(alloc, unread, tables, count.saturating_sub(1))
}

// The whole class table.

ghost use Rattle.std.specs.Prelude.{IfOk};
ghost use Rattle.source_table.specs.Whole.{IsTableOf};

use crate::constructors::constructors_of;
use crate::events::events_of_files;
use crate::members::members_of_files;
use as3_types::ClassTable;
use flex_base::{NoMemory, Sequence};
use named_sources::{bases_of, named_classes};
use read_sources::ReadFile;
use std::alloc::Global;

/// The class table of files. More than 4,294,967,295 files are answered by want of memory.
pub fn table_of_files(alloc: Global, files: &[ReadFile]) -> Result<ClassTable, NoMemory>
    ensures { IfOk result (IsTableOf files.now) }
{
    let classes = named_classes(alloc, files)?;
    let bases = bases_of(alloc, classes.as_slice(), files)?;
    if bases.len() > u32::MAX as usize {
        return Err(NoMemory);
    }
    let constructors = constructors_of(alloc, classes.as_slice(), files)?;
    let members = members_of_files(alloc, classes.as_slice(), constructors.as_slice(), files)?;
    let mut table = ClassTable {
        classes,
        bases,
        constructors,
        members,
        events: Sequence::new(alloc),
    };
    let events = events_of_files(alloc, &table, files)?;
    table.events = events;
    Ok(table)
}

// The reading of an ABC: the first bad field and no more of it, or all of its records.

ghost use Rattle.abc_format.specs.Fields.{Answers};
ghost use Rattle.abc_format.specs.Reading.{Tells, read_classes, read_file, read_head};

mod indexes;
mod lists;
mod methods;
mod pool;
mod traits;
mod unread;

use crate::reason::{AbcReason, AbcRefusal};
use crate::records::{Abc, ClassInfo, ConstantPool, InstanceInfo};
use crate::tables::Tables;
use flex_base::Sequence;
use lists::{read_counted, read_times};
use pool::read_pool;
use std::alloc::Global;
use unread::Unread;

/// The ABC that the bytes are, in any spelling. AVM2 Overview, chapter 4. The memory that it takes
/// grows with the bytes that are there, whatever the counts in them say.
///
/// # Errors
///
/// `BadAbc` with the place of the first byte of the first bad field, exactly where the bytes are no
/// ABC, and `NoMemory` where memory was refused.
#[tactic(auto, unfolding(crate::specs::Reading::read_abc))]
pub fn read_abc(alloc: Global, bytes: &[u8]) -> Result<Abc, AbcRefusal>
    ensures { Tells bytes.now result }
{
    let mut unread = Unread::new(bytes);
    let abc = read_file(alloc, &mut unread)?;
    if unread.is_empty() {
        Ok(abc)
    } else {
        Err(AbcRefusal::BadAbc(unread.place(), AbcReason::Trailing))
    }
}

#[tactic(auto, unfolding(crate::specs::Reading::read_file))]
fn read_file(alloc: Global, unread: &mut Unread<'_>) -> Result<Abc, AbcRefusal>
    ensures { Answers (read_file unread.old) result unread.new }
{
    let constant_pool = read_head(alloc, unread)?;
    let mut tables = Tables::of_pool(&constant_pool);
    let methods = read_counted(alloc, unread, &tables)?;
    let metadata = read_counted(alloc, unread, &tables)?;
    tables.methods = methods.len();
    tables.metadata = metadata.len();
    let Classes { instances, classes } = read_classes(alloc, unread, &tables)?;
    tables.classes = classes.len();
    Ok(Abc {
        constant_pool,
        methods,
        metadata,
        instances,
        classes,
        scripts: read_counted(alloc, unread, &tables)?,
        method_bodies: read_counted(alloc, unread, &tables)?,
    })
}

// The versions, and the pool.
#[tactic(auto, unfolding(crate::specs::Reading::read_head))]
fn read_head(alloc: Global, unread: &mut Unread<'_>) -> Result<ConstantPool, AbcRefusal>
    ensures { Answers (read_head unread.old) result unread.new }
{
    let _minor = unread.version(Abc::MINOR_VERSION)?;
    let _major = unread.version(Abc::MAJOR_VERSION)?;
    read_pool(alloc, unread)
}

// As many classes as there are instances.
#[derive(Drop)]
pub struct Classes {
    pub instances: Sequence<InstanceInfo>,
    pub classes: Sequence<ClassInfo>,
}

// A class may be named before it stands there.
#[tactic(auto, unfolding(crate::specs::Reading::read_classes))]
fn read_classes(
    alloc: Global,
    unread: &mut Unread<'_>,
    tables: &Tables,
) -> Result<Classes, AbcRefusal>
    ensures { Answers (read_classes tables.now unread.old) result unread.new }
{
    let count = unread.number()?;
    let tables = Tables {
        classes: count as usize,
        ..*tables
    };
    Ok(Classes {
        instances: read_times(alloc, unread, &tables, count)?,
        classes: read_times(alloc, unread, &tables, count)?,
    })
}

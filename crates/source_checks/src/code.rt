// The rules of the code of all files.

ghost use Rattle.std.specs.Prelude.{IfOk};
ghost use Rattle.source_checks.specs.FirstCodeSite.{IsFirstCodeSite};

use class_checks::check_classes;
use flex_base::NoMemory;
use read_sources::ReadFile;
use source_sites::Site;
use source_table::table_of_files;
use std::alloc::Global;

/// The first broken rule of the classes of all files, and if there is none that of the members of
/// all class files. More than 4,294,967,295 files are answered by want of memory.
pub fn check_code(alloc: Global, files: &[ReadFile]) -> Result<Option<Site>, NoMemory>
    ensures { IfOk result (IsFirstCodeSite files.now) }
{
    let table = table_of_files(alloc, files)?;
    let site = check_classes(alloc, &table, files)?;
    Ok(site)
}

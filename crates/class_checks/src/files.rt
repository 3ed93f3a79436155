// The rules of all files, phase by phase.

ghost use Rattle.std.specs.Prelude.{◌<◌, IfOk, length};
ghost use Rattle.class_checks.specs.CodeSites.{IsCodeSite, IsContentSite, IsFileSite, IsPhaseSite};

use crate::classes::check_class;
use as3_types::ClassTable;
use flex_base::NoMemory;
use member_checks::check_class_members;
use read_sources::{ReadContent, ReadFile};
use source_sites::{NamedClass, Site};
use std::alloc::Global;

/// Which rules are looked at.
#[derive(Clone, Copy)]
pub enum CodePhase {
    /// Those of the names and bases of classes.
    Classes,
    /// Those of the members of class files.
    Members,
}

/// The first broken rule of the classes of all files, and if there is none that of the members of
/// all class files, by the class table of these files. A file's number past 4,294,967,295 is
/// answered by want of memory.
pub fn check_classes(
    alloc: Global,
    table: &ClassTable,
    files: &[ReadFile],
) -> Result<Option<Site>, NoMemory>
    ensures { IfOk result (IsCodeSite table.now files.now) }
{
    let site = check_phase(alloc, table, CodePhase::Classes, files)?;
    if site.is_some() {
        return Ok(site);
    }
    let behind = check_phase(alloc, table, CodePhase::Members, files)?;
    Ok(behind)
}

/// The first broken rule of these in all files, in their order.
pub fn check_phase(
    alloc: Global,
    table: &ClassTable,
    phase: CodePhase,
    files: &[ReadFile],
) -> Result<Option<Site>, NoMemory>
    ensures { IfOk result (IsPhaseSite table.now phase files.now) }
{
    let mut number: u32 = 0;
    let mut classes = table.classes.as_slice();
    let mut rest = files;
    while let Some((file, behind)) = rest.split_first() {
        let Some((here, others)) = classes.split_first() else {
            return Ok(None);
        };
        let site = check_file(alloc, table, phase, number, here, file)?;
        if site.is_some() {
            return Ok(site);
        }
        number = number.checked_add(1).ok_or(NoMemory)?;
        classes = others;
        rest = behind;
    }
    Ok(None)
}

// The first broken rule of these in a file, which has this number.
fn check_file(
    alloc: Global,
    table: &ClassTable,
    phase: CodePhase,
    number: u32,
    here: &NamedClass,
    file: &ReadFile,
) -> Result<Option<Site>, NoMemory>
    requires { number < length table.now.classes }
    ensures { IfOk result (IsFileSite table.now phase number here.now file.now) }
{
    match phase {
        CodePhase::Classes => {
            let classes = table.classes.as_slice();
            let bases = table.bases.as_slice();
            let site = check_class(alloc, classes, bases, number, here, &file.content)?;
            Ok(site)
        }
        CodePhase::Members => {
            let site = check_members(alloc, table, number, here, &file.content)?;
            Ok(site)
        }
    }
}

// The first broken rule of the members of a class file.
fn check_members(
    alloc: Global,
    table: &ClassTable,
    number: u32,
    here: &NamedClass,
    content: &ReadContent,
) -> Result<Option<Site>, NoMemory>
    ensures { IfOk result (IsContentSite table.now CodePhase.Members number here.now content.now) }
{
    match content {
        ReadContent::Document(_) => Ok(None),
        ReadContent::ClassFile(parsed) => {
            let site = check_class_members(alloc, table, number, here, parsed)?;
            Ok(site)
        }
    }
}

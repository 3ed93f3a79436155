// The rules of the members of a class file, in order.

ghost use Rattle.std.specs.Prelude.{IfOk};
ghost use Rattle.source_sites.specs.Trees.{class_file_of};
ghost use Rattle.member_checks.specs.AllReaders.{IsMemberSite};
ghost use Rattle.member_checks.specs.CodeRules.{Finds, behind_imports, members_and_words};

use crate::imports::check_imports;
use crate::members::check_members;
use crate::metadata::check_metadata;
use crate::names::declared_names;
use crate::scope::ClassScope;
use as3_types::{ClassTable, wrong_class_modifiers};
use flex_base::NoMemory;
use source_sites::{NamedClass, ParsedClass, Site};
use std::alloc::Global;

/// The first broken rule of the members of a class file: its imports, the metadata of its class, its
/// members, and last the words before the class. It is that of each source set whose texts are
/// identifiers where they are in code.
pub fn check_class_members(
    alloc: Global,
    table: &ClassTable,
    file: u32,
    here: &NamedClass,
    parsed: &ParsedClass,
) -> Result<Option<Site>, NoMemory>
    ensures { IfOk result (IsMemberSite table.now file here.now parsed.now) }
{
    let imports = check_imports(file, parsed.file.imports.as_slice());
    if imports.is_some() {
        return Ok(imports);
    }
    let members = parsed.file.class.members.as_slice();
    let names = declared_names(alloc, 0, members)?;
    let scope = ClassScope {
        table,
        file,
        here,
        members,
        names: names.as_slice(),
    };
    let site = check_class(alloc, &scope, parsed)?;
    Ok(site)
}

// The first broken rule of a class behind its imports.
#[tactic(auto, using(crate::proofs::Walks::first_fails, crate::proofs::Walks::first_holds))]
fn check_class(
    alloc: Global,
    scope: &ClassScope,
    parsed: &ParsedClass,
) -> Result<Option<Site>, NoMemory>
    ensures { IfOk result (Finds scope.now (behind_imports scope.now (class_file_of parsed.now))) }
{
    let metadata = check_metadata(alloc, scope, parsed.file.class.metadata.as_slice())?;
    if metadata.is_some() {
        return Ok(metadata);
    }
    let site = check_members_and_words(alloc, scope, parsed)?;
    Ok(site)
}

fn check_members_and_words(
    alloc: Global,
    scope: &ClassScope,
    parsed: &ParsedClass,
) -> Result<Option<Site>, NoMemory>
    ensures { IfOk result (Finds scope.now (members_and_words scope.now (class_file_of parsed.now))) }
{
    let members = check_members(alloc, scope, parsed.file.class.members.as_slice())?;
    if members.is_some() {
        return Ok(members);
    }
    Ok(wrong_class_modifiers(scope.file, parsed))
}

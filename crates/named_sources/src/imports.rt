// What the code of files imports.

ghost use Rattle.std.specs.Prelude.{◌≡◌, ◌++◌, IfOk, OnOk, map};
ghost use Rattle.std.specs.List.{flat_map};
ghost use Rattle.source_sites.specs.Names.{import_in};
ghost use Rattle.source_sites.specs.Trees.{import_of, item_of, items_of, step_name};
ghost use Rattle.named_sources.specs.Named.{imports_read};

use as3_parser::{ImportStep, Members, MembersItem};
use as3_types::step_name;
use flex_base::{Names, NoMemory, Sequence, Text};
use read_sources::ReadContent;
use source_sites::Import;
use std::alloc::Global;

/// What the code of a file imports, in text order.
pub fn imports_of(alloc: Global, content: &ReadContent) -> Result<Sequence<Import>, NoMemory>
    ensures { IfOk result (λ imports. imports ≡ imports_read content.now) }
{
    match content {
        ReadContent::Document(document) => {
            let imports = imports_of_scripts(alloc, document.scripts.as_slice())?;
            Ok(imports)
        }
        ReadContent::ClassFile(parsed) => {
            let imports = imports_of_class(alloc, parsed.file.imports.as_slice())?;
            Ok(imports)
        }
    }
}

fn imports_of_class(
    alloc: Global,
    written: &[as3_parser::Import],
) -> Result<Sequence<Import>, NoMemory>
    ensures { IfOk result (λ imports. imports ≡ map import_of written.now) }
{
    let mut imports = Sequence::new(alloc);
    for import in written {
        imports.push(named_import(alloc, import)?)?;
    }
    Ok(imports)
}

fn imports_of_scripts(alloc: Global, scripts: &[Members]) -> Result<Sequence<Import>, NoMemory>
    ensures { IfOk result (λ imports. imports ≡ flat_map import_in (flat_map items_of scripts.now)) }
{
    let mut imports = Sequence::new(alloc);
    let mut rest = scripts;
    while let Some((script, others)) = rest.split_first() {
        add_imports(alloc, &mut imports, script.items.as_slice())?;
        rest = others;
    }
    Ok(imports)
}

fn add_imports(
    alloc: Global,
    imports: &mut Sequence<Import>,
    items: &[MembersItem],
) -> Result<(), NoMemory>
    ensures { OnOk result (imports.new ≡ imports.old ++ flat_map import_in (map item_of items.now)) }
{
    let mut rest = items;
    while let Some((item, others)) = rest.split_first() {
        add_import(alloc, imports, item)?;
        rest = others;
    }
    Ok(())
}

fn add_import(
    alloc: Global,
    imports: &mut Sequence<Import>,
    item: &MembersItem,
) -> Result<(), NoMemory>
    ensures { OnOk result (imports.new ≡ imports.old ++ import_in (item_of item.now)) }
{
    match item {
        MembersItem::Import(import) => {
            imports.push(named_import(alloc, import)?)?;
            Ok(())
        }
        MembersItem::Member(_) => Ok(()),
    }
}

// An import by its names alone, and its place.
fn named_import(alloc: Global, import: &as3_parser::Import) -> Result<Import, NoMemory>
    ensures { IfOk result (λ named. named ≡ import_of import.now) }
{
    let mut names = Names::new(alloc);
    names.push(import.first.text.clone()?)?;
    add_steps(alloc, &mut names, import.steps.as_slice())?;
    Ok(Import {
        at: import.span.start,
        names,
    })
}

fn add_steps(alloc: Global, names: &mut Names, steps: &[ImportStep]) -> Result<(), NoMemory>
    ensures { OnOk result (names.new ≡ names.old ++ map step_name steps.now) }
{
    for step in steps {
        names.push(Text::make(alloc, step_name(step))?)?;
    }
    Ok(())
}

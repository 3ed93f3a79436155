// What the names in the code of a class mean.

ghost use Rattle.std.specs.Prelude.{◌≡◌, ◌||◌, IfOk};
ghost use Rattle.std.specs.List.{list_any};
ghost use Rattle.std.specs.Str.{bytes_eq};
ghost use Rattle.flex_base.specs.Events.{path_text};
ghost use Rattle.source_sites.specs.Names.{bare_class, class_at, imported, imported_by, path_names, star};
ghost use Rattle.source_sites.specs.Texts.{among};
ghost use Rattle.as3_types.specs.Meanings.{meaning_of};

use crate::meaning::{Meaning, catalog_class, class_in};
use crate::words::is_star;
use as3_parser::Lexeme;
use flex_base::{Names, NoMemory, Text, path_text};
use source_sites::{Import, NamedClass};
use std::alloc::Global;

/// The class that a path of names in the code of a class names: a bare name is looked for, and a
/// dotted path names a class directly.
#[tactic(auto, using(crate::proofs::Paths::dotted_class, crate::proofs::Paths::bare_name))]
pub fn class_at(
    alloc: Global,
    classes: &[NamedClass],
    here: &NamedClass,
    path: &[Lexeme],
) -> Result<Meaning, NoMemory>
    ensures { IfOk result (λ m. meaning_of m ≡ class_at classes.now here.now (path_names path.now)) }
{
    let Some((last, early)) = path.split_last() else {
        return Ok(Meaning::NoClass);
    };
    let name = last.text.as_str();
    if early.is_empty() {
        return bare_class(alloc, classes, here, name);
    }
    let folder = package_of(alloc, early)?;
    class_in(classes, folder.as_str(), name)
}

/// The class that a bare name in the code of a class names: one of its own package, else of its
/// imports in text order, else of the catalog.
pub fn bare_class(
    alloc: Global,
    classes: &[NamedClass],
    here: &NamedClass,
    name: &str,
) -> Result<Meaning, NoMemory>
    ensures { IfOk result (λ m. meaning_of m ≡ bare_class classes.now here.now name.now) }
{
    let own = class_in(classes, here.folder.as_str(), name)?;
    if own.is_found() {
        return Ok(own);
    }
    let imported = imported_by(alloc, classes, name, here.imports.as_slice())?;
    if imported.is_found() {
        return Ok(imported);
    }
    Ok(catalog_class(name))
}

// What a name means by the first import that gives it a meaning.
fn imported_by(
    alloc: Global,
    classes: &[NamedClass],
    name: &str,
    imports: &[Import],
) -> Result<Meaning, NoMemory>
    ensures { IfOk result (λ m. meaning_of m ≡ imported_by classes.now name.now imports.now) }
{
    let mut rest = imports;
    while let Some((import, others)) = rest.split_first() {
        let meaning = imported(alloc, classes, name, import.names.as_slice())?;
        if meaning.is_found() {
            return Ok(meaning);
        }
        rest = others;
    }
    Ok(Meaning::NoClass)
}

// What a name means by one import.
#[tactic(auto, using(crate::proofs::Paths::star_before, crate::proofs::Paths::by_last_name, crate::proofs::Paths::by_none))]
fn imported(
    alloc: Global,
    classes: &[NamedClass],
    name: &str,
    path: &[Text],
) -> Result<Meaning, NoMemory>
    ensures { IfOk result (λ m. meaning_of m ≡ imported classes.now name.now path.now) }
{
    let Some((last, early)) = path.split_last() else {
        return Ok(Meaning::NoClass);
    };
    if has_star(early) {
        return Ok(Meaning::NoClass);
    }
    if names(last.as_str(), name) {
        let folder = folder_of(alloc, early)?;
        return class_in(classes, folder.as_str(), name);
    }
    Ok(Meaning::NoClass)
}

// Whether the last name of an import is a star or this name.
fn names(last: &str, name: &str) -> bool
    ensures { result ≡ (bytes_eq last.now star || bytes_eq last.now name.now) }
{
    last == "*" || last == name
}

fn has_star(names: &[Text]) -> bool
    ensures { result ≡ among star names.now }
{
    names.iter().any(|name| is_star(name.as_str()))
}

/// Names with dots between them, as a package is written.
pub fn folder_of(alloc: Global, names: &[Text]) -> Result<Text, NoMemory>
    ensures { IfOk result (λ text. text ≡ path_text names.now) }
{
    let mut path = Names::new(alloc);
    for name in names {
        path.push(name.clone()?)?;
    }
    path_text(alloc, &path)
}

/// The names of a path in code with dots between them.
pub fn package_of(alloc: Global, names: &[Lexeme]) -> Result<Text, NoMemory>
    ensures { IfOk result (λ text. text ≡ path_text (path_names names.now)) }
{
    let mut path = Names::new(alloc);
    for name in names {
        path.push(name.text.clone()?)?;
    }
    path_text(alloc, &path)
}

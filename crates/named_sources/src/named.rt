// The classes of files by their names.

ghost use Rattle.std.specs.Prelude.{◌≡◌, IfOk, map};
ghost use Rattle.flex_base.specs.Events.{path_text};
ghost use Rattle.source_sites.specs.Texts.{last_name, without_last};
ghost use Rattle.named_sources.specs.Named.{AreNamed, class_named};

use crate::imports::imports_of;
use as3_types::folder_of;
use flex_base::{NoMemory, Sequence, Text};
use read_sources::ReadFile;
use source_sites::NamedClass;
use std::alloc::Global;

/// The class of each file by its name, with what its code imports, in the order of the files.
pub fn named_classes(alloc: Global, files: &[ReadFile]) -> Result<Sequence<NamedClass>, NoMemory>
    ensures { IfOk result (AreNamed files.now) }
{
    let classes = classes_of(alloc, files)?;
    Ok(classes)
}

fn classes_of(alloc: Global, files: &[ReadFile]) -> Result<Sequence<NamedClass>, NoMemory>
    ensures { IfOk result (λ classes. classes ≡ map class_named files.now) }
{
    let mut classes = Sequence::new(alloc);
    for file in files {
        classes.push(named_class(alloc, file)?)?;
    }
    Ok(classes)
}

fn named_class(alloc: Global, file: &ReadFile) -> Result<NamedClass, NoMemory>
    ensures { IfOk result (λ class. class ≡ class_named file.now) }
{
    let names = file.path.names.as_slice();
    let folder = package_of(alloc, names)?;
    let name = class_name(alloc, names)?;
    let imports = imports_of(alloc, &file.content)?;
    Ok(NamedClass {
        folder,
        name,
        is_document: file.path.is_document,
        imports,
    })
}

// The folders of a path as a package.
#[tactic(auto, using(crate::proofs::LastNames::early_names))]
fn package_of(alloc: Global, names: &[Text]) -> Result<Text, NoMemory>
    ensures { IfOk result (λ text. text ≡ path_text (without_last names.now)) }
{
    let Some((_, folders)) = names.split_last() else {
        return Text::make(alloc, "");
    };
    let text = folder_of(alloc, folders)?;
    Ok(text)
}

// The last name of a path.
#[tactic(auto, using(crate::proofs::LastNames::the_last_name))]
fn class_name(alloc: Global, names: &[Text]) -> Result<Text, NoMemory>
    ensures { IfOk result (λ text. text ≡ last_name names.now) }
{
    let Some((name, _)) = names.split_last() else {
        return Text::make(alloc, "");
    };
    Ok(name.clone()?)
}

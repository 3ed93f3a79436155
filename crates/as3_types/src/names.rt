// The rules of class names and bases.

ghost use Rattle.std.specs.Prelude.{◌≡◌, [], ◌∷◌, ◌<◌, ◌≤◌, length, not, ◌&&◌, ◌==◌, take};
ghost use Rattle.std.specs.List.{list_any};
ghost use Rattle.source_sites.specs.Names.{catalog_class, catalog_class_in, is_class, is_named, is_taken};
ghost use Rattle.source_sites.specs.Sites.{first_site, rule};
ghost use Rattle.source_sites.specs.Trees.{class_file_of};
ghost use Rattle.class_sites.specs.ClassSites.{duplicate_class, has_own_name, is_document_class, may_be_extended, unknown_base, wrong_base, wrong_class_name};
ghost use Rattle.as3_types.specs.Meanings.{meaning_of};

use crate::meaning::{Meaning, catalog_class, catalog_class_in, is_named};
use crate::words::site_unless;
use flex_world::Class;
use source_sites::{Code, NamedClass, ParsedClass, Site};

/// A class has the name of its file. At the class name.
pub fn wrong_class_name(file: u32, here: &NamedClass, parsed: &ParsedClass) -> Option<Site>
    ensures { result ≡ first_site file (wrong_class_name here.now (class_file_of parsed.now) ∷ []) }
{
    let name = &parsed.file.class.name;
    let holds = name.text.as_str() == here.name.as_str();
    site_unless(holds, file, name.span.start, Code::WrongClassName)
}

/// The full name of the class of a file stands for no earlier file and for no class of the
/// catalog, and in the unnamed package it is no name of the catalog. At the root of a document, and
/// at the class name of a class file.
pub fn duplicate_class(
    classes: &[NamedClass],
    file: u32,
    here: &NamedClass,
    at: usize,
) -> Option<Site>
    requires { file ≤ length classes.now }
    ensures { result ≡ first_site file (duplicate_class classes.now file here.now at ∷ []) }
{
    let earlier = &classes[..file as usize];
    site_unless(has_own_name(earlier, here), file, at, Code::DuplicateClass)
}

/// A base, or the root of a document, is a class. At the base or the root.
pub fn unknown_base(file: u32, at: usize, base: Meaning) -> Option<Site>
    ensures { result ≡ first_site file (unknown_base at (meaning_of base) ∷ []) }
{
    site_unless(base.is_found(), file, at, Code::UnknownClass)
}

/// A base isn't State and no document. At the base.
pub fn wrong_base(classes: &[NamedClass], file: u32, at: usize, base: Meaning) -> Option<Site>
    ensures { result ≡ first_site file (wrong_base classes.now at (meaning_of base) ∷ []) }
{
    site_unless(may_be_extended(classes, base), file, at, Code::WrongBase)
}

// Whether the class of a file has a name of its own, behind the files before it.
fn has_own_name(earlier: &[NamedClass], here: &NamedClass) -> bool
    ensures { result ≡ has_own_name earlier.now (length earlier.now) here.now }
{
    let folder = here.folder.as_str();
    let name = here.name.as_str();
    !is_taken(earlier, folder, name)
        && !catalog_class_in(folder, name).is_found()
        && !(folder.is_empty() && catalog_class(name).is_found())
}

fn is_taken(earlier: &[NamedClass], folder: &str, name: &str) -> bool
    ensures { result ≡ is_taken folder.now name.now earlier.now }
{
    earlier.iter().any(|class| is_named(class, folder, name))
}

fn may_be_extended(classes: &[NamedClass], base: Meaning) -> bool
    ensures { result ≡ may_be_extended classes.now (meaning_of base) }
{
    match base {
        Meaning::NoClass => true,
        Meaning::State => false,
        Meaning::Class(class) => !is_document_class(classes, class),
    }
}

/// Whether a class is that of a document.
pub fn is_document_class(classes: &[NamedClass], class: Class) -> bool
    ensures { result ≡ is_document_class classes.now class }
{
    match class {
        Class::Native(_) => false,
        Class::File(number) => match classes.get(number as usize) {
            Some(class) => class.is_document,
            None => false,
        },
    }
}

// The rules of the class of a file, in order.

ghost use Rattle.std.specs.Prelude.{◌≡◌, [], ◌∷◌, ◌<◌, Some, IfOk, length, slice_get};
ghost use Rattle.source_sites.specs.Bases.{written_base};
ghost use Rattle.source_sites.specs.Names.{path_at};
ghost use Rattle.source_sites.specs.Sites.{first_site};
ghost use Rattle.source_sites.specs.Trees.{class_file_of, path_of};
ghost use Rattle.class_sites.specs.ClassSites.{base_sites, class_file_sites, package_text, root_sites, wrong_package};
ghost use Rattle.as3_types.specs.Meanings.{meaning_of};
ghost use Rattle.as3_types.specs.Clauses.{class_file_site, package_site, root_site};

use crate::bases::{base_cycle, not_application, wrong_root};
use crate::imports::{class_at, package_of};
use crate::meaning::Meaning;
use crate::names::{duplicate_class, unknown_base, wrong_base, wrong_class_name};
use crate::words::site_unless;
use as3_parser::Lexeme;
use flex_base::{NoMemory, Text};
use flex_world::Class;
use source_sites::{Code, NamedClass, ParsedClass, Site};
use std::alloc::Global;

/// The first broken rule of the class of a class file: its package, its name, and its base, which
/// has this meaning.
#[tactic(auto, using(crate::proofs::Ordered::before))]
pub fn check_class_file(
    alloc: Global,
    classes: &[NamedClass],
    bases: &[Option<Class>],
    file: u32,
    here: &NamedClass,
    parsed: &ParsedClass,
    base: Meaning,
) -> Result<Option<Site>, NoMemory>
    requires { file < length classes.now }
    ensures { IfOk result (λ site. site ≡ class_file_site classes.now bases.now file here.now parsed.now base) }
{
    let name_at = parsed.file.class.name.span.start;
    let package = wrong_package(alloc, file, here, parsed)?;
    let name = wrong_class_name(file, here, parsed);
    let duplicate = duplicate_class(classes, file, here, name_at);
    let cycle = base_cycle(bases, file, name_at);
    let base = check_base(classes, file, &parsed.file.class.base, base);
    Ok(package.or(name.or(duplicate.or(cycle.or(base)))))
}

/// The first broken rule of the class of a document, whose root has this meaning.
#[tactic(auto, using(crate::proofs::Ordered::before))]
pub fn check_root(
    classes: &[NamedClass],
    bases: &[Option<Class>],
    file: u32,
    here: &NamedClass,
    at: usize,
    base: Meaning,
) -> Option<Site>
    requires { file < length classes.now }
    ensures { result ≡ root_site classes.now bases.now file here.now at base }
{
    let duplicate = duplicate_class(classes, file, here, at);
    let unknown = unknown_base(file, at, base);
    let wrong = wrong_root(classes, bases, file, at, base);
    let cycle = base_cycle(bases, file, at);
    let main = not_application(bases, file, at);
    duplicate.or(unknown.or(wrong.or(cycle.or(main))))
}

/// The package that a class file names is its folder. At the word `package`.
pub fn wrong_package(
    alloc: Global,
    file: u32,
    here: &NamedClass,
    parsed: &ParsedClass,
) -> Result<Option<Site>, NoMemory>
    ensures { IfOk result (λ site. site ≡ package_site file here.now parsed.now) }
{
    let package = package_text(alloc, &parsed.file.package_name)?;
    let holds = package.as_str() == here.folder.as_str();
    Ok(site_unless(holds, file, parsed.package_at, Code::WrongClassName))
}

/// What the base of a class file means.
pub fn written_base(
    alloc: Global,
    classes: &[NamedClass],
    here: &NamedClass,
    base: &Option<Vec<Lexeme>>,
) -> Result<Meaning, NoMemory>
    ensures { IfOk result (λ m. meaning_of m ≡ written_base classes.now here.now (path_of base.now)) }
{
    match base {
        None => Ok(Meaning::NoClass),
        Some(path) => class_at(alloc, classes, here, path.as_slice()),
    }
}

fn package_text(alloc: Global, name: &Option<Vec<Lexeme>>) -> Result<Text, NoMemory>
    ensures { IfOk result (λ text. text ≡ package_text (path_of name.now)) }
{
    match name {
        None => Text::make(alloc, ""),
        Some(path) => package_of(alloc, path.as_slice()),
    }
}

// The first broken rule of a base, if there is one.
#[tactic(auto, using(crate::proofs::Ordered::before))]
fn check_base(
    classes: &[NamedClass],
    file: u32,
    path: &Option<Vec<Lexeme>>,
    base: Meaning,
) -> Option<Site>
    ensures { result ≡ first_site file (base_sites classes.now (path_of path.now) (meaning_of base)) }
{
    match path {
        None => None,
        Some(path) => {
            let at = start_of(path.as_slice());
            unknown_base(file, at, base).or(wrong_base(classes, file, at, base))
        }
    }
}

/// The place of a path in code, in bytes; 0 for a path of no name.
pub fn start_of(path: &[Lexeme]) -> usize
    ensures { result ≡ path_at path.now }
{
    match path.first() {
        Some(name) => name.span.start,
        None => 0,
    }
}

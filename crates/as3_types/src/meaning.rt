// What the names of classes mean, in the source set and in the catalog.

ghost use Rattle.std.specs.Prelude.{◌≡◌, IfOk};
ghost use Rattle.source_sites.specs.Names.{as_native, catalog_class, catalog_class_in, class_in, class_of_tag, is_class, is_named, number_of, source_class};
ghost use Rattle.as3_types.specs.Meanings.{class_of_package, meaning_of};

use component_catalog::NativeClass;
use flex_base::NoMemory;
use flex_world::Class;
use mxml_tree::Element;
use source_sites::NamedClass;

/// The namespace of the native classes in documents, by which the catalog knows each of them.
const SPARK: &str = "library://ns.adobe.com/flex/spark";

/// What a name means.
#[derive(Clone, Copy)]
pub enum Meaning {
    NoClass,
    /// The class of view states, which is no type and no class in code.
    State,
    Class(Class),
}

impl Meaning {
    /// Whether it is a class, State among them.
    pub fn is_found(self) -> bool
        ensures { result ≡ is_class (meaning_of self) }
    {
        match self {
            Meaning::NoClass => false,
            Meaning::State => true,
            Meaning::Class(_) => true,
        }
    }
}

/// A class by its full name: the first source of that name, else one of the catalog.
pub fn class_in(classes: &[NamedClass], folder: &str, name: &str) -> Result<Meaning, NoMemory>
    ensures { IfOk result (λ m. meaning_of m ≡ class_in classes.now folder.now name.now) }
{
    match source_class(classes, folder, name)? {
        Meaning::NoClass => Ok(catalog_class_in(folder, name)),
        Meaning::State => Ok(Meaning::State),
        Meaning::Class(class) => Ok(Meaning::Class(class)),
    }
}

/// The first source class of a full name. Its number past 4,294,967,295 is answered by want of
/// memory.
pub fn source_class(classes: &[NamedClass], folder: &str, name: &str) -> Result<Meaning, NoMemory>
    ensures { IfOk result (λ m. meaning_of m ≡ source_class classes.now folder.now name.now) }
{
    let Some(place) = place_named(classes, folder, name) else {
        return Ok(Meaning::NoClass);
    };
    let Ok(number) = u32::try_from(place) else {
        return Err(NoMemory);
    };
    Ok(Meaning::Class(Class::File(number)))
}

// The place of the first class of a full name.
#[tactic(auto, using(crate::proofs::Numbers::numbered_here, crate::proofs::Numbers::numbered_behind))]
fn place_named(classes: &[NamedClass], folder: &str, name: &str) -> Option<usize>
    ensures { result ≡ number_of (is_named folder.now name.now) 0 classes.now }
{
    let mut place = 0;
    let mut rest = classes;
    while let Some((class, others)) = rest.split_first() {
        if is_named(class, folder, name) {
            return Some(place);
        }
        place += 1;
        rest = others;
    }
    None
}

/// Whether a class has this full name.
pub fn is_named(class: &NamedClass, folder: &str, name: &str) -> bool
    ensures { result ≡ is_named folder.now name.now class.now }
{
    class.name.as_str() == name && class.folder.as_str() == folder
}

/// A class of the catalog by its name, whatever its package.
pub fn catalog_class(name: &str) -> Meaning
    ensures { meaning_of result ≡ catalog_class name.now }
{
    native_meaning(component_catalog::class_of(SPARK, name))
}

/// A class of the catalog by its full name.
pub fn catalog_class_in(folder: &str, name: &str) -> Meaning
    ensures { meaning_of result ≡ catalog_class_in folder.now name.now }
{
    native_meaning(component_catalog::class_in(folder, name))
}

fn native_meaning(class: Option<NativeClass>) -> Meaning
    ensures { meaning_of result ≡ as_native class }
{
    match class {
        None => Meaning::NoClass,
        Some(NativeClass::State) => Meaning::State,
        Some(class) => Meaning::Class(Class::Native(class)),
    }
}

/// The class of a tag, by its namespace: those of the catalog, the sources of the unnamed package,
/// or the classes of a package, as `model.*`.
pub fn class_of_tag(classes: &[NamedClass], tag: &Element) -> Result<Meaning, NoMemory>
    ensures { IfOk result (λ m. meaning_of m ≡ class_of_tag classes.now tag.now) }
{
    let space = tag.space.as_str();
    let name = tag.local.as_str();
    if space == SPARK {
        Ok(catalog_class(name))
    } else if space == "*" {
        source_class(classes, "", name)
    } else {
        class_of_package(classes, space, name)
    }
}

// The class of a tag whose namespace names a package.
fn class_of_package(classes: &[NamedClass], space: &str, name: &str) -> Result<Meaning, NoMemory>
    ensures { IfOk result (λ m. meaning_of m ≡ class_of_package classes.now space.now name.now) }
{
    let Some(folder) = space.strip_suffix(".*") else {
        return Ok(Meaning::NoClass);
    };
    if folder.is_empty() {
        return Ok(Meaning::NoClass);
    }
    class_in(classes, folder, name)
}

// The ancestors of classes.

ghost use Rattle.std.specs.Prelude.{◌≡◌, ◌+◌, ◌<◌, ◌∷◌, [], length, map, Some, option_map, not, ◌||◌, ◌==◌};
ghost use Rattle.std.specs.List.{list_any};
ghost use Rattle.flex_world.specs.Classes.{base_in, descends, is_component, same_class, same_native, upward_in};
ghost use Rattle.source_sites.specs.Bases.{is_in_ring};
ghost use Rattle.source_sites.specs.Sites.{first_site, rule};
ghost use Rattle.class_sites.specs.ClassSites.{base_cycle, may_be_root, not_application, wrong_root};
ghost use Rattle.as3_types.specs.Meanings.{meaning_of};
ghost use Rattle.as3_types.specs.Clauses.{wrong_root_site};

use crate::meaning::Meaning;
use crate::names::is_document_class;
use crate::words::site_unless;
use component_catalog::NativeClass;
use flex_world::{Class, base_of, descends, is_above};
use source_sites::{Code, NamedClass, Site};

/// The class of a file is none of its own ancestors, where each class has the base that stands at
/// its number. At the root of a document, and at the class name of a class file.
pub fn base_cycle(bases: &[Option<Class>], file: u32, at: usize) -> Option<Site>
    ensures { result ≡ first_site file (base_cycle bases.now file at ∷ []) }
{
    let class = Class::File(file);
    let holds = !is_above(bases, base_of(bases, class), class);
    site_unless(holds, file, at, Code::BaseCycle)
}

/// The root of the main document is an Application. At the root.
pub fn not_application(bases: &[Option<Class>], file: u32, at: usize) -> Option<Site>
    ensures { result ≡ first_site file (not_application bases.now file at ∷ []) }
{
    let application = Class::Native(NativeClass::Application);
    let holds = file != 0 || descends(bases, Class::File(file), application);
    site_unless(holds, file, at, Code::NotApplication)
}

/// The root of a document is a component, and it isn't State and no document. At the root.
pub fn wrong_root(
    classes: &[NamedClass],
    bases: &[Option<Class>],
    file: u32,
    at: usize,
    base: Meaning,
) -> Option<Site>
    ensures { result ≡ wrong_root_site classes.now bases.now file at base }
{
    site_unless(may_be_root(classes, bases, base), file, at, Code::WrongBase)
}

fn may_be_root(classes: &[NamedClass], bases: &[Option<Class>], base: Meaning) -> bool
    ensures { result ≡ may_be_root classes.now bases.now (meaning_of base) }
{
    match base {
        Meaning::NoClass => true,
        Meaning::State => false,
        Meaning::Class(class) => {
            let component = Class::Native(NativeClass::UIComponent);
            !is_document_class(classes, class) && descends(bases, class, component)
        }
    }
}

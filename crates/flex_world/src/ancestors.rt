// The ancestors of classes.

ghost use Rattle.std.specs.List.{list_any};
ghost use Rattle.std.specs.Prelude.{◌≡◌, ◌+◌, length};
ghost use Rattle.flex_world.specs.Classes.{base_in, descends, same_class, same_native, upward_in};

use crate::kind::Class;
use component_catalog::NativeClass;

/// How many classes of the catalog may stand above one another.
pub const CATALOG_LEVELS: usize = 4;

/// Whether a class is the other or extends it, where each class that isn't of the catalog has the
/// base that stands at its number.
pub fn descends(bases: &[Option<Class>], class: Class, ancestor: Class) -> bool
    ensures { result ≡ descends bases.now class ancestor }
{
    is_above(bases, Some(class), ancestor)
}

/// Whether a class is found from a class upward. In a ring of bases each is met once at least.
#[tactic(auto, using(crate::proofs::Upward::no_level, crate::proofs::Upward::found_above))]
pub fn is_above(bases: &[Option<Class>], from: Option<Class>, wanted: Class) -> bool
    ensures { result ≡ list_any (same_class wanted)
        (upward_in bases.now (length bases.now + 4) from) }
{
    let mut level = from;
    let mut left = bases.len();
    while left > 0 {
        let Some(class) = level else {
            return false;
        };
        if is_same_class(wanted, class) {
            return true;
        }
        level = base_of(bases, class);
        left -= 1;
    }
    is_near(bases, level, wanted)
}

// The same for as many levels as the catalog has.
#[tactic(auto, using(crate::proofs::Upward::nothing_above, crate::proofs::Upward::no_level, crate::proofs::Upward::found_above, crate::proofs::Upward::one_up))]
fn is_near(bases: &[Option<Class>], from: Option<Class>, wanted: Class) -> bool
    ensures { result ≡ list_any (same_class wanted) (upward_in bases.now 4 from) }
{
    let mut level = from;
    let mut left = CATALOG_LEVELS;
    while left > 0 {
        let Some(class) = level else {
            return false;
        };
        if is_same_class(wanted, class) {
            return true;
        }
        level = base_of(bases, class);
        left -= 1;
    }
    false
}

/// The base of a class.
pub fn base_of(bases: &[Option<Class>], class: Class) -> Option<Class>
    ensures { result ≡ base_in bases.now class }
{
    match class {
        Class::Native(class) => match class.base() {
            Some(base) => Some(Class::Native(base)),
            None => None,
        },
        Class::File(number) => match bases.get(number as usize) {
            Some(base) => *base,
            None => None,
        },
    }
}

/// Whether two classes are the same.
pub fn is_same_class(one: Class, other: Class) -> bool
    ensures { result ≡ same_class one other }
{
    match (one, other) {
        (Class::Native(one), Class::Native(other)) => is_same_native(one, other),
        (Class::File(one), Class::File(other)) => one == other,
        _ => false,
    }
}

// Whether two classes of the catalog are the same.
fn is_same_native(one: NativeClass, other: NativeClass) -> bool
    ensures { result ≡ same_native one other }
{
    one.name() == other.name()
}

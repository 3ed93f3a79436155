// The names of an ABC's pool.

ghost use Rattle.std.specs.Prelude.{◌≡◌, None, Some, MatchOption, option_copied, if◌then◌else◌};
ghost use Rattle.flex_base.specs.Lists.{entry};
ghost use Rattle.avm2_machine.specs.Names.{string_at, name_at, native_at, texts_of, same_name, is_name, holder};
ghost use Rattle.avm2_machine.specs.declared.frame.Operand.TheVariants.{Natives};

use crate::catalog::{NativeClass, class_named};
use abc_format::{Abc, Multiname};
use flex_base::Text;

/// A qualified name: the text of its namespace, and its own text.
#[derive(Clone, Copy)]
pub struct Name<'a> {
    pub space: &'a str,
    pub local: &'a str,
}

impl Name<'_> {
    /// Whether both names have the same texts.
    pub fn is(&self, other: &Name<'_>) -> bool
        ensures { result ≡ same_name (texts_of self.now) (texts_of other.now) }
    {
        self.space == other.space && self.local == other.local
    }

    /// Whether a name has these texts.
    pub fn has_texts(&self, space: &str, local: &str) -> bool
        ensures { result ≡ is_name (texts_of self.now) space.now local.now }
    {
        self.space == space && self.local == local
    }
}

/// The entry of this number in a table of the pool, which counts from 1.
pub fn entry<T>(items: &[T], number: u32) -> Option<&T>
    ensures { option_copied result ≡ entry items.now number }
{
    if number == 0 {
        return None;
    }
    items.get(number as usize - 1)
}

/// The string of this number: the empty text for 0.
pub fn string_at(abc: &Abc, number: u32) -> Option<&str>
    ensures { MatchOption result (string_at abc.now number ≡ None) (λ text. string_at abc.now number ≡ Some text.now) }
{
    if number == 0 {
        return Some("");
    }
    let text: &Text = entry(abc.constant_pool.strings.as_slice(), number)?;
    Some(text.as_str())
}

/// The qualified name of this number.
pub fn name_at(abc: &Abc, number: u32) -> Option<Name<'_>>
    ensures { MatchOption result (name_at abc.now number ≡ None) (λ name. name_at abc.now number ≡ Some (texts_of name)) }
{
    let multiname = entry(abc.constant_pool.multinames.as_slice(), number)?;
    let Multiname::QName { namespace, name } = multiname else {
        return None;
    };
    let namespace = entry(abc.constant_pool.namespaces.as_slice(), namespace.number())?;
    Some(Name {
        space: string_at(abc, namespace.name.number())?,
        local: string_at(abc, name.number())?,
    })
}

/// The native class that the name of this number names.
pub fn native_at(abc: &Abc, number: u32) -> Option<NativeClass>
    ensures { result ≡ native_at abc.now number }
{
    let name = name_at(abc, number)?;
    class_named(name.space, name.local)
}

/// Whether the native script has a name that is looked up.
pub fn is_native(abc: &Abc, number: u32) -> bool
    ensures { holder (name_at abc.now number) ≡ (if result then Some Natives else None) }
{
    let Some(name) = name_at(abc, number) else {
        return false;
    };
    (name.space.is_empty() && name.local == "trace")
        || class_named(name.space, name.local).is_some()
}

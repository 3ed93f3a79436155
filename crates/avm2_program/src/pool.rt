// Names, read from the constant pool. A number that the reader of files excludes gives something
// empty.

ghost use Rattle.std.specs.Option.{option_copied};
ghost use Rattle.std.specs.Prelude.{◌≡◌, [], ◌∷◌, IfOk, map};
ghost use Rattle.std.specs.Str.{bytes_eq};
ghost use Rattle.flex_base.specs.Lists.{entry};
ghost use Rattle.avm2_program.specs.Naming.{dotted, dotted_name_at, name_at, name_of_multiname, own_name_at, space_at, space_text, spaces_at, string_at, text_at};
ghost use Rattle.avm2_program.specs.Names.{nameless};

use crate::names::{Name, OwnName, Space};
use abc_format::{
    Abc, Multiname, MultinameIndex, NamespaceIndex, NamespaceKind, NamespaceSetIndex, StringIndex,
};
use flex_base::{NoMemory, Sequence, Text};
use std::alloc::Global;

// The entry of a number, which counts from 1.
pub fn entry_of<T>(entries: &[T], number: u32) -> Option<&T>
    ensures { option_copied result ≡ entry entries.now number }
{
    match number {
        0 => None,
        number => entries.get(number as usize - 1),
    }
}

/// The text of a string of the pool: that of number 0 is empty.
pub fn string_at(alloc: Global, abc: &Abc, string: StringIndex) -> Result<Text, NoMemory>
    ensures { IfOk result (λ text. text ≡ string_at abc.now string) }
{
    match entry_of(abc.constant_pool.strings.as_slice(), string.number()) {
        Some(text) => Ok(text.clone()?),
        None => Text::make(alloc, ""),
    }
}

/// Whether a string of the pool is this text.
pub fn is_string(abc: &Abc, string: StringIndex, text: &str) -> bool
    ensures { result ≡ bytes_eq (string_at abc.now string) text.now }
{
    match entry_of(abc.constant_pool.strings.as_slice(), string.number()) {
        Some(own) => own.as_str() == text,
        None => text.is_empty(),
    }
}

/// A namespace of the pool.
pub fn space_at(alloc: Global, abc: &Abc, namespace: NamespaceIndex) -> Result<Space, NoMemory>
    ensures { IfOk result (λ space. space ≡ space_at abc.now namespace) }
{
    let number = namespace.number();
    let Some(info) = entry_of(abc.constant_pool.namespaces.as_slice(), number) else {
        return Ok(Space::Absent);
    };
    match info.kind {
        NamespaceKind::PrivateNs => Ok(Space::Private(number)),
        kind => Ok(Space::OfKind(kind, string_at(alloc, abc, info.name)?)),
    }
}

// The namespaces of a set of the pool.
fn spaces_at(alloc: Global, abc: &Abc, set: NamespaceSetIndex) -> Result<Sequence<Space>, NoMemory>
    ensures { IfOk result (λ spaces. spaces ≡ spaces_at abc.now set) }
{
    match entry_of(abc.constant_pool.namespace_sets.as_slice(), set.number()) {
        Some(namespaces) => all_spaces(alloc, abc, namespaces.as_slice()),
        None => Ok(Sequence::new(alloc)),
    }
}

// Some namespaces of the pool.
fn all_spaces(
    alloc: Global,
    abc: &Abc,
    namespaces: &[NamespaceIndex],
) -> Result<Sequence<Space>, NoMemory>
    ensures { IfOk result (λ spaces. spaces ≡ map (space_at abc.now) namespaces.now) }
{
    let mut spaces = Sequence::new(alloc);
    for namespace in namespaces {
        spaces.push(space_at(alloc, abc, *namespace)?)?;
    }
    Ok(spaces)
}

// A name of one namespace.
fn qualified(
    alloc: Global,
    abc: &Abc,
    namespace: NamespaceIndex,
    name: StringIndex,
) -> Result<OwnName, NoMemory>
    ensures { IfOk result (λ own. own ≡
        record { text = string_at abc.now name; space = space_at abc.now namespace }) }
{
    Ok(OwnName {
        text: string_at(alloc, abc, name)?,
        space: space_at(alloc, abc, namespace)?,
    })
}

// A name that is never found.
fn nameless_name(alloc: Global) -> Result<Name, NoMemory>
    ensures { IfOk result (λ name. name ≡ nameless) }
{
    Ok(Name {
        text: Text::make(alloc, "")?,
        spaces: Sequence::new(alloc),
    })
}

// The name that a multiname is for code.
fn name_of(alloc: Global, abc: &Abc, multiname: &Multiname) -> Result<Name, NoMemory>
    ensures { IfOk result (λ name. name ≡ name_of_multiname abc.now multiname.now) }
{
    match *multiname {
        Multiname::QName { namespace, name } => one_space(alloc, abc, namespace, name),
        Multiname::QNameA { namespace, name } => one_space(alloc, abc, namespace, name),
        Multiname::Multiname {
            name,
            namespace_set,
        } => many_spaces(alloc, abc, namespace_set, name),
        Multiname::MultinameA {
            name,
            namespace_set,
        } => many_spaces(alloc, abc, namespace_set, name),
        _ => nameless_name(alloc),
    }
}

// A name that is looked for in one namespace.
fn one_space(
    alloc: Global,
    abc: &Abc,
    namespace: NamespaceIndex,
    name: StringIndex,
) -> Result<Name, NoMemory>
    ensures { IfOk result (λ found. found ≡
        record { text = string_at abc.now name; spaces = space_at abc.now namespace ∷ [] }) }
{
    let mut spaces = Sequence::new(alloc);
    spaces.push(space_at(alloc, abc, namespace)?)?;
    Ok(Name {
        text: string_at(alloc, abc, name)?,
        spaces,
    })
}

// A name that is looked for in a set of namespaces.
fn many_spaces(
    alloc: Global,
    abc: &Abc,
    set: NamespaceSetIndex,
    name: StringIndex,
) -> Result<Name, NoMemory>
    ensures { IfOk result (λ found. found ≡
        record { text = string_at abc.now name; spaces = spaces_at abc.now set }) }
{
    Ok(Name {
        text: string_at(alloc, abc, name)?,
        spaces: spaces_at(alloc, abc, set)?,
    })
}

/// A name of the pool, as code looks it up.
pub fn name_at(alloc: Global, abc: &Abc, name: MultinameIndex) -> Result<Name, NoMemory>
    ensures { IfOk result (λ found. found ≡ name_at abc.now name) }
{
    match entry_of(abc.constant_pool.multinames.as_slice(), name.number()) {
        Some(multiname) => name_of(alloc, abc, multiname),
        None => nameless_name(alloc),
    }
}

/// A name of the pool, as a class or a trait has it: `None` exactly where it isn't one of a single
/// namespace.
pub fn own_name_at(
    alloc: Global,
    abc: &Abc,
    name: MultinameIndex,
) -> Result<Option<OwnName>, NoMemory>
    ensures { IfOk result (λ own. own ≡ own_name_at abc.now name) }
{
    let multiname = entry_of(abc.constant_pool.multinames.as_slice(), name.number());
    match multiname {
        Some(Multiname::QName { namespace, name }) => {
            Ok(Some(qualified(alloc, abc, *namespace, *name)?))
        }
        Some(Multiname::QNameA { namespace, name }) => {
            Ok(Some(qualified(alloc, abc, *namespace, *name)?))
        }
        _ => Ok(None),
    }
}

/// The text of a name of the pool, of any kind; it is empty where the name has none.
pub fn text_at(alloc: Global, abc: &Abc, name: MultinameIndex) -> Result<Text, NoMemory>
    ensures { IfOk result (λ text. text ≡ text_at abc.now name) }
{
    let multiname = entry_of(abc.constant_pool.multinames.as_slice(), name.number());
    match multiname {
        Some(Multiname::QName { name, .. }) => string_at(alloc, abc, *name),
        Some(Multiname::QNameA { name, .. }) => string_at(alloc, abc, *name),
        Some(Multiname::RtqName { name }) => string_at(alloc, abc, *name),
        Some(Multiname::RtqNameA { name }) => string_at(alloc, abc, *name),
        Some(Multiname::Multiname { name, .. }) => string_at(alloc, abc, *name),
        Some(Multiname::MultinameA { name, .. }) => string_at(alloc, abc, *name),
        _ => Text::make(alloc, ""),
    }
}

/// The full dotted name of a class with this name; it is empty where the name isn't one of a
/// single namespace.
pub fn dotted_name_at(alloc: Global, abc: &Abc, name: MultinameIndex) -> Result<Text, NoMemory>
    ensures { IfOk result (λ text. text ≡ dotted_name_at abc.now name) }
{
    let multiname = entry_of(abc.constant_pool.multinames.as_slice(), name.number());
    match multiname {
        Some(Multiname::QName { namespace, name }) => dotted_name(alloc, abc, *namespace, *name),
        Some(Multiname::QNameA { namespace, name }) => dotted_name(alloc, abc, *namespace, *name),
        _ => Text::make(alloc, ""),
    }
}

// The name of a class of a package.
fn dotted_name(
    alloc: Global,
    abc: &Abc,
    namespace: NamespaceIndex,
    name: StringIndex,
) -> Result<Text, NoMemory>
    ensures { IfOk result (λ text. text ≡ dotted (space_text abc.now namespace) (string_at abc.now name)) }
{
    let space = space_text(alloc, abc, namespace)?;
    let text = string_at(alloc, abc, name)?;
    dotted(alloc, &space, text)
}

// The text of a namespace.
fn space_text(alloc: Global, abc: &Abc, namespace: NamespaceIndex) -> Result<Text, NoMemory>
    ensures { IfOk result (λ text. text ≡ space_text abc.now namespace) }
{
    match entry_of(abc.constant_pool.namespaces.as_slice(), namespace.number()) {
        Some(info) => string_at(alloc, abc, info.name),
        None => Text::make(alloc, ""),
    }
}

// A name behind its package and a dot.
fn dotted(alloc: Global, space: &Text, text: Text) -> Result<Text, NoMemory>
    ensures { IfOk result (λ joined. joined ≡ dotted space.now text) }
{
    if space.as_str().is_empty() {
        return Ok(text);
    }
    let mut joined = String::new(alloc);
    joined.push_str(space.as_str())?;
    joined.push('.')?;
    joined.push_str(text.as_str())?;
    Text::make(alloc, &joined)
}

// The traits of the objects of a class, with the keys of slots.

ghost use Rattle.std.specs.Prelude.{◌≡◌, [], IfOk, OnOk};
ghost use Rattle.std.specs.List.{flat_map, fold, list_any};
ghost use Rattle.flex_world.specs.Classes.{base_in, lineage_in};
ghost use Rattle.flex_world.specs.declared.kind.Class.TheVariants as Class;
ghost use Rattle.avm2_program.specs.Naming.{naming_with};
ghost use Rattle.avm2_program.specs.Resolving.{own_traits, traits_at};
ghost use Rattle.avm2_program.specs.Traits.{has_dot, has_text, is_hidden, key_of, placed};
ghost use Rattle.avm2_resolver.specs.Behind.{file_number};
ghost use Rattle.avm2_resolver.specs.Gathering.{none_gathered, with_other, with_slot_at, with_trait};

use crate::traits::{is_slot, lies_in, object_member, slot_field};
use abc_format::{Abc, Trait};
use avm2_program::{ClassField, NamedMember, OwnName, TraitPlace, text_at};
use flex_base::{Names, NoMemory, Sequence, Text};
use flex_world::Class;
use std::alloc::Global;

/// What is gathered of the traits of an object, one after another.
#[derive(Drop)]
pub struct ObjectTraits {
    // The texts that no key may be any more.
    taken: Names,
    slot_count: u32,
    members: Sequence<NamedMember>,
    fields: Sequence<ClassField>,
    hidden: Sequence<ClassField>,
}

// Whether a text has a dot.
fn has_dot(text: &str) -> bool
    ensures { result ≡ has_dot text.now }
{
    text.as_bytes().iter().any(|byte| *byte == b'.')
}

// Whether a text is among others.
fn has_text(text: &str, texts: &[Text]) -> bool
    ensures { result ≡ has_text text.now texts.now }
{
    texts.iter().any(|other| other.as_str() == text)
}

// The number of a class of the file.
fn file_number(class: Option<Class>) -> Option<u32>
    ensures { result ≡ file_number class }
{
    match class {
        Some(Class::File(number)) => Some(number),
        _ => None,
    }
}

// The base of a class of the file, if it has one.
fn base_in(bases: &[Option<Class>], class: u32) -> Option<Class>
    ensures { result ≡ base_in bases.now (Class.File class) }
{
    match bases.get(class as usize) {
        Some(base) => *base,
        None => None,
    }
}

// The key of a slot with this number and this text: the text, where it has no dot and isn't taken,
// or else a dot and the number.
fn key_of(alloc: Global, taken: &[Text], number: u32, text: &Text) -> Result<Text, NoMemory>
    ensures { IfOk result (λ key. key ≡ key_of taken.now number text.now) }
{
    if !has_dot(text.as_str()) && !has_text(text.as_str(), taken) {
        return Ok(text.clone()?);
    }
    let key = format!(in alloc; ".{number}")?;
    Text::make(alloc, &key)
}

impl ObjectTraits {
    /// Nothing yet, where these texts are taken.
    pub fn new(alloc: Global, taken: Names) -> ObjectTraits
        ensures { result ≡ none_gathered taken }
    {
        ObjectTraits {
            taken,
            slot_count: 0,
            members: Sequence::new(alloc),
            fields: Sequence::new(alloc),
            hidden: Sequence::new(alloc),
        }
    }

    /// The members, and the fields, those that aren't hidden and those that are.
    pub fn into_parts(
        self,
    ) -> (
        Sequence<NamedMember>,
        Sequence<ClassField>,
        Sequence<ClassField>,
    )
        ensures { result ≡ (self.members, self.fields, self.hidden) }
    {
        (self.members, self.fields, self.hidden)
    }

    /// Adds the traits of a class and of its ancestors, the nearest first, where the classes have
    /// these bases.
    pub fn add_lineage(
        &mut self,
        alloc: Global,
        abc: &Abc,
        classes: &[Option<OwnName>],
        bases: &[Option<Class>],
        class: u32,
    ) -> Result<(), NoMemory>
        ensures { OnOk result (self.new ≡
            fold (with_trait (naming_with abc.now classes.now)) self.old
            (flat_map (own_traits (naming_with abc.now classes.now)) (lineage_in bases.now (Class.File class)))) }
    {
        let most = bases.len().checked_add(4).ok_or(NoMemory)?;
        let mut level = Some(Class::File(class));
        for _ in 0..most {
            let Some(number) = file_number(level) else {
                return Ok(());
            };
            self.add_class(alloc, abc, classes, number)?;
            level = base_in(bases, number);
        }
        Ok(())
    }

    // Adds the traits of a class of the file.
    fn add_class(
        &mut self,
        alloc: Global,
        abc: &Abc,
        classes: &[Option<OwnName>],
        class: u32,
    ) -> Result<(), NoMemory>
        ensures { OnOk result (self.new ≡
            fold (with_trait (naming_with abc.now classes.now)) self.old (traits_at (naming_with abc.now classes.now) class)) }
    {
        match abc.instances.get(class as usize) {
            Some(instance) => {
                self.add_all(alloc, abc, classes, class, instance.traits.as_slice())
            }
            None => Ok(()),
        }
    }

    // Adds the traits of a class.
    fn add_all(
        &mut self,
        alloc: Global,
        abc: &Abc,
        classes: &[Option<OwnName>],
        holder: u32,
        traits: &[Trait],
    ) -> Result<(), NoMemory>
        ensures { OnOk result (self.new ≡
            fold (with_trait (naming_with abc.now classes.now)) self.old (placed holder traits.now)) }
    {
        let mut number: u32 = 0;
        for info in traits {
            self.add(alloc, abc, classes, TraitPlace { holder, number }, info)?;
            number = number.checked_add(1).ok_or(NoMemory)?;
        }
        Ok(())
    }

    // Adds a trait.
    fn add(
        &mut self,
        alloc: Global,
        abc: &Abc,
        classes: &[Option<OwnName>],
        place: TraitPlace,
        info: &Trait,
    ) -> Result<(), NoMemory>
        ensures { OnOk result (self.new ≡
            with_trait (naming_with abc.now classes.now) self.old (record { place = place; trait = info.now })) }
    {
        if !is_slot(info.kind) {
            return self.add_other(alloc, abc, place, info);
        }
        let text = text_at(alloc, abc, info.name)?;
        let key = key_of(alloc, self.taken.as_slice(), self.slot_count, &text)?;
        self.add_slot(alloc, abc, classes, place, info, key)?;
        self.taken.push(text)?;
        self.slot_count = self.slot_count.checked_add(1).ok_or(NoMemory)?;
        Ok(())
    }

    // Adds a trait that is no slot.
    fn add_other(
        &mut self,
        alloc: Global,
        abc: &Abc,
        place: TraitPlace,
        info: &Trait,
    ) -> Result<(), NoMemory>
        ensures { OnOk result (self.new ≡
            with_other (naming_with abc.now []) self.old (record { place = place; trait = info.now })) }
    {
        let hidden = lies_in(alloc, abc, "flexc", info)?;
        let key = Text::make(alloc, "")?;
        self.members
            .push(object_member(alloc, abc, key, hidden, place, info)?)?;
        Ok(())
    }

    // Adds a slot under a key, as a member and as a field.
    fn add_slot(
        &mut self,
        alloc: Global,
        abc: &Abc,
        classes: &[Option<OwnName>],
        place: TraitPlace,
        info: &Trait,
        key: Text,
    ) -> Result<(), NoMemory>
        ensures { OnOk result (self.new ≡
            with_slot_at (naming_with abc.now classes.now) self.old (record { place = place; trait = info.now }) key) }
    {
        let hidden = lies_in(alloc, abc, "flexc", info)?;
        let field = slot_field(alloc, abc, classes, &key, info)?;
        self.members
            .push(object_member(alloc, abc, key, hidden, place, info)?)?;
        if hidden {
            self.hidden.push(field)
        } else {
            self.fields.push(field)
        }
    }
}

// The rules of metadata.

ghost use Rattle.std.specs.Prelude.{◌≡◌, [], ◌∷◌, IfOk, map, option_map};
ghost use Rattle.std.specs.List.{find};
ghost use Rattle.std.specs.Str.{bytes_eq};
ghost use Rattle.source_sites.specs.Members.{is_keyed, metadata_value};
ghost use Rattle.source_sites.specs.Trees.{tag_of};
ghost use Rattle.member_checks.specs.CodeRules.{Finds, metadata_rule, right_arguments};
ghost use Rattle.member_checks.specs.EventTypes.{event_declared};

use crate::event_types::class_of_type;
use crate::literals::quoted_text;
use crate::scope::ClassScope;
use as3_parser::{MetadataArgument, MetadataTag};
use as3_types::{ClassTable, site_unless};
use flex_base::{Bytes, NoMemory};
use flex_world::Class;
use source_sites::{Code, NamedClass, Site};
use std::alloc::Global;

/// The first broken rule of metadata.
pub fn check_metadata(
    alloc: Global,
    scope: &ClassScope,
    tags: &[MetadataTag],
) -> Result<Option<Site>, NoMemory>
    ensures { IfOk result (Finds scope.now (map (metadata_rule scope.now) (map tag_of tags.now))) }
{
    let mut rest = tags;
    while let Some((tag, others)) = rest.split_first() {
        let site = bad_metadata(alloc, scope, tag)?;
        if site.is_some() {
            return Ok(site);
        }
        rest = others;
    }
    Ok(None)
}

/// Metadata aren't `Embed`; `Bindable` has no arguments; and `Event` has a name, and an event class
/// as its type. At the `[`.
pub fn bad_metadata(
    alloc: Global,
    scope: &ClassScope,
    tag: &MetadataTag,
) -> Result<Option<Site>, NoMemory>
    ensures { IfOk result (Finds scope.now (metadata_rule scope.now (tag_of tag.now) ∷ [])) }
{
    let holds = has_right_arguments(alloc, scope, tag)?;
    Ok(site_unless(holds, scope.file, tag.span.start, Code::BadMetadata))
}

fn has_right_arguments(
    alloc: Global,
    scope: &ClassScope,
    tag: &MetadataTag,
) -> Result<bool, NoMemory>
    ensures { IfOk result (λ holds. holds ≡ right_arguments scope.now (tag_of tag.now)) }
{
    if is_named(tag, "Embed") {
        return Ok(false);
    }
    if is_named(tag, "Bindable") {
        return Ok(tag.arguments.is_empty());
    }
    if is_named(tag, "Event") {
        let class = event_declared(alloc, scope.table, scope.here, tag)?;
        return Ok(class.is_some());
    }
    Ok(true)
}

fn is_named(tag: &MetadataTag, name: &str) -> bool
    ensures { result ≡ bytes_eq (tag_of tag.now).name name.now }
{
    tag.name.text.as_str() == name
}

/// The class of the events that metadata declare: `Event` declares some where it has a name, and an
/// event class as its type.
pub fn event_declared(
    alloc: Global,
    table: &ClassTable,
    here: &NamedClass,
    tag: &MetadataTag,
) -> Result<Option<Class>, NoMemory>
    ensures { IfOk result (λ class. class ≡ event_declared table.now here.now (tag_of tag.now)) }
{
    if !is_named(tag, "Event") {
        return Ok(None);
    }
    let name = metadata_value(alloc, "name", tag)?;
    if name.as_slice().is_empty() {
        return Ok(None);
    }
    let written = metadata_value(alloc, "type", tag)?;
    class_of_type(alloc, table, here, written.as_slice())
}

/// The value of a key of metadata: that of the first argument which has it, or the empty text.
pub fn metadata_value(alloc: Global, key: &str, tag: &MetadataTag) -> Result<Bytes, NoMemory>
    ensures { IfOk result (λ value. value ≡ metadata_value key.now (tag_of tag.now)) }
{
    match argument_of(key, tag.arguments.as_slice()) {
        Some(argument) => quoted_text(alloc, argument.value.text.as_str()),
        None => Ok(Bytes::new(alloc)),
    }
}

fn argument_of<'a>(key: &str, arguments: &'a [MetadataArgument]) -> Option<&'a MetadataArgument>
    ensures { option_map (λ a. a.now) result ≡ find (is_keyed key.now) arguments.now }
{
    arguments.iter().find(|argument| is_keyed(key, argument))
}

fn is_keyed(key: &str, argument: &MetadataArgument) -> bool
    ensures { result ≡ is_keyed key.now argument.now }
{
    match &argument.key {
        Some(word) => key == word.text.as_str(),
        None => false,
    }
}

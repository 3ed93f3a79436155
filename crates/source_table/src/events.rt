// The events that the classes of files declare.

ghost use Rattle.std.specs.Prelude.{◌≡◌, ◌++◌, IfOk, OnOk, map};
ghost use Rattle.std.specs.List.{filter_map, flat_map};
ghost use Rattle.source_sites.specs.Trees.{tags_of};
ghost use Rattle.as3_types.specs.Tables.{event_of};
ghost use Rattle.class_table.specs.Columns.{events_declared};
ghost use Rattle.source_table.specs.Events.{AreEvents, declares, events_read, events_seen};

use as3_parser::{Metadata, MetadataTag};
use as3_types::{ClassTable, OwnEvent};
use class_table::{add_event, events_of};
use flex_base::{NoMemory, Sequence};
use read_sources::{ReadContent, ReadFile};
use source_sites::NamedClass;
use std::alloc::Global;

/// The events that the class of each file declares, in the order of the files. Of the table the
/// classes and their bases are looked at alone.
pub fn events_of_files(
    alloc: Global,
    table: &ClassTable,
    files: &[ReadFile],
) -> Result<Sequence<Sequence<OwnEvent>>, NoMemory>
    ensures { IfOk result (AreEvents table.now files.now) }
{
    let events = events_by_content(alloc, table, files)?;
    Ok(events)
}

fn events_by_content(
    alloc: Global,
    table: &ClassTable,
    files: &[ReadFile],
) -> Result<Sequence<Sequence<OwnEvent>>, NoMemory>
    ensures { IfOk result (λ es. map (map event_of) es ≡ events_read table.now table.now.classes files.now) }
{
    let mut events = Sequence::new(alloc);
    let mut named = table.classes.as_slice();
    let mut rest = files;
    while let Some((file, behind)) = rest.split_first() {
        let Some((here, others)) = named.split_first() else {
            return Ok(events);
        };
        let found = events_of_content(alloc, table, here, &file.content)?;
        events.push(found)?;
        named = others;
        rest = behind;
    }
    Ok(events)
}

fn events_of_content(
    alloc: Global,
    table: &ClassTable,
    here: &NamedClass,
    content: &ReadContent,
) -> Result<Sequence<OwnEvent>, NoMemory>
    ensures { IfOk result (λ es. map event_of es ≡ events_seen table.now here.now content.now) }
{
    match content {
        ReadContent::Document(document) => {
            let metadata = document.metadata.as_slice();
            let events = events_of_metadata(alloc, table, here, metadata)?;
            Ok(events)
        }
        ReadContent::ClassFile(parsed) => {
            let tags = parsed.file.class.metadata.as_slice();
            let events = events_of(alloc, table, here, tags)?;
            Ok(events)
        }
    }
}

fn events_of_metadata(
    alloc: Global,
    table: &ClassTable,
    here: &NamedClass,
    metadata: &[Metadata],
) -> Result<Sequence<OwnEvent>, NoMemory>
    ensures { IfOk result (λ es. map event_of es ≡ filter_map (declares table.now here.now) (flat_map tags_of metadata.now)) }
{
    let mut events = Sequence::new(alloc);
    let mut rest = metadata;
    while let Some((written, others)) = rest.split_first() {
        add_events(alloc, &mut events, table, here, written.tags.as_slice())?;
        rest = others;
    }
    Ok(events)
}

fn add_events(
    alloc: Global,
    events: &mut Sequence<OwnEvent>,
    table: &ClassTable,
    here: &NamedClass,
    tags: &[MetadataTag],
) -> Result<(), NoMemory>
    ensures { OnOk result (map event_of events.new ≡ map event_of events.old ++ events_declared table.now here.now tags.now) }
{
    let mut rest = tags;
    while let Some((tag, others)) = rest.split_first() {
        add_event(alloc, events, table, here, tag)?;
        rest = others;
    }
    Ok(())
}

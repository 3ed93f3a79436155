// The events that the metadata of a class declare.

ghost use Rattle.std.specs.Prelude.{◌≡◌, ◌++◌, IfOk, OnOk, map};
ghost use Rattle.std.specs.Option.{option_to_list};
ghost use Rattle.as3_types.specs.Tables.{event_of};
ghost use Rattle.class_table.specs.Columns.{event_declared, events_declared};

use as3_parser::MetadataTag;
use as3_types::{ClassTable, OwnEvent};
use flex_base::{NoMemory, Sequence};
use member_checks::{event_declared, metadata_value};
use source_sites::NamedClass;
use std::alloc::Global;

/// The events that the metadata of a class declare, in text order. Of the table the classes and
/// their bases are looked at alone.
pub fn events_of(
    alloc: Global,
    table: &ClassTable,
    here: &NamedClass,
    tags: &[MetadataTag],
) -> Result<Sequence<OwnEvent>, NoMemory>
    ensures { IfOk result (λ events. map event_of events ≡ events_declared table.now here.now tags.now) }
{
    let mut events = Sequence::new(alloc);
    let mut rest = tags;
    while let Some((tag, others)) = rest.split_first() {
        add_event(alloc, &mut events, table, here, tag)?;
        rest = others;
    }
    Ok(events)
}

/// Adds the event that metadata declare, if they declare one.
pub fn add_event(
    alloc: Global,
    events: &mut Sequence<OwnEvent>,
    table: &ClassTable,
    here: &NamedClass,
    tag: &MetadataTag,
) -> Result<(), NoMemory>
    ensures { OnOk result (map event_of events.new ≡ map event_of events.old ++ option_to_list (event_declared table.now here.now tag.now)) }
{
    let Some(class) = event_declared(alloc, table, here, tag)? else {
        return Ok(());
    };
    let name = metadata_value(alloc, "name", tag)?;
    events.push(OwnEvent { name, class })?;
    Ok(())
}

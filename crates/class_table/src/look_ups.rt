// Properties that the code of a class may see.

ghost use Rattle.std.specs.Prelude.{◌≡◌, List, ℕ, option_map};
ghost use Rattle.source_sites.specs.LookUps.{is_seen};
ghost use Rattle.as3_types.specs.Tables.{found_as, table_of};
ghost use Rattle.class_table.specs.Seen.{access_in, member_seen, property_as, property_found, property_in_member, property_of_own, property_of_row};

use as3_parser::Modifier;
use as3_types::{
    ClassTable, Found, FoundMember, OwnKind, OwnMember, ValueType, member_of, native_type,
};
use component_catalog::PropertyRow;
use flex_world::{Class, descends, is_same_class};

/// A property of the objects of a class.
#[derive(Clone, Copy)]
pub struct Property<'a> {
    pub name: &'a str,
    pub kind: ValueType,
    pub read_only: bool,
    /// Whether bindings watch it.
    pub bindable: bool,
    /// Whether it is of the catalog.
    pub native: bool,
}

/// The property that a name stands for on objects of a class, where the code of the class `from` may
/// see it.
pub fn property_seen<'a>(
    table: &'a ClassTable,
    from: Class,
    class: Class,
    name: &'a str,
) -> Option<Property<'a>>
    ensures { option_map property_as result ≡ property_found table.now from class name.now }
{
    let found = member_seen(table, from, class, name)?;
    property_in(found.member, name)
}

/// The member that a name stands for on objects of a class, where the code of the class `from` may
/// see it.
pub fn member_seen<'a>(
    table: &'a ClassTable,
    from: Class,
    class: Class,
    name: &str,
) -> Option<FoundMember<'a>>
    ensures { option_map (found_as name.now) result ≡ member_seen table.now from class name.now }
{
    let found = member_of(table, class, name)?;
    if is_seen(table, found.owner, access_in(found.member), from) {
        Some(found)
    } else {
        None
    }
}

/// Whether the code of a class sees a member with this access: a private one in its class, a
/// protected one in its class and the classes that descend from it.
pub fn is_seen(table: &ClassTable, owner: Class, access: Modifier, from: Class) -> bool
    ensures { result ≡ is_seen (table_of table.now) owner access from }
{
    match access {
        Modifier::Private => is_same_class(owner, from),
        Modifier::Protected => descends(table.bases.as_slice(), from, owner),
        Modifier::Public => true,
        Modifier::Override => true,
    }
}

fn access_in(found: Found) -> Modifier
    ensures { (name : List ℕ) → result ≡ access_in name found.entry }
{
    match found {
        Found::Source(member) => member.access,
        Found::Property(_) => Modifier::Public,
        Found::Method(_) => Modifier::Public,
    }
}

fn property_in<'a>(found: Found<'a>, name: &'a str) -> Option<Property<'a>>
    ensures { option_map property_as result ≡ property_in_member name.now found.entry }
{
    match found {
        Found::Source(member) => own_property(member),
        Found::Property(row) => Some(native_property(name, row)),
        Found::Method(_) => None,
    }
}

fn own_property(member: &OwnMember) -> Option<Property<'_>>
    ensures { option_map property_as result ≡ property_of_own member.now }
{
    match &member.kind {
        OwnKind::Property(kind, bindable) => Some(Property {
            name: member.name.as_str(),
            kind: *kind,
            read_only: false,
            bindable: *bindable,
            native: false,
        }),
        OwnKind::Method(_) => None,
    }
}

fn native_property(name: &str, row: PropertyRow) -> Property<'_>
    ensures { property_as result ≡ property_of_row name.now row }
{
    Property {
        name,
        kind: native_type(row.kind),
        read_only: row.read_only,
        bindable: row.bindable,
        native: true,
    }
}

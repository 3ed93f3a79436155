// Where the members of a class stand.

ghost use Rattle.std.specs.Prelude.{◌≡◌};
ghost use Rattle.member_checks.specs.Places.{places_in};

use crate::names::NamedPlace;
use as3_parser::Member;
use as3_types::ClassTable;
use source_sites::NamedClass;

/// The class of a class file, with all names that it declares.
#[derive(Drop)]
pub struct ClassScope<'a> {
    pub table: &'a ClassTable,
    /// The number of the file.
    pub file: u32,
    pub here: &'a NamedClass,
    pub members: &'a [Member],
    pub names: &'a [NamedPlace],
    pub ghost declared: { names.now ≡ places_in 0 members.now },
}

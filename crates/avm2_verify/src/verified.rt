// Records whose code is verified.

ghost use Rattle.std.specs.Prelude.{◌≡◌, slice_get};
ghost use Rattle.avm2_verify.specs.Known.{joined};

use abc_format::Abc;
use flex_base::Sequence;
use std::marker::Model;
use verified_code::Depths;

/// Records whose code is verified: only `verify` makes them.
#[derive(Drop)]
pub struct Verified {
    abc: Abc,
    // Of each place of each body, the depths of the paths that come to it.
    tables: Sequence<Sequence<Option<Depths>>>,
}

impl Model for Verified {
    ghost use Rattle.abc_format.specs.declared.records.Abc.{Abc as Records};
    ghost use Rattle.avm2_verify.specs.Tables.{IsVerifiedBy};

    ghost Value = { Records };

    ghost view = { λ v. v.abc };

    ghost invariant = { λ v. IsVerifiedBy v.abc v.tables };
}

impl Verified {
    ghost use Rattle.std.specs.Prelude.{◌≡◌, IfSome, Some};
    ghost use Rattle.avm2_verify.specs.Tables.{HasDepthsIn, IsVerifiedBy};
    ghost use Rattle.verified_code.specs.Verified.{IsVerified};
    ghost use Rattle.verified_code.specs.declared.Depths.{Depths};

    // The records with the tables of their code.
    pub(crate) fn new(abc: Abc, tables: Sequence<Sequence<Option<Depths>>>) -> Verified
        requires { IsVerifiedBy abc tables }
        ensures { result ≡ abc }
    {
        Verified { abc, tables }
    }

    /// The records.
    pub fn abc(&self) -> &Abc
        ensures records { result.now ≡ self.now }
        ensures verified { IsVerified self.now }
    {
        &self.abc
    }

    /// What every path has that comes to the instruction at a place of a body: `None` where no path
    /// does. It takes no memory.
    pub fn depths(&self, body: usize, place: usize) -> Option<Depths>
        ensures found { IfSome result (HasDepthsIn self.now body place) }
        ensures all { (d : Depths) → HasDepthsIn self.now body place d → result ≡ Some d }
    {
        match self.tables.get(body) {
            Some(table) => depths_in(table.as_slice(), place),
            None => None,
        }
    }

    /// The records alone.
    pub fn into_abc(self) -> Abc
        ensures records { result ≡ self }
        ensures verified { IsVerified self }
    {
        let Verified { abc, tables: _ } = self;
        abc
    }
}

// The depths at a place of a table.
pub(crate) fn depths_in(table: &[Option<Depths>], place: usize) -> Option<Depths>
    ensures { result ≡ joined (slice_get table.now place) }
{
    match table.get(place) {
        Some(depths) => *depths,
        None => None,
    }
}

// Why records aren't verified.

use avm2_code::CodeReason;
use flex_base::NoMemory;

/// Why the code of records isn't verified.
#[derive(Drop, Debug, PartialEq, Eq)]
pub enum VerifyRefusal {
    /// The first reason: the number of the body, from 0, the place in its code, and the reason.
    Bad {
        body: u32,
        place: usize,
        reason: CodeReason,
    },
    /// There is too little memory.
    NoMemory,
}

impl From<NoMemory> for VerifyRefusal {
    ghost use Rattle.std.specs.Prelude.{◌≡◌};
    ghost use Rattle.avm2_verify.specs.declared.refusal.VerifyRefusal.TheVariants as refusal;

    ghost from_gives = { λ error made. made ≡ refusal.NoMemory };

    fn from(_: NoMemory) -> VerifyRefusal {
        VerifyRefusal::NoMemory
    }
}

// Why tokens aren't what a text is to be.

use flex_base::NoMemory;
use std::alloc::AllocError;

/// Why tokens aren't what a text is to be. Tokens are counted from 0.
#[derive(Clone, Copy, Debug, PartialEq, Eq)]
pub enum ParseRefusal {
    /// The tokens up to this one begin no sentence of the grammar, those before it do; or it is the
    /// number of the tokens, where they begin a sentence and make none.
    Syntax(usize),
    /// This token is the first that opens level 65. Each statement, each expression and each prefix
    /// `-` or `!` opens a level. The limit is this project's own.
    TooDeep(usize),
    /// Memory was refused.
    NoMemory,
}

impl From<AllocError> for ParseRefusal {
    ghost use Rattle.std.specs.Prelude.{◌≡◌};
    ghost use Rattle.as3_parser.specs.declared.refusal.ParseRefusal.{ParseRefusal};

    ghost from_gives = { λ _ refusal. refusal ≡ ParseRefusal.NoMemory };

    fn from(_error: AllocError) -> ParseRefusal {
        ParseRefusal::NoMemory
    }
}

impl From<NoMemory> for ParseRefusal {
    ghost use Rattle.std.specs.Prelude.{◌≡◌};
    ghost use Rattle.as3_parser.specs.declared.refusal.ParseRefusal.{ParseRefusal};

    ghost from_gives = { λ _ refusal. refusal ≡ ParseRefusal.NoMemory };

    fn from(_refusal: NoMemory) -> ParseRefusal {
        ParseRefusal::NoMemory
    }
}

// What is wrong with a text of code.

use flex_base::NoMemory;
use source_sites::Code;

/// Why a text isn't the code that it is to be.
#[derive(Clone, Copy, Debug, PartialEq, Eq)]
pub enum CodeRefusal {
    /// The first fault of the text: `BadToken`, `Syntax` or `TooDeep`, and its place in bytes of
    /// the text from 0. A fault behind all tokens stands at the end of the text.
    Fault(Code, usize),
    /// Memory was refused.
    NoMemory,
}

impl From<NoMemory> for CodeRefusal {
    ghost use Rattle.std.specs.Prelude.{◌≡◌};
    ghost use Rattle.source_reading.specs.declared.code.CodeRefusal.{CodeRefusal};

    ghost from_gives = { λ _ refusal. refusal ≡ CodeRefusal.NoMemory };

    fn from(_refusal: NoMemory) -> CodeRefusal {
        CodeRefusal::NoMemory
    }
}

// Why a call of the outside took and gave nothing.

use flex_base::NoMemory;
use thiserror::Error;

/// Why a call of a `Files` or a `Sink` took and gave nothing. This project's own.
#[derive(Clone, Copy, Debug, PartialEq, Eq, Error)]
pub enum Refused {
    /// The call failed, and its count of faults rose.
    #[error("the call failed")]
    Failed,
    /// The call wanted memory.
    #[error("memory was refused")]
    NoMemory,
}

impl From<NoMemory> for Refused {
    ghost use Rattle.std.specs.Prelude.{◌≡◌};
    ghost use Rattle.flex_edge.specs.declared.refused.Refused.TheVariants as variant;

    ghost from_gives = { λ _ refused. refused ≡ variant.NoMemory };

    fn from(_error: NoMemory) -> Refused {
        Refused::NoMemory
    }
}

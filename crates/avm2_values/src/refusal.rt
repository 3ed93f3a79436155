// Why a call of the machine gave nothing.

ghost use Rattle.std.specs.Prelude.{◌≡◌};
ghost use Rattle.flex_base.specs.declared.outcome.Outcome.TheVariants.{Fault, Stopped};
ghost use Rattle.avm2_values.specs.declared.refusal.Refusal.TheVariants.{Halt, NoMemory};

use flex_base::{MachineFault, NoMemory, Outcome, RunRefusal, Stop};
use std::alloc::AllocError;

/// Why a call of the machine gave nothing.
#[derive(Clone, Copy, Debug, PartialEq, Eq)]
pub enum Refusal {
    /// The play is over.
    Halt(Outcome),
    /// Memory was refused.
    NoMemory,
}

impl From<Stop> for Refusal {
    ghost from_gives = { λ cause refusal. refusal ≡ Halt (Stopped cause) };

    fn from(cause: Stop) -> Refusal {
        Refusal::Halt(Outcome::Stopped(cause))
    }
}

impl From<MachineFault> for Refusal {
    ghost from_gives = { λ fault refusal. refusal ≡ Halt (Fault fault) };

    fn from(fault: MachineFault) -> Refusal {
        Refusal::Halt(Outcome::Fault(fault))
    }
}

impl From<NoMemory> for Refusal {
    ghost from_gives = { λ _ refusal. refusal ≡ NoMemory };

    fn from(_error: NoMemory) -> Refusal {
        Refusal::NoMemory
    }
}

impl From<AllocError> for Refusal {
    ghost from_gives = { λ _ refusal. refusal ≡ NoMemory };

    fn from(_error: AllocError) -> Refusal {
        Refusal::NoMemory
    }
}

impl From<RunRefusal> for Refusal {
    ghost use Rattle.avm2_values.specs.Answers.{as_refusal};

    ghost from_gives = { λ given refusal. refusal ≡ as_refusal given };

    fn from(given: RunRefusal) -> Refusal {
        match given {
            RunRefusal::Stop(cause) => Refusal::from(cause),
            RunRefusal::NoMemory => Refusal::NoMemory,
        }
    }
}

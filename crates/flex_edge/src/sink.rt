// What is printed.

use crate::refused::Refused;

/// Where text is printed. This project's own.
///
/// A `Sink` means a count of write faults that never falls, and, where it tells, the bytes taken.
pub trait Sink {
    ghost use Rattle.flex_edge.specs.Outside.{IsPiece, SinkState};
    ghost use Rattle.flex_edge.specs.Calls.{Writes};

    /// What the sink means now.
    ghost state: { Self → SinkState };

    /// Takes a first part of `piece`, which has 1 to 4,096 bytes, and answers its length. Where
    /// that is 0, the count of write faults rises.
    fn write(&mut self, piece: &[u8]) -> Result<usize, Refused>
        requires { IsPiece piece.now }
        ensures { Writes (state self.old) piece.now result (state self.new) };
}

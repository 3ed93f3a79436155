// Files that are fed to a consumer, piece by piece.

ghost use Rattle.flex_edge.specs.Feeding.{Feeds};

use crate::files::Files;
use crate::refused::Refused;

/// The greatest length of a buffer or a piece that is handed over at once.
pub(crate) const PIECE: usize = 4096;

/// Who takes the bytes of a file, piece by piece. This project's own.
///
/// A consumer means what each call does to it, and its room: a number that falls with each piece
/// that it takes, so that it takes no file without an end.
pub trait Consumer {
    ghost use Rattle.std.specs.Prelude.{◌<◌, ℕ, List, Result, OnOk};
    ghost use Rattle.flex_edge.specs.Outside.{IsPiece};

    /// Why a piece isn't taken: want of memory, or a reason of the consumer's own.
    type Refusal;

    /// What a call does: the consumer before it, the piece, the answer, the consumer after it.
    ghost takes: { Self → List ℕ → Result (Unit {0}) Self.Refusal → Self → Type 0 };

    /// At most how many further pieces it takes.
    ghost room: { Self → ℕ };

    /// Takes the next piece, which has 1 to 4,096 bytes.
    fn take(&mut self, piece: &[u8]) -> Result<(), Self::Refusal>
        requires { IsPiece piece.now }
        ensures taken { takes self.old piece.now result self.new }
        ensures falls { OnOk result (room self.new < room self.old) };
}

/// Why a consumer wasn't fed a whole file.
#[derive(Debug, Drop)]
pub enum FeedRefusal<E> {
    /// A call of the files answered a refusal.
    Files(Refused),
    /// The consumer didn't take a piece.
    Consumer(E),
}

impl<E> From<Refused> for FeedRefusal<E> {
    ghost use Rattle.std.specs.Prelude.{◌≡◌};
    ghost use Rattle.flex_edge.specs.declared.consumer.FeedRefusal.TheVariants as variant;

    ghost from_gives = { λ refused refusal. refusal ≡ variant.Files refused };

    fn from(refused: Refused) -> FeedRefusal<E> {
        FeedRefusal::Files(refused)
    }
}

/// Feeds the file with this name to the consumer: all its bytes, in order, cut into pieces of 1 to
/// 4,096 bytes. After a refusal the consumer took a first part of them, or nothing.
pub fn feed_file<F: Files, C: Consumer>(
    files: &mut F,
    name: &str,
    consumer: &mut C,
) -> Result<(), FeedRefusal<C::Refusal>>
    ensures { Feeds C.takes name.now (F.state files.old) consumer.old
        result (F.state files.new) consumer.new }
{
    files.begin(name)?;
    let mut buffer = [0; PIECE];
    loop {
        let count = files.next(&mut buffer)?;
        if count == 0 {
            return Ok(());
        }
        match consumer.take(&buffer[..count]) {
            Ok(()) => {}
            Err(refusal) => return Err(FeedRefusal::Consumer(refusal)),
        }
    }
}

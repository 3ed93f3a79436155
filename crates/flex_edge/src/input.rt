// The reading of whole files.

ghost use Rattle.flex_edge.specs.Whole.{ReadsFile};

use crate::consumer::{Consumer, FeedRefusal, feed_file};
use crate::files::Files;
use crate::refused::Refused;
use flex_base::Bytes;
use std::alloc::Global;

/// Why a file wasn't read.
#[derive(Clone, Copy, Debug, PartialEq, Eq)]
pub enum ReadRefusal {
    /// A call failed.
    Failed,
    /// The file has more bytes than are to be read.
    TooLong,
    /// Memory was refused.
    NoMemory,
}

impl From<Refused> for ReadRefusal {
    ghost use Rattle.std.specs.Prelude.{◌≡◌};
    ghost use Rattle.flex_edge.specs.Whole.{read_refusal};

    ghost from_gives = { λ refused refusal. refusal ≡ read_refusal refused };

    fn from(refused: Refused) -> ReadRefusal {
        match refused {
            Refused::Failed => ReadRefusal::Failed,
            Refused::NoMemory => ReadRefusal::NoMemory,
        }
    }
}

// Collects the bytes of a file, at most `most` of them.
#[derive(Drop)]
struct Collector {
    bytes: Bytes,
    most: usize,
}

impl Consumer for Collector {
    ghost use Rattle.std.specs.Prelude.{◌-◌, length};
    ghost use Rattle.flex_edge.specs.Feeding.{Collects};

    type Refusal = ReadRefusal;

    ghost takes = { Collects };

    ghost room = { λ c. c.most - length c.bytes };

    fn take(&mut self, piece: &[u8]) -> Result<(), ReadRefusal> {
        if piece.len() > self.most.saturating_sub(self.bytes.len()) {
            return Err(ReadRefusal::TooLong);
        }
        match self.bytes.extend(piece) {
            Ok(()) => Ok(()),
            Err(_) => Err(ReadRefusal::NoMemory),
        }
    }
}

/// All bytes of the file with this name, which are at most `most`.
pub fn read_file<F: Files>(
    alloc: Global,
    files: &mut F,
    name: &str,
    most: usize,
) -> Result<Bytes, ReadRefusal>
    ensures { ReadsFile most (F.state files.old) name.now result (F.state files.new) }
{
    let mut collector = Collector {
        bytes: Bytes::new(alloc),
        most,
    };
    match feed_file(files, name, &mut collector) {
        Ok(()) => Ok(collector.bytes),
        Err(FeedRefusal::Files(refused)) => Err(ReadRefusal::from(refused)),
        Err(FeedRefusal::Consumer(refusal)) => Err(refusal),
    }
}

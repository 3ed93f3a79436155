// Files that are read and written one at a time.

use crate::refused::Refused;

/// Files, of which one is read and one is written at a time. This project's own.
///
/// A `Files` means two counts of faults that never fall, one of `begin` and `next` and one of
/// `create` and `append`. Where it tells, it also means the bytes of each name, the name given to
/// the last `begin`, the rest of the file that is read, and the name of the file created last.
pub trait Files {
    ghost use Rattle.flex_edge.specs.Outside.{IsPiece, FilesState};
    ghost use Rattle.flex_edge.specs.Calls.{Begins, Reads, Creates, Appends};

    /// What the files mean now.
    ghost state: { Self → FilesState };

    /// Begins to read the file with this name, from its first byte.
    fn begin(&mut self, name: &str) -> Result<(), Refused>
        ensures { Begins (state self.old) name.now result (state self.new) };

    /// Reads the next bytes of the file begun last into `buf`, which has 1 to 4,096 bytes, and
    /// answers how many they are: 0 is the end of the file.
    fn next(&mut self, buf: &mut [u8]) -> Result<usize, Refused>
        requires { IsPiece buf.old }
        ensures { Reads (state self.old) buf.new result (state self.new) };

    /// Makes the file with this name, or empties it.
    fn create(&mut self, name: &str) -> Result<(), Refused>
        ensures { Creates (state self.old) name.now result (state self.new) };

    /// Writes a first part of `piece`, which has 1 to 4,096 bytes, behind the file created last,
    /// and answers its length. Where that is 0, the count of write faults rises.
    fn append(&mut self, piece: &[u8]) -> Result<usize, Refused>
        requires { IsPiece piece.now }
        ensures { Appends (state self.old) piece.now result (state self.new) };
}

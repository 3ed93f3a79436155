// The writing of whole files and of text to the sink.

ghost use Rattle.std.specs.Prelude.{◌≡◌, length, min, take};
ghost use Rattle.flex_edge.specs.Whole.{WritesFile, Prints};

use crate::consumer::PIECE;
use crate::files::Files;
use crate::refused::Refused;
use crate::sink::Sink;

/// Makes the file with this name, and writes the bytes to it.
pub fn write_file<F: Files>(files: &mut F, name: &str, bytes: &[u8]) -> Result<(), Refused>
    ensures { WritesFile (F.state files.old) name.now bytes.now result (F.state files.new) }
{
    files.create(name)?;
    let mut left = bytes;
    while !left.is_empty() {
        let count = files.append(first_piece(left))?;
        if count == 0 {
            return Err(Refused::Failed);
        }
        left = &left[count..];
    }
    Ok(())
}

/// Writes the bytes to the sink.
pub fn print<O: Sink>(out: &mut O, bytes: &[u8]) -> Result<(), Refused>
    ensures { Prints (O.state out.old) bytes.now result (O.state out.new) }
{
    let mut left = bytes;
    while !left.is_empty() {
        let count = out.write(first_piece(left))?;
        if count == 0 {
            return Err(Refused::Failed);
        }
        left = &left[count..];
    }
    Ok(())
}

// The first bytes, at most a piece.
fn first_piece(bytes: &[u8]) -> &[u8]
    ensures { result.now ≡ take (min (length bytes.now) 4096) bytes.now }
{
    &bytes[..bytes.len().min(PIECE)]
}

// Files in a list, each with its name and its bytes; of those with one name the first counts.

ghost use Rattle.std.specs.Prelude.{◌≡◌, IfOk, OnErr, option_copied};
ghost use Rattle.std.specs.List.{position};
ghost use Rattle.std.specs.Str.{bytes_eq};
ghost use Rattle.flex_edge.specs.Memory.{bytes_of, files_after_create};
ghost use Rattle.flex_edge.specs.MemoryCalls.{IsTakenCount, TakesFirst};

use flex_base::{Bytes, NoMemory, Sequence, Text};
use std::alloc::Global;

/// Files in order, each with its name and its bytes.
pub type FileList = Sequence<(Text, Bytes)>;

// The place of the first file with this name.
fn place_of(files: &[(Text, Bytes)], name: &str) -> Option<usize>
    ensures { result ≡ position (λ file. bytes_eq file.0 name.now) files.now }
{
    files.iter().position(|file| file.0.as_str() == name)
}

// The bytes of the first file with this name.
pub(crate) fn find_file<'a>(files: &'a [(Text, Bytes)], name: &str) -> Option<&'a Bytes>
    ensures { option_copied result ≡ bytes_of files.now name.now }
{
    let place = place_of(files, name)?;
    Some(&files[place].1)
}

// Writes the first bytes of a piece, at most `most`, behind the file created last, and answers how
// many: 0 where no file was created or the file isn't there.
pub(crate) fn append_to_created(
    files: &mut [(Text, Bytes)],
    created: &Option<Text>,
    piece: &[u8],
    most: usize,
) -> Result<usize, NoMemory>
    ensures count { IfOk result (IsTakenCount files.old created.now most piece.now) }
    ensures after { IfOk result (TakesFirst files.old created.now piece.now files.new) }
    ensures err { OnErr result (files.new ≡ files.old) }
{
    let Some(name) = created else {
        return Ok(0);
    };
    let Some(place) = place_of(files, name.as_str()) else {
        return Ok(0);
    };
    let part = &piece[..most.min(piece.len())];
    let file = &mut files[place];
    file.1.extend(part)?;
    Ok(part.len())
}

// Empties the first file with this name, or adds one at the end.
pub(crate) fn empty_file(
    alloc: Global,
    files: &mut Vec<(Text, Bytes)>,
    name: &Text,
) -> Result<(), NoMemory>
    ensures ok { IfOk result (λ _. files.new.items ≡ files_after_create files.old.items name.now) }
    ensures err { OnErr result (files.new.items ≡ files.old.items) }
{
    match place_of(files, name.as_str()) {
        Some(place) => {
            let file = &mut files[place];
            file.1 = Bytes::new(alloc);
        }
        None => files.push((name.clone()?, Bytes::new(alloc)))?,
    }
    Ok(())
}

ghost use Rattle.std.specs.Prelude.{◌<◌};

use super::MemoryFiles;
use crate::counts::Numbers;
use crate::files::Files;
use crate::input::{ReadRefusal, read_file};
use crate::named::FileList;
use crate::refused::Refused;
use crate::steps::{Step, first_wrong};
use flex_base::{Bytes, NoMemory, Text};
use std::alloc::Global;
use std::test::Fail;

// Two files of the name `a`, the first with the bytes `abc`, and an empty one.
fn memory(alloc: Global, listed: &[u64], most: usize) -> Result<MemoryFiles, NoMemory>
    requires { 0 < most }
{
    let mut files = FileList::new(alloc);
    add(alloc, &mut files, "a", b"abc")?;
    add(alloc, &mut files, "empty", b"")?;
    add(alloc, &mut files, "a", b"second")?;
    let mut fails = Numbers::new(alloc);
    for number in listed {
        fails.push(*number)?;
    }
    Ok(MemoryFiles::new(alloc, files, fails, most))
}

fn add(alloc: Global, files: &mut FileList, name: &str, content: &[u8]) -> Result<(), NoMemory> {
    let mut bytes = Bytes::new(alloc);
    bytes.extend(content)?;
    files.push((Text::make(alloc, name)?, bytes))
}

// Whether the file's bytes are these.
fn holds(files: &MemoryFiles, name: &str, content: &[u8]) -> bool {
    match files.file(name) {
        Some(bytes) => bytes.as_slice() == content,
        None => false,
    }
}

// Whether the reading of a file of at most so many bytes gives this.
fn reads(
    alloc: Global,
    files: &mut MemoryFiles,
    name: &str,
    most: usize,
    answer: Result<&[u8], ReadRefusal>,
) -> bool {
    match (read_file(alloc, files, name, most), answer) {
        (Ok(bytes), Ok(content)) => bytes.as_slice() == content,
        (Err(refusal), Err(other)) => refusal == other,
        _ => false,
    }
}

#[test]
fn takes_a_byte_at_a_time(rt: HostRuntime) -> Result<(), Fail> {
    let mut files = memory(rt.alloc(), &[], 1)?;
    let steps = [
        Step::Next(4, Ok(b"")),
        Step::Append(b"xy", Ok(0)),
        Step::Begin("a", Ok(())),
        Step::Create("new", Ok(())),
        Step::Next(1, Ok(b"a")),
        Step::Append(b"xy", Ok(1)),
        Step::Begin("missing", Err(Refused::Failed)),
        Step::Next(4, Ok(b"bc")),
        Step::Next(4, Ok(b"")),
    ];
    assert_eq!(rt; first_wrong(&mut files, &steps), None);
    assert_eq!(rt; (files.append(b""), files.next(&mut [])), (Ok(0), Ok(0)));
    assert_eq!(rt; (files.read_faults(), files.write_faults()), (1, 1));
    let written = holds(&files, "new", b"x");
    assert!(rt; written);
    Ok(())
}

#[test]
fn reads_whole_files(rt: HostRuntime) -> Result<(), Fail> {
    let mut files = memory(rt.alloc(), &[7], 1)?;
    let whole = reads(rt.alloc(), &mut files, "a", 3, Ok(b"abc"));
    let long = reads(rt.alloc(), &mut files, "a", 2, Err(ReadRefusal::TooLong));
    let missing = reads(rt.alloc(), &mut files, "b", 3, Err(ReadRefusal::Failed));
    let empty = reads(rt.alloc(), &mut files, "empty", 0, Err(ReadRefusal::Failed));
    let again = reads(rt.alloc(), &mut files, "empty", 0, Ok(b""));
    assert!(rt; whole && long && missing && empty && again);
    Ok(())
}

#[test]
fn fails_where_listed(rt: HostRuntime) -> Result<(), Fail> {
    let mut files = memory(rt.alloc(), &[2, 4, 6, 8], 16)?;
    let steps = [
        Step::Begin("a", Ok(())),
        Step::Begin("empty", Err(Refused::Failed)),
        Step::Next(1, Ok(b"a")),
        Step::Next(4, Err(Refused::Failed)),
        Step::Create("a", Ok(())),
        Step::Create("empty", Err(Refused::Failed)),
        Step::Append(b"new", Ok(3)),
        Step::Append(b"x", Err(Refused::Failed)),
        Step::Next(4, Ok(b"bc")),
        Step::Begin("a", Ok(())),
        Step::Next(4, Ok(b"new")),
    ];
    assert_eq!(rt; first_wrong(&mut files, &steps), None);
    assert_eq!(rt; (files.read_faults(), files.write_faults()), (2, 2));
    let written = holds(&files, "a", b"new") && holds(&files, "empty", b"");
    assert!(rt; written);
    Ok(())
}

use super::{HostFiles, HostSink};
use crate::refused::Refused;
use crate::sink::Sink;
use crate::steps::{Step, first_wrong};
use std::fs;
use std::test::Fail;

#[test]
fn writes_and_reads_a_file(rt: HostRuntime) -> Result<(), Fail> {
    let mut files = HostFiles::new(rt.clone()?);
    let steps = [
        Step::Next(4, Ok(b"")),
        Step::Append(b"x", Ok(0)),
        Step::Create("out.bin", Ok(())),
        Step::Append(b"ab", Ok(2)),
        Step::Append(b"c", Ok(1)),
        Step::Begin("out.bin", Ok(())),
        Step::Next(4, Ok(b"abc")),
        Step::Next(4, Ok(b"")),
        Step::Begin("out.bin", Ok(())),
        Step::Next(1, Ok(b"a")),
        Step::Begin("missing/out.bin", Err(Refused::Failed)),
        Step::Next(4, Ok(b"bc")),
        Step::Create("missing/out.bin", Err(Refused::Failed)),
    ];
    assert_eq!(rt; first_wrong(&mut files, &steps), None);
    assert_eq!(rt; (files.read_faults(), files.write_faults()), (1, 2));
    fs::remove_file(&rt, "out.bin")?;
    Ok(())
}

#[test]
fn prints_a_line(rt: HostRuntime) -> Result<(), Fail> {
    let mut sink = HostSink::new(rt.clone()?);
    assert_eq!(rt; sink.write(b"host sink\n"), Ok(10));
    assert_eq!(rt; sink.write_faults(), 0);
    Ok(())
}

ghost use Rattle.std.specs.Prelude.{◌<◌};

use super::MemorySink;
use crate::counts::Numbers;
use crate::refused::Refused;
use crate::sink::Sink;
use flex_base::NoMemory;
use std::alloc::Global;
use std::test::Fail;

// A sink whose second call and last number fail.
fn sink(alloc: Global, most: usize) -> Result<MemorySink, NoMemory>
    requires { 0 < most }
{
    let mut fails = Numbers::new(alloc);
    fails.push(2)?;
    fails.push(u64::MAX)?;
    Ok(MemorySink::new(alloc, fails, most))
}

// What each write of these pieces takes.
fn taken(sink: &mut MemorySink, pieces: &[&[u8]; 4]) -> [Result<usize, Refused>; 4] {
    let [first, second, third, fourth] = pieces;
    [
        sink.write(first),
        sink.write(second),
        sink.write(third),
        sink.write(fourth),
    ]
}

#[test]
fn takes_in_parts(rt: HostRuntime) -> Result<(), Fail> {
    let pieces: [&[u8]; 4] = [b"abc", b"x", b"", b"de"];
    for (most, first, last, all) in [(1, 1, 1, "ad"), (16, 3, 2, "abcde")] {
        let mut sink = sink(rt.alloc(), most)?;
        let answers = taken(&mut sink, &pieces);
        assert_eq!(rt; answers, [Ok(first), Err(Refused::Failed), Ok(0), Ok(last)]);
        assert_eq!(rt; sink.taken().as_slice(), all.as_bytes(), "by {most}");
        assert_eq!(rt; sink.write_faults(), 1);
    }
    Ok(())
}

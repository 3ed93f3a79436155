// A sink that is held in memory.

ghost use Rattle.std.specs.Prelude.{◌≡◌, ◌<◌};
ghost use Rattle.flex_edge.specs.Calls.{Writes};
ghost use Rattle.flex_edge.specs.Memory.{sink_state, new_memory_sink};
ghost use Rattle.flex_edge.specs.MemoryCalls.{MemoryWrites};

use crate::counts::{Numbers, is_listed, next_count};
use crate::refused::Refused;
use crate::sink::Sink;
use flex_base::Bytes;
use std::alloc::Global;
use std::marker::Model;

/// A sink in memory, whose calls fail where they are told to. This project's own.
///
/// The calls of `write` of one object are numbered from 1 to 18,446,744,073,709,551,615, at which
/// the number stands still. A call whose number is listed answers `Failed`, raises the count of
/// write faults and takes nothing; no other call fails. A call that wants memory answers
/// `NoMemory`, takes nothing and uses no number.
#[derive(Drop)]
pub struct MemorySink {
    taken: Bytes,
    calls: u64,
    write_faults: u64,
    fails: Numbers,
    most: usize,
}

impl Model for MemorySink {
    ghost use Rattle.std.specs.Prelude.{◌<◌};
    ghost use Rattle.flex_edge.specs.Memory.{MemorySinkState};

    ghost Value = { MemorySinkState };

    ghost view = { λ m. record {
      taken = m.taken;
      calls = m.calls;
      write_faults = m.write_faults;
      fails = m.fails;
      most = m.most;
    } };

    ghost invariant = { λ m. 0 < m.most };
}

impl MemorySink {
    /// A sink in memory before the first call. `fails` lists the numbers of the calls that are to
    /// fail, and `most` is the greatest number of bytes that one `write` takes. It takes no
    /// memory.
    pub fn new(alloc: Global, fails: Numbers, most: usize) -> MemorySink
        requires { 0 < most }
        ensures { result ≡ new_memory_sink fails most }
    {
        MemorySink {
            taken: Bytes::new(alloc),
            calls: 0,
            write_faults: 0,
            fails,
            most,
        }
    }

    /// All bytes taken so far.
    pub fn taken(&self) -> &Bytes
        ensures { result.now ≡ self.now.taken }
    {
        &self.taken
    }

    /// The count of write faults.
    pub fn write_faults(&self) -> u64
        ensures { result ≡ self.now.write_faults }
    {
        self.write_faults
    }
}

impl Sink for MemorySink {
    ghost state = { sink_state };

    fn write(&mut self, piece: &[u8]) -> Result<usize, Refused>
        ensures told { Writes (sink_state self.old) piece.now result (sink_state self.new) }
        ensures exact { MemoryWrites self.old piece.now result self.new }
    {
        if is_listed(&self.fails, self.calls) {
            self.calls = next_count(self.calls);
            self.write_faults = next_count(self.write_faults);
            return Err(Refused::Failed);
        }
        let part = &piece[..self.most.min(piece.len())];
        self.taken.extend(part)?;
        self.calls = next_count(self.calls);
        Ok(part.len())
    }
}

#[cfg(test)]
mod tests;

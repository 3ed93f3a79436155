// What is still to be read of a file.

ghost use Rattle.std.specs.Prelude.{◌≡◌, ◌++◌, [], length, take, drop, min, IfOk};

use std::alloc::{AllocError, Global};
use std::marker::Model;

// Bytes that are given from the front, which contracts see as those still to be given.
#[derive(Drop)]
pub(crate) struct Rest {
    bytes: Vec<u8>,
    given: usize,
}

impl Model for Rest {
    ghost use Rattle.std.specs.Prelude.{List, ℕ, ◌≤◌, drop, vec_len};

    ghost Value = { List ℕ };

    ghost view = { λ rest. drop rest.given rest.bytes.items };

    ghost invariant = { λ rest. rest.given ≤ vec_len rest.bytes };
}

impl Rest {
    // No bytes. It takes no memory.
    pub(crate) fn new(alloc: Global) -> Rest
        ensures { result ≡ [] }
    {
        Rest {
            bytes: Vec::new(alloc),
            given: 0,
        }
    }

    // A copy of these bytes.
    pub(crate) fn copy_of(alloc: Global, bytes: &[u8]) -> Result<Rest, AllocError>
        ensures { IfOk result (λ rest. rest ≡ bytes.now) }
    {
        let bytes = Vec::from_slice(alloc, bytes)?;
        Ok(Rest { bytes, given: 0 })
    }

    // Gives the first bytes into `buf`, as many as there are and fit, and answers how many.
    pub(crate) fn give(&mut self, buf: &mut [u8]) -> usize
        ensures count { result ≡ min (length buf.old) (length self.old) }
        ensures given { buf.new ≡ take result self.old ++ drop result buf.old }
        ensures rest { self.new ≡ drop result self.old }
    {
        let left = &self.bytes[self.given..];
        let count = buf.len().min(left.len());
        buf[..count].copy_from_slice(&left[..count]);
        self.given += count;
        count
    }
}

// Files that are held in memory.

ghost use Rattle.std.specs.Prelude.{◌≡◌, ◌<◌, IfOk, option_copied};
ghost use Rattle.flex_edge.specs.Calls.{Begins, Reads, Creates, Appends};
ghost use Rattle.flex_edge.specs.Memory.{bytes_of, files_state, new_memory};
ghost use Rattle.flex_edge.specs.MemoryCalls.{IsRestToBegin, MemoryBegins, MemoryReads, MemoryCreates, MemoryAppends};

use crate::counts::{Numbers, faults_after, is_listed, next_count};
use crate::files::Files;
use crate::named::{FileList, append_to_created, empty_file, find_file};
use crate::refused::Refused;
use crate::rest::Rest;
use flex_base::{Bytes, NoMemory, Text};
use std::alloc::Global;
use std::marker::Model;

/// Files in memory, whose calls fail where they are told to. This project's own.
///
/// The calls of `begin`, `next`, `create` and `append` of one object are numbered together, from
/// 1 to 18,446,744,073,709,551,615, at which the number stands still. A call whose number is
/// listed answers `Failed`, raises its count of faults and changes nothing else, but that a
/// `begin` still sets the name last given. Beyond that only a `begin` of a name that isn't there
/// fails. A call that wants memory answers `NoMemory`, changes nothing and uses no number.
///
/// Of files with one name the first counts. Each call takes time linear in the bytes that it
/// moves, the number of files and the count of listed numbers.
#[derive(Drop)]
pub struct MemoryFiles {
    alloc: Global,
    files: Vec<(Text, Bytes)>,
    begun: Option<Text>,
    rest: Rest,
    created: Option<Text>,
    calls: u64,
    read_faults: u64,
    write_faults: u64,
    fails: Numbers,
    most: usize,
}

impl Model for MemoryFiles {
    ghost use Rattle.std.specs.Prelude.{◌<◌};
    ghost use Rattle.flex_edge.specs.Memory.{MemoryState};

    ghost Value = { MemoryState };

    ghost view = { λ m. record {
      files = m.files.items;
      begun = m.begun;
      rest = m.rest;
      created = m.created;
      calls = m.calls;
      read_faults = m.read_faults;
      write_faults = m.write_faults;
      fails = m.fails;
      most = m.most;
    } };

    ghost invariant = { λ m. 0 < m.most };
}

impl MemoryFiles {
    /// Files in memory before the first call. `fails` lists the numbers of the calls that are to
    /// fail, and `most` is the greatest number of bytes that one `append` takes. It takes no
    /// memory.
    pub fn new(alloc: Global, files: FileList, fails: Numbers, most: usize) -> MemoryFiles
        requires { 0 < most }
        ensures { result ≡ new_memory files fails most }
    {
        MemoryFiles {
            alloc,
            files: files.into_vec(),
            begun: None,
            rest: Rest::new(alloc),
            created: None,
            calls: 0,
            read_faults: 0,
            write_faults: 0,
            fails,
            most,
        }
    }

    /// The bytes of the first file with this name: `None` exactly where there is none.
    pub fn file(&self, name: &str) -> Option<&Bytes>
        ensures { option_copied result ≡ bytes_of self.now.files name.now }
    {
        find_file(&self.files, name)
    }

    /// The count of faults of `begin` and `next`.
    pub fn read_faults(&self) -> u64
        ensures { result ≡ self.now.read_faults }
    {
        self.read_faults
    }

    /// The count of faults of `create` and `append`.
    pub fn write_faults(&self) -> u64
        ensures { result ≡ self.now.write_faults }
    {
        self.write_faults
    }

    // A copy of the file that the next call begins: none where that call is listed to fail or no
    // file has the name.
    fn rest_of(&self, name: &str) -> Result<Option<Rest>, NoMemory>
        ensures { IfOk result (IsRestToBegin self.now name.now) }
    {
        if is_listed(&self.fails, self.calls) {
            return Ok(None);
        }
        match find_file(&self.files, name) {
            None => Ok(None),
            Some(bytes) => Ok(Some(Rest::copy_of(self.alloc, bytes.as_slice())?)),
        }
    }
}

impl Files for MemoryFiles {
    ghost state = { files_state };

    fn begin(&mut self, name: &str) -> Result<(), Refused>
        ensures told { Begins (files_state self.old) name.now result (files_state self.new) }
        ensures exact { MemoryBegins self.old name.now result self.new }
    {
        let begun = Text::make(self.alloc, name)?;
        let rest = self.rest_of(name)?;
        self.calls = next_count(self.calls);
        self.begun = Some(begun);
        match rest {
            Some(rest) => {
                self.rest = rest;
                Ok(())
            }
            None => {
                self.read_faults = next_count(self.read_faults);
                Err(Refused::Failed)
            }
        }
    }

    fn next(&mut self, buf: &mut [u8]) -> Result<usize, Refused>
        ensures told { Reads (files_state self.old) buf.new result (files_state self.new) }
        ensures exact { MemoryReads self.old buf.old buf.new result self.new }
    {
        let listed = is_listed(&self.fails, self.calls);
        self.calls = next_count(self.calls);
        if listed {
            self.read_faults = next_count(self.read_faults);
            return Err(Refused::Failed);
        }
        Ok(self.rest.give(buf))
    }

    fn create(&mut self, name: &str) -> Result<(), Refused>
        ensures told { Creates (files_state self.old) name.now result (files_state self.new) }
        ensures exact { MemoryCreates self.old name.now result self.new }
    {
        if is_listed(&self.fails, self.calls) {
            self.calls = next_count(self.calls);
            self.write_faults = next_count(self.write_faults);
            return Err(Refused::Failed);
        }
        let created = Text::make(self.alloc, name)?;
        empty_file(self.alloc, &mut self.files, &created)?;
        self.calls = next_count(self.calls);
        self.created = Some(created);
        Ok(())
    }

    fn append(&mut self, piece: &[u8]) -> Result<usize, Refused>
        ensures told { Appends (files_state self.old) piece.now result (files_state self.new) }
        ensures exact { MemoryAppends self.old piece.now result self.new }
    {
        if is_listed(&self.fails, self.calls) {
            self.calls = next_count(self.calls);
            self.write_faults = next_count(self.write_faults);
            return Err(Refused::Failed);
        }
        let taken = append_to_created(&mut self.files, &self.created, piece, self.most)?;
        self.calls = next_count(self.calls);
        self.write_faults = faults_after(taken, piece, self.write_faults);
        Ok(taken)
    }
}

#[cfg(test)]
mod tests;

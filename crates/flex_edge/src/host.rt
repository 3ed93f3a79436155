// The files and the standard output of the system.

ghost use Rattle.std.specs.Prelude.{◌≡◌, false};
ghost use Rattle.flex_edge.specs.Calls.{Begins, Reads, Creates, Appends, Writes};
ghost use Rattle.flex_edge.specs.Host.{host_state, host_sink_state, new_host, HostBegins, HostCreates, SameFilesOpen};

use crate::counts::{faults_after, next_count};
use crate::files::Files;
use crate::refused::Refused;
use crate::sink::Sink;
use std::io::{Read, Write};
use std::marker::Model;
use std::{fs, io, rt};

/// The files of the system, which tell nothing but their counts of faults. This project's own.
///
/// Every error of the system is `Failed`, with its count raised: want of memory too, since the
/// system's calls don't tell it from other errors. A `begin` that failed leaves the file begun
/// before, and a `create` that failed the file created before. With no file begun `next` answers
/// 0; with no file created `append` takes nothing.
#[derive(Drop)]
pub struct HostFiles<R: rt::Files> {
    rt: R,
    begun: Option<R::File>,
    created: Option<R::File>,
    read_faults: u64,
    write_faults: u64,
}

impl<R: rt::Files> Model for HostFiles<R> {
    ghost use Rattle.std.specs.Prelude.{is_some};
    ghost use Rattle.flex_edge.specs.Host.{HostState};

    ghost Value = { HostState };

    ghost view = { λ h. record {
      begun = is_some h.begun;
      created = is_some h.created;
      read_faults = h.read_faults;
      write_faults = h.write_faults;
    } };
}

impl<R: rt::Files> HostFiles<R> {
    /// The files of this runtime, with no fault counted. It takes no memory.
    pub fn new(rt: R) -> HostFiles<R>
        ensures { result ≡ new_host }
    {
        HostFiles {
            rt,
            begun: None,
            created: None,
            read_faults: 0,
            write_faults: 0,
        }
    }

    /// The count of faults of `begin` and `next`.
    pub fn read_faults(&self) -> u64
        ensures { result ≡ self.now.read_faults }
    {
        self.read_faults
    }

    /// The count of faults of `create` and `append`.
    pub fn write_faults(&self) -> u64
        ensures { result ≡ self.now.write_faults }
    {
        self.write_faults
    }
}

impl<R: rt::Files> Files for HostFiles<R> {
    ghost state = { host_state };

    fn begin(&mut self, name: &str) -> Result<(), Refused>
        ensures counts { Begins (host_state self.old) name.now result (host_state self.new) }
        ensures open { HostBegins self.old result self.new }
    {
        match fs::open(&self.rt, name) {
            Ok(file) => {
                self.begun = Some(file);
                Ok(())
            }
            Err(_) => {
                self.read_faults = next_count(self.read_faults);
                Err(Refused::Failed)
            }
        }
    }

    fn next(&mut self, buf: &mut [u8]) -> Result<usize, Refused>
        ensures counts { Reads (host_state self.old) buf.new result (host_state self.new) }
        ensures same { SameFilesOpen self.old self.new }
        ensures none_begun { self.old.begun ≡ false → result ≡ Ok 0 }
    {
        let Some(file) = &mut self.begun else {
            return Ok(0);
        };
        match file.read(buf) {
            Ok(count) => Ok(count),
            Err(_) => {
                self.read_faults = next_count(self.read_faults);
                Err(Refused::Failed)
            }
        }
    }

    fn create(&mut self, name: &str) -> Result<(), Refused>
        ensures counts { Creates (host_state self.old) name.now result (host_state self.new) }
        ensures open { HostCreates self.old result self.new }
    {
        match fs::create(&self.rt, name) {
            Ok(file) => {
                self.created = Some(file);
                Ok(())
            }
            Err(_) => {
                self.write_faults = next_count(self.write_faults);
                Err(Refused::Failed)
            }
        }
    }

    fn append(&mut self, piece: &[u8]) -> Result<usize, Refused>
        ensures counts { Appends (host_state self.old) piece.now result (host_state self.new) }
        ensures same { SameFilesOpen self.old self.new }
        ensures none_created { self.old.created ≡ false → result ≡ Ok 0 }
    {
        let taken = match &mut self.created {
            None => Ok(0),
            Some(file) => file.write(piece),
        };
        match taken {
            Ok(taken) => {
                self.write_faults = faults_after(taken, piece, self.write_faults);
                Ok(taken)
            }
            Err(_) => {
                self.write_faults = next_count(self.write_faults);
                Err(Refused::Failed)
            }
        }
    }
}

/// The standard output of the system, which tells nothing but its count of write faults. This
/// project's own. Every error of the system is `Failed`, want of memory too.
#[derive(Drop)]
pub struct HostSink<R: Print> {
    rt: R,
    write_faults: u64,
}

impl<R: Print> Model for HostSink<R> {
    ghost use Rattle.std.specs.Prelude.{ℕ};

    ghost Value = { ℕ };

    ghost view = { λ h. h.write_faults };
}

impl<R: Print> HostSink<R> {
    /// The standard output of this runtime, with no fault counted. It takes no memory.
    pub fn new(rt: R) -> HostSink<R>
        ensures { result ≡ 0 }
    {
        HostSink {
            rt,
            write_faults: 0,
        }
    }

    /// The count of write faults.
    pub fn write_faults(&self) -> u64
        ensures { result ≡ self.now }
    {
        self.write_faults
    }
}

impl<R: Print> Sink for HostSink<R> {
    ghost state = { host_sink_state };

    fn write(&mut self, piece: &[u8]) -> Result<usize, Refused>
        ensures { Writes (host_sink_state self.old) piece.now result (host_sink_state self.new) }
    {
        match io::writer(&self.rt).write(piece) {
            Ok(taken) => {
                self.write_faults = faults_after(taken, piece, self.write_faults);
                Ok(taken)
            }
            Err(_) => {
                self.write_faults = next_count(self.write_faults);
                Err(Refused::Failed)
            }
        }
    }
}

#[cfg(test)]
mod tests;

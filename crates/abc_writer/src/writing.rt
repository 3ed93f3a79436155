// The writing of an ABC, in the shortest spelling of each number but those of the pool of ints.

ghost use Rattle.std.specs.Prelude.{◌≡◌, ◌++◌, ℕ, List, IfOk, OnOk};
ghost use Rattle.byteorder.specs.Endian.{little_bytes};
ghost use Rattle.abc_format.specs.Grammar.{IsAbc};
ghost use Rattle.abc_writer.specs.Spelling.{abc_bytes};

mod indexes;
mod lists;
mod methods;
mod numbers;
mod pool;
mod traits;

use abc_format::{Abc, put_length};
use byteorder::{ByteOrder, LittleEndian};
use flex_base::{Bytes, NoMemory};
use lists::{put_all, put_counted};
use pool::put_pool;
use std::alloc::Global;

/// The bytes of an ABC. AVM2 Overview, chapter 4. They stand for it where any bytes do.
#[tactic(auto, using(crate::proofs::RecordSpellings::respelled))]
pub fn write_abc(alloc: Global, abc: &Abc) -> Result<Bytes, NoMemory>
    ensures value { IfOk result (λ bytes. bytes ≡ abc_bytes abc.now) }
    ensures related { IfOk result (λ bytes. (other : List ℕ) → IsAbc abc.now other → IsAbc abc.now bytes) }
{
    let mut bytes = Bytes::new(alloc);
    put_u16(&mut bytes, Abc::MINOR_VERSION)?;
    put_u16(&mut bytes, Abc::MAJOR_VERSION)?;
    put_pool(&mut bytes, &abc.constant_pool)?;
    put_counted(&mut bytes, abc.methods.as_slice())?;
    put_counted(&mut bytes, abc.metadata.as_slice())?;
    put_length(&mut bytes, abc.instances.len() as u64)?;
    put_all(&mut bytes, abc.instances.as_slice())?;
    put_all(&mut bytes, abc.classes.as_slice())?;
    put_counted(&mut bytes, abc.scripts.as_slice())?;
    put_counted(&mut bytes, abc.method_bodies.as_slice())?;
    Ok(bytes)
}

// The low byte first.
fn put_u16(bytes: &mut Bytes, n: u16) -> Result<(), NoMemory>
    ensures { OnOk result (bytes.new ≡ bytes.old ++ little_bytes 2 n) }
{
    let mut field = [0; 2];
    LittleEndian::write_u16(&mut field, n);
    bytes.extend(&field)
}

// Numbers.

ghost use Rattle.std.specs.Prelude.{◌≡◌, ◌++◌, OnOk};
ghost use Rattle.byteorder.specs.Endian.{little_bytes};
ghost use Rattle.abc_format.specs.Numbers.{int_bytes, u30_bytes};

use crate::writing::lists::Written;
use abc_format::put_number;
use byteorder::{ByteOrder, LittleEndian};
use flex_base::{Bytes, NoMemory};

// A u30, or a u32 of the pool.
impl Written for u32 {
    ghost spelling = { u30_bytes };

    fn put(&self, bytes: &mut Bytes) -> Result<(), NoMemory> {
        put_number(bytes, *self)
    }
}

// An int of the pool, in five bytes.
impl Written for i32 {
    ghost spelling = { int_bytes };

    fn put(&self, bytes: &mut Bytes) -> Result<(), NoMemory> {
        let bits = self.cast_unsigned();
        bytes.extend(&[
            128 + (bits % 128) as u8,
            128 + (bits / 128 % 128) as u8,
            128 + (bits / 16_384 % 128) as u8,
            128 + (bits / 2_097_152 % 128) as u8,
            (bits / 268_435_456) as u8,
        ])
    }
}

// A double, by its eight bytes.
impl Written for u64 {
    ghost spelling = { little_bytes 8 };

    fn put(&self, bytes: &mut Bytes) -> Result<(), NoMemory> {
        let mut field = [0; 8];
        LittleEndian::write_u64(&mut field, *self);
        bytes.extend(&field)
    }
}

// The bytes that aren't read yet, and what is read of them first.

ghost use Rattle.std.specs.Prelude.{◌≡◌, ◌↔◌, ◌≤◌, [], length, IfOk, IsTrue};
ghost use Rattle.abc_format.specs.Fields.{Answers, Lends, place_of, read_byte, read_index, read_piece, read_u16, read_u30, read_u32, read_version};
ghost use Rattle.abc_format.specs.Reading.{start};

use crate::numbers::read_u32;
use crate::reason::{AbcReason, AbcRefusal};
use crate::tables::IndexRule;
use byteorder::{ByteOrder, LittleEndian};
use std::marker::Model;

// Bytes that are read from the front, and how many there were.
#[derive(Drop)]
pub struct Unread<'a> {
    size: usize,
    bytes: &'a [u8],
    ghost within: { length bytes.now ≤ size },
}

impl<'a> Model for Unread<'a> {
    ghost use Rattle.abc_format.specs.Fields.{Cursor};

    ghost Value = { Cursor };

    ghost view = { λ u. record { size = u.size; rest = u.bytes.now } };
}

impl<'a> Unread<'a> {
    pub fn new(bytes: &'a [u8]) -> Unread<'a>
        ensures { result ≡ start bytes.now }
    {
        Unread {
            size: bytes.len(),
            bytes,
        }
    }

    pub fn is_empty(&self) -> bool
        ensures { IsTrue result ↔ (self.now.rest ≡ []) }
    {
        self.bytes.is_empty()
    }

    // The place of the next byte.
    pub fn place(&self) -> usize
        ensures { result ≡ place_of self.now }
    {
        self.size - self.bytes.len()
    }

    #[tactic(auto, unfolding(crate::specs::Fields::read_byte))]
    pub fn byte(&mut self) -> Result<u8, AbcRefusal>
        ensures { Answers (read_byte self.old) result self.new }
    {
        match self.bytes {
            [] => Err(AbcRefusal::BadAbc(self.place(), AbcReason::Cut)),
            [byte, rest @ ..] => {
                self.bytes = rest;
                Ok(*byte)
            }
        }
    }

    // So many bytes.
    #[tactic(auto, unfolding(crate::specs::Fields::read_piece))]
    pub fn piece(&mut self, size: usize) -> Result<&'a [u8], AbcRefusal>
        ensures size { IfOk result (λ piece. length piece.now ≡ size) }
        ensures value { Lends (read_piece size self.old) (λ piece. piece.now) result self.new }
    {
        match self.bytes.split_at_checked(size) {
            None => Err(AbcRefusal::BadAbc(self.place(), AbcReason::Cut)),
            Some((piece, rest)) => {
                self.bytes = rest;
                Ok(piece)
            }
        }
    }

    // The low byte first.
    #[tactic(auto, unfolding(crate::specs::Fields::read_u16))]
    pub fn u16(&mut self) -> Result<u16, AbcRefusal>
        ensures { Answers (read_u16 self.old) result self.new }
    {
        Ok(LittleEndian::read_u16(self.piece(2)?))
    }

    // A version, which is to be this one.
    #[tactic(auto, unfolding(crate::specs::Fields::read_version))]
    pub fn version(&mut self, wanted: u16) -> Result<u16, AbcRefusal>
        ensures { Answers (read_version wanted self.old) result self.new }
    {
        let place = self.place();
        let version = self.u16()?;
        if version == wanted {
            Ok(version)
        } else {
            Err(AbcRefusal::BadAbc(place, AbcReason::Version))
        }
    }

    // A number of 32 bits.
    #[tactic(auto, unfolding(crate::specs::Fields::read_u32))]
    pub fn unsigned(&mut self) -> Result<u32, AbcRefusal>
        ensures { Answers (read_u32 self.old) result self.new }
    {
        match read_u32(self.bytes) {
            None => Err(AbcRefusal::BadAbc(self.place(), AbcReason::Cut)),
            Some((value, size)) => {
                self.bytes = &self.bytes[size..];
                Ok(value)
            }
        }
    }

    // A `u30`.
    #[tactic(auto, unfolding(crate::specs::Fields::read_u30))]
    pub fn number(&mut self) -> Result<u32, AbcRefusal>
        ensures { Answers (read_u30 self.old) result self.new }
    {
        let place = self.place();
        let value = self.unsigned()?;
        if value < 0x4000_0000 {
            Ok(value)
        } else {
            Err(AbcRefusal::BadAbc(place, AbcReason::Number))
        }
    }

    // A number that names an entry.
    #[tactic(auto, unfolding(crate::specs::Fields::read_index))]
    pub fn index(&mut self, rule: IndexRule) -> Result<u32, AbcRefusal>
        ensures { Answers (read_index rule self.old) result self.new }
    {
        let place = self.place();
        let number = self.number()?;
        if rule.allows(number) {
            Ok(number)
        } else {
            Err(AbcRefusal::BadAbc(place, AbcReason::Index))
        }
    }
}

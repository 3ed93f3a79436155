// A stack of bytes that contracts see as their list, the top first, and that counts its marks.

ghost use Rattle.std.specs.Prelude.{◌≡◌, [], ◌∷◌, ◌++◌, reverse, IfOk, OnOk, MatchOption};
ghost use Rattle.as3_parser.specs.Marks.{marks};

use std::alloc::{AllocError, Global};
use std::marker::Model;

/// The byte that is a mark.
pub const MARK: u8 = 255;

/// A stack of bytes that contracts see as their list, the top first.
#[derive(Drop)]
pub struct Stack {
    bytes: Vec<u8>,
    count: usize,
}

impl Model for Stack {
    ghost use Rattle.std.specs.Prelude.{◌≡◌, ℕ, List, reverse};
    ghost use Rattle.std.specs.Coded.{coded_list, coded_ℕ};
    ghost use Rattle.as3_parser.specs.Marks.{marks};

    ghost Value = { List ℕ };

    ghost view = { λ s. reverse s.bytes.items };

    ghost invariant = { λ s. s.count ≡ marks (reverse s.bytes.items) };
}

impl Stack {
    pub fn new(alloc: Global) -> Stack
        ensures { result ≡ [] }
    {
        Stack {
            bytes: Vec::new(alloc),
            count: 0,
        }
    }

    pub fn pop(&mut self) -> Option<u8>
        ensures { MatchOption result ((self.old ≡ []) × (self.new ≡ [])) (λ top. self.old ≡ top ∷ self.new) }
    {
        let top = self.bytes.pop();
        if let Some(b) = top {
            if b == MARK {
                self.count -= 1;
            }
        }
        top
    }

    pub fn push(&mut self, b: u8) -> Result<(), AllocError>
        ensures { OnOk result (self.new ≡ b ∷ self.old) }
    {
        self.bytes.push(b)?;
        if b == MARK {
            self.count += 1;
        }
        Ok(())
    }

    /// How many marks there are.
    pub fn level(&self) -> usize
        ensures { result ≡ marks self.now }
    {
        self.count
    }
}

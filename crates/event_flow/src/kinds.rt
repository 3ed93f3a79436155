// The types of events for which a node has had listeners, by their numbers.

ghost use Rattle.std.specs.Prelude.{◌≡◌, ◌↔◌, [], IfOk, OnErr, OnOk, Some, slice_get, ℕ};
ghost use Rattle.std.proofs.Props.{props};
ghost use Rattle.std.specs.List.{IsDistinct};
ghost use Rattle.std.specs.String.{string_eq};
ghost use Rattle.event_flow.specs.Registered.{with_kind};

use flex_base::{NoMemory, Text};
use indexmap::IndexSet;
use std::alloc::Global;
use std::marker::Model;

// Each type stands there once, and keeps its number.
#[derive(Drop)]
pub struct Kinds {
    alloc: Global,
    names: IndexSet<String>,
    ghost distinct: { IsDistinct string_eq names.keys } by { Prim.hlevel props },
}

impl Model for Kinds {
    ghost use Rattle.std.specs.Prelude.{List, map, ℕ};
    ghost use Rattle.std.specs.String.{string_bytes};

    ghost Value = { List (List ℕ) };

    ghost view = { λ k. map string_bytes k.names.keys };
}

impl Kinds {
    // No type. It takes no memory.
    pub fn new(alloc: Global) -> Kinds
        ensures { result ≡ [] }
    {
        Kinds {
            alloc,
            names: IndexSet::new(alloc),
        }
    }

    // The number of a type, from 0, if it stands there.
    pub fn number_of(&self, kind: &Text) -> Option<usize>
        ensures { (n : ℕ) → (result ≡ Some n) ↔ (slice_get self.now n ≡ Some kind.now) }
    {
        self.names.get_index_of(kind.as_str())
    }

    // The number of a type, which is added behind the others where it doesn't stand there.
    pub fn number(&mut self, kind: &Text) -> Result<usize, NoMemory>
        ensures number { IfOk result (λ n. (m : ℕ) → (n ≡ m) ↔ (slice_get self.new m ≡ Some kind.now)) }
        ensures after { OnOk result (self.new ≡ with_kind kind.now self.old) }
        ensures err { OnErr result (self.new ≡ self.old) }
    {
        if let Some(number) = self.number_of(kind) {
            return Ok(number);
        }
        let name = String::from_str(self.alloc, kind.as_str())?;
        let (number, _) = self.names.insert_full(name)?;
        Ok(number)
    }
}

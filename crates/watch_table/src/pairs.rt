// Documents with the numbers of their bindings.

ghost use Rattle.std.specs.Prelude.{◌≡◌, ◌<◌, ◌↔◌, [], length, not, IsTrue, OnOk, OnSome, slice_get, option_copied};
ghost use Rattle.std.specs.List.{position_or_len};
ghost use Rattle.watch_table.specs.Affected.{is_before, is_not_behind, with_pair};

use flex_base::{NoMemory, ObjId};
use std::alloc::Global;
use std::marker::Model;

/// Bindings, each a document and the number of one of its bindings, ordered by both, each once.
/// Only `Watch::affected` makes them.
#[derive(Drop)]
pub struct Pairs {
    list: Vec<(ObjId, u32)>,
}

impl Model for Pairs {
    ghost use Rattle.std.specs.Prelude.{List, ℕ};
    ghost use Rattle.flex_base.specs.declared.value.ObjId.{ObjId as Object};

    ghost Value = { List (Object × ℕ) };

    ghost view = { λ p. p.list.items };
}

impl Pairs {
    // No pair. It takes no memory.
    pub(crate) fn new(alloc: Global) -> Pairs
        ensures { result ≡ [] }
    {
        Pairs {
            list: Vec::new(alloc),
        }
    }

    /// The number of pairs.
    pub fn len(&self) -> usize
        ensures { result ≡ length self.now }
    {
        self.list.len()
    }

    /// Whether there is no pair.
    pub fn is_empty(&self) -> bool
        ensures { IsTrue result ↔ (self.now ≡ []) }
    {
        self.list.is_empty()
    }

    /// The pair at the index `n`, from 0: `None` exactly where `n` isn't below the length.
    pub fn get(&self, n: usize) -> Option<&(ObjId, u32)>
        ensures value { option_copied result ≡ slice_get self.now n }
        ensures within { OnSome result (n < length self.now) }
    {
        self.list.get(n)
    }

    // Adds a pair at its place, unless it is there.
    pub(crate) fn add(&mut self, pair: (ObjId, u32)) -> Result<(), NoMemory>
        ensures { OnOk result (self.new ≡ with_pair self.old pair) }
    {
        let place = first_from(self.list.as_slice(), pair);
        if is_at(self.list.as_slice(), place, pair) {
            return Ok(());
        }
        self.list.insert(place, pair)?;
        Ok(())
    }
}

// The place of the first pair that isn't before this one, or behind them all.
fn first_from(pairs: &[(ObjId, u32)], pair: (ObjId, u32)) -> usize
    ensures { result ≡ position_or_len (λ p. not (is_before p pair)) pairs.now }
{
    pairs
        .iter()
        .position(|p| !is_before(*p, pair))
        .unwrap_or(pairs.len())
}

// Whether a pair stands at the place that isn't behind this one.
fn is_at(pairs: &[(ObjId, u32)], place: usize, pair: (ObjId, u32)) -> bool
    ensures { result ≡ is_not_behind pair (slice_get pairs.now place) }
{
    match pairs.get(place) {
        Some(other) => !is_before(pair, *other),
        None => false,
    }
}

// Whether a pair is before another: by the document's number, and then by the binding's.
fn is_before(a: (ObjId, u32), b: (ObjId, u32)) -> bool
    ensures { result ≡ is_before a b }
{
    a.0.0 < b.0.0 || (a.0.0 == b.0.0 && a.1 < b.1)
}

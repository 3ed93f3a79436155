// The registrations at a node, with the numbers of their types.

ghost use Rattle.std.specs.Prelude.{◌≡◌, ◌++◌, ◌∷◌, [], IfOk, OnErr, OnOk, false};
ghost use Rattle.event_flow.specs.Hearers.{hearers_after, is_for};
ghost use Rattle.event_flow.specs.Registered.{has_kind, is_among, key_of, without};

use crate::hearers::Hearers;
use flex_base::{NoMemory, ObjId};
use lru::LruCache;
use std::alloc::Global;
use std::marker::Model;

// What tells a registration apart.
#[derive(Clone, Copy, PartialEq, Eq, Hash)]
pub struct Key {
    // The number of its type.
    kind: usize,
    object: u32,
    method: u32,
    capture: bool,
}

impl Key {
    // That of a listener for events of the type of a number.
    pub fn of(kind: usize, listener: (ObjId, u32), capture: bool) -> Key
        ensures { result ≡ key_of kind listener capture }
    {
        let (object, method) = listener;
        Key {
            kind,
            object: object.0,
            method,
            capture,
        }
    }

    // Whether its listener hears an event of the type of a number in a phase.
    fn is_for(self, kind: usize, phase: u8) -> bool
        ensures { result ≡ is_for kind phase self }
    {
        kind == self.kind
            && match phase {
                1 => self.capture,
                2 | 3 => !self.capture,
                _ => false,
            }
    }
}

// In order of registration, each with its priority. One is found and taken out in constant time:
// the map links its pairs in the order in which they came, as none is put twice or looked up by
// `get`.
#[derive(Drop)]
pub struct Registrations {
    alloc: Global,
    pairs: Option<LruCache<Key, i32>>,
}

impl Model for Registrations {
    ghost use Rattle.std.specs.Prelude.{List, ℤ};
    ghost use Rattle.event_flow.specs.Registered.{pairs_in};
    ghost use Rattle.event_flow.specs.declared.registrations.Key.{Key as Identity};

    ghost Value = { List (Identity × ℤ) };

    ghost view = { λ r. pairs_in r.pairs };
}

impl Registrations {
    // No registration. It takes no memory.
    pub fn new(alloc: Global) -> Registrations
        ensures { result ≡ [] }
    {
        Registrations { alloc, pairs: None }
    }

    // Whether one of this key is there.
    pub fn contains(&self, key: Key) -> bool
        ensures { result ≡ is_among key self.now }
    {
        match &self.pairs {
            Some(pairs) => pairs.contains(&key),
            None => false,
        }
    }

    // Adds a registration, of which none with its key is there, behind the others.
    pub fn push(&mut self, key: Key, priority: i32) -> Result<(), NoMemory>
        requires { is_among key self.old ≡ false }
        ensures after { OnOk result (self.new ≡ self.old ++ (key, priority) ∷ []) }
        ensures err { OnErr result (self.new ≡ self.old) }
    {
        if self.pairs.is_none() {
            self.pairs = Some(LruCache::unbounded(self.alloc)?);
        }
        match &mut self.pairs {
            Some(pairs) => push_pair(pairs, key, priority),
            None => Err(NoMemory),
        }
    }

    // Takes the registration of this key out, and tells whether it was there.
    pub fn remove(&mut self, key: Key) -> bool
        ensures answer { result ≡ is_among key self.old }
        ensures after { self.new ≡ without key self.old }
    {
        match &mut self.pairs {
            Some(pairs) => take_pair(pairs, key),
            None => false,
        }
    }

    // Whether one is there for events of the type of a number.
    pub fn has_kind(&self, kind: usize) -> bool
        ensures { result ≡ has_kind kind self.now }
    {
        match &self.pairs {
            Some(pairs) => pairs.iter().any(|(key, _)| kind == key.kind),
            None => false,
        }
    }

    // The listeners that hear an event of the type of a number in a phase.
    pub fn hearers(&self, alloc: Global, kind: usize, phase: u8) -> Result<Hearers, NoMemory>
        ensures { IfOk result (λ hearers. hearers ≡ hearers_after kind phase [] self.now) }
    {
        match &self.pairs {
            Some(pairs) => hearers_in(alloc, pairs, kind, phase),
            None => Ok(Hearers::new(alloc)),
        }
    }
}

// The listeners that hear an event of the type of a number in a phase.
fn hearers_in(
    alloc: Global,
    pairs: &LruCache<Key, i32>,
    kind: usize,
    phase: u8,
) -> Result<Hearers, NoMemory>
    ensures { IfOk result (λ hearers. hearers ≡ hearers_after kind phase [] pairs.now.entries) }
{
    let mut hearers = Hearers::new(alloc);
    for (key, priority) in pairs.iter() {
        if key.is_for(kind, phase) {
            hearers.add((ObjId(key.object), key.method), *priority)?;
        }
    }
    Ok(hearers)
}

// Puts a pair, of which none with its key is there, behind the others.
fn push_pair(pairs: &mut LruCache<Key, i32>, key: Key, priority: i32) -> Result<(), NoMemory>
    requires { is_among key pairs.old.entries ≡ false }
    ensures after { OnOk result (pairs.new.entries ≡ pairs.old.entries ++ (key, priority) ∷ []) }
    ensures err { OnErr result (pairs.new ≡ pairs.old) }
{
    if pairs.len() == pairs.cap().get() {
        return Err(NoMemory);
    }
    pairs.put(key, priority)?;
    pairs.demote(&key);
    Ok(())
}

// Takes the pair of a key out, and tells whether it was there.
fn take_pair(pairs: &mut LruCache<Key, i32>, key: Key) -> bool
    ensures answer { result ≡ is_among key pairs.old.entries }
    ensures after { pairs.new.entries ≡ without key pairs.old.entries }
{
    let count = pairs.len();
    pairs.pop(&key);
    pairs.len() < count
}

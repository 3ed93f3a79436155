// The children of a container.

ghost use Rattle.std.specs.List.{position};
ghost use Rattle.std.specs.Prelude.{◌≡◌, ◌≤◌, [], IfSome, List, OnOk, insert, length, slice_get, true, ℕ};
ghost use Rattle.flex_base.specs.Value.{is_object};
ghost use Rattle.flex_base.specs.declared.value.ObjId.{ObjId};
ghost use Rattle.flex_objects.specs.Once.{is_held, stand_once};
ghost use Rattle.flex_world.specs.Children.{child_at, without_child};
ghost use Rattle.flex_world.specs.Objects.{count};

use flex_base::{NoMemory, ObjId, Value};
use std::alloc::Global;
use std::collections::{HashSet, VecDeque};
use std::marker::Model;

/// The children of a container, in order. There is room for 2,147,483,647, as `numElements` is an
/// `int`. While each stands there once, one is found from both ends, so that it takes no more steps
/// than there are children before it or behind it.
#[derive(Drop)]
pub struct Children {
    list: VecDeque<ObjId>,
    // The children, while each stands there once; nothing, once one was put there twice.
    once: Option<HashSet<u32>>,
    // The value of the property `numElements`.
    number: Value,
    ghost counted: { count (length list.items) ≡ number },
    ghost apart: { stand_once once list.items ≡ true },
}

impl Model for Children {
    ghost use Rattle.std.specs.Prelude.{List};
    ghost use Rattle.flex_base.specs.declared.value.ObjId.{ObjId as Object};

    ghost Value = { List Object };

    ghost view = { λ c. c.list.items };
}

impl Children {
    /// No child. It takes no memory.
    pub fn new(alloc: Global) -> Children
        ensures { result ≡ [] }
    {
        Children {
            list: VecDeque::new(alloc),
            once: Some(HashSet::new(alloc)),
            number: Value::Int(0),
        }
    }

    /// The value of the property `numElements`.
    pub fn count(&self) -> &Value
        ensures { result.now ≡ count (length self.now) }
    {
        &self.number
    }

    /// The number of children.
    pub fn len(&self) -> usize
        ensures { result ≡ length self.now }
    {
        self.list.len()
    }

    /// The child at a place, from 0; `None` exactly where no child stands there.
    pub fn get(&self, place: i32) -> Option<ObjId>
        ensures { result ≡ child_at self.now place }
    {
        self.at(usize::try_from(place).ok()?)
    }

    /// The same, of a place that is no `int`.
    pub fn at(&self, place: usize) -> Option<ObjId>
        ensures { result ≡ slice_get self.now place }
    {
        self.list.get(place).copied()
    }

    /// Puts a child at a place, before those that stand there and behind it.
    pub fn insert(&mut self, place: usize, child: ObjId) -> Result<(), NoMemory>
        requires { place ≤ length self.old }
        ensures { OnOk result (self.new ≡ insert self.old place child) }
    {
        let count = i32::try_from(self.list.len() + 1).map_err(|_| NoMemory)?;
        note(&mut self.once, child)?;
        self.list.insert(place, child)?;
        self.number = Value::Int(count);
        Ok(())
    }

    /// Takes a child away; where it isn't there, nothing changes.
    pub fn remove(&mut self, child: ObjId)
        ensures { self.new ≡ without_child child self.old }
    {
        let Some(place) = self.place_of(child) else {
            return;
        };
        if let Value::Int(number) = self.number {
            forget(&mut self.once, child);
            self.list.remove(place);
            self.number = Value::Int(number - 1);
        }
    }

    // The place of a child, the first one if there are several.
    fn place_of(&self, child: ObjId) -> Option<usize>
        ensures { result ≡ position (λ o. is_object o child) self.now }
    {
        if self.once.is_some() {
            if let Some(place) = nearest(&self.list, child) {
                return Some(place);
            }
        }
        self.list.iter().position(|c| c.0 == child.0)
    }
}

// Notes a child that is put among others.
fn note(once: &mut Option<HashSet<u32>>, child: ObjId) -> Result<(), NoMemory>
    ensures kept { (os : List ObjId) → stand_once once.old os ≡ true → stand_once once.new os ≡ true }
    ensures put { OnOk result ((os : List ObjId) (place : ℕ) →
        stand_once once.old os ≡ true → stand_once once.new (insert os place child) ≡ true) }
{
    let is_new = match once {
        Some(children) => children.insert(child.0)?,
        None => true,
    };
    if !is_new {
        *once = None;
    }
    Ok(())
}

// Forgets a child that is taken from among others.
fn forget(once: &mut Option<HashSet<u32>>, child: ObjId)
    ensures { (os : List ObjId) →
        stand_once once.old os ≡ true → stand_once once.new (without_child child os) ≡ true }
{
    if let Some(children) = once {
        children.remove(&child.0);
    }
}

// Whether a child stands at a place.
fn is_at(list: &VecDeque<ObjId>, place: usize, child: ObjId) -> bool
    ensures { result ≡ is_held child (slice_get list.now.items place) }
{
    match list.get(place) {
        Some(other) => other.0 == child.0,
        None => false,
    }
}

// A place of a child, looked for from both ends.
fn nearest(list: &VecDeque<ObjId>, child: ObjId) -> Option<usize>
    ensures { IfSome result (λ place. is_held child (slice_get list.now.items place) ≡ true) }
{
    let mut front = 0;
    let mut back = list.len();
    while front < back {
        if is_at(list, front, child) {
            return Some(front);
        }
        back -= 1;
        if is_at(list, back, child) {
            return Some(back);
        }
        front += 1;
    }
    None
}

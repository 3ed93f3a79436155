// The elements of an array.

ghost use Rattle.std.specs.Option.{option_copied};
ghost use Rattle.std.specs.Prelude.{◌≡◌, ◌<◌, ◌≤◌, ◌-◌, [], ◌++◌, ◌∷◌, IsTrue, OnOk, length, nat_lt, pos, take};
ghost use Rattle.flex_base.specs.Lists.{changed_at};
ghost use Rattle.flex_world.specs.Arrays.{last_or_undefined, most_elements};
ghost use Rattle.flex_objects.specs.Entities.{element_at};

use flex_base::{NoMemory, Value};
use std::alloc::Global;
use std::marker::Model;

/// The elements of an array, of which there are at most 65,536.
#[derive(Drop)]
pub struct Elements {
    list: Vec<Value>,
    ghost few: { length list.items ≤ most_elements },
}

impl Model for Elements {
    ghost use Rattle.std.specs.Prelude.{List};
    ghost use Rattle.flex_base.specs.declared.value.Value.{Value as Held};

    ghost Value = { List Held };

    ghost view = { λ e. e.list.items };
}

/// The greatest number of elements of an array.
pub const MOST_ELEMENTS: usize = 65_536;

impl Elements {
    /// No element. It takes no memory.
    pub fn new(alloc: Global) -> Elements
        ensures { result ≡ [] }
    {
        Elements {
            list: Vec::new(alloc),
        }
    }

    /// The number of elements.
    pub fn len(&self) -> i32
        ensures { result ≡ pos (length self.now) }
    {
        self.list.len() as i32
    }

    /// Whether there is room for one more element.
    pub fn has_room(&self) -> bool
        ensures { result ≡ nat_lt (length self.now) most_elements }
    {
        self.list.len() < MOST_ELEMENTS
    }

    /// Adds an element at the end.
    pub fn push(&mut self, value: Value) -> Result<(), NoMemory>
        requires { IsTrue (nat_lt (length self.old) most_elements) }
        ensures { OnOk result (self.new ≡ self.old ++ value ∷ []) }
    {
        self.list.push(value)?;
        Ok(())
    }

    /// Takes the last element away; without elements it gives Undefined.
    pub fn pop(&mut self) -> Value
        ensures value { result ≡ last_or_undefined self.old }
        ensures after { self.new ≡ take (length self.old - 1) self.old }
    {
        self.list.pop().unwrap_or(Value::Undefined)
    }

    /// The element at an index; `None` exactly where it is out of range.
    pub fn get(&self, index: i32) -> Option<&Value>
        ensures { option_copied result ≡ element_at self.now index }
    {
        let index = usize::try_from(index).ok()?;
        self.list.get(index)
    }

    /// Puts a value in the place of the element at an index.
    pub fn set(&mut self, index: usize, value: Value)
        requires { index < length self.old }
        ensures { self.new ≡ changed_at (λ _. value) self.old index }
    {
        self.list[index] = value;
    }
}

// The elements of arrays.

ghost use Rattle.std.specs.Option.{option_copied};
ghost use Rattle.std.specs.Prelude.{◌≡◌, None, option_map, pos};
ghost use Rattle.flex_base.specs.declared.value.Value.TheVariants as value;
ghost use Rattle.ui_runtime.specs.Answers.{Becomes, Comes, Does, Steps, asked};
ghost use Rattle.ui_runtime.specs.Arrays.{appends, array_length, element, popped, pushes, without_popped, writes_at, writes_element};

use crate::stage::Stage;
use crate::state::State;
use flex_base::{NoMemory, ObjId, RunRefusal, Stop, Value};
use flex_objects::Entity;

impl State {
    /// Adds an element at the end of an array, for a cell: `ArrayLength` where it has no room, then
    /// `Cells`.
    pub fn append(&mut self, array: ObjId, value: Value) -> Result<(), RunRefusal>
        ensures { Comes self.old (appends array value self.old) result self.new }
    {
        if !self.objects.has_room(array) {
            return Err(RunRefusal::Stop(Stop::ArrayLength));
        }
        self.pay(1, 0)?;
        self.objects.append(array, value)?;
        Ok(())
    }

    /// The same; it gives the new length.
    pub fn push(&mut self, array: ObjId, value: Value) -> Result<i32, RunRefusal>
        ensures { Steps self.old (pushes array value self.old) result self.new }
    {
        self.append(array, value)?;
        Ok(self.objects.array_length(array))
    }

    /// Writes the element of an array at an index; at the length it appends.
    pub fn set_at(&mut self, array: ObjId, index: usize, value: Value) -> Result<(), RunRefusal>
        ensures { Comes self.old (writes_at array index value self.old) result self.new }
    {
        let length = self.objects.array_length(array) as usize;
        if index < length {
            self.objects.set_element(array, index, value);
            return Ok(());
        }
        if index == length {
            return self.append(array, value);
        }
        Err(RunRefusal::Stop(Stop::ArrayIndex))
    }

    /// The same, with an index that may be below 0.
    pub fn set_element(&mut self, array: ObjId, index: i32, value: Value) -> Result<(), RunRefusal>
        ensures { Comes self.old (writes_element array index value self.old) result self.new }
    {
        match usize::try_from(index) {
            Ok(index) => self.set_at(array, index, value),
            Err(_) => Err(RunRefusal::Stop(Stop::ArrayIndex)),
        }
    }
}

impl Stage {
    /// The number of elements of an array.
    pub fn array_length(&self, array: ObjId) -> i32
        ensures { result ≡ asked (pos 0) (array_length array) self.now }
    {
        match self.entity(array) {
            Some(entity) => entity.elements.len(),
            None => 0,
        }
    }

    /// The element of an array at an index; `None` exactly where it is out of range.
    pub fn element(&self, array: ObjId, index: i32) -> Option<&Value>
        ensures { option_copied result ≡ asked None (element array index) self.now }
    {
        self.entity(array)?.elements.get(index)
    }

    /// Adds an element at the end of an array, and gives the new length. It costs a cell:
    /// `ArrayLength` where there would be more than 65,536 elements, then `Cells`.
    pub fn push(&mut self, array: ObjId, value: Value) -> Result<i32, RunRefusal>
        ensures { Does self.old (pushes array value) result self.new }
    {
        let mut state = self.state.take().ok_or(NoMemory)?;
        let pushed = state.push(array, value);
        self.keep(state, pushed)
    }

    /// Takes the last element of an array away; of an array without elements it gives Undefined,
    /// and changes nothing. No cell is given back.
    pub fn pop(&mut self, array: ObjId) -> Value
        ensures value { result ≡ asked value.Undefined (popped array) self.old }
        ensures after { self.new ≡ option_map (without_popped array) self.old }
    {
        match &mut self.state {
            Some(state) => state.objects.pop(array),
            None => Value::Undefined,
        }
    }

    /// Writes the element of an array at an index; at the length it is added, for a cell.
    /// `ArrayIndex` where the index is below 0 or past the length, then `ArrayLength` where there
    /// would be more than 65,536 elements, then `Cells`.
    pub fn set_element(&mut self, array: ObjId, index: i32, value: Value) -> Result<(), RunRefusal>
        ensures { Becomes self.old (writes_element array index value) result self.new }
    {
        let mut state = self.state.take().ok_or(NoMemory)?;
        let written = state.set_element(array, index, value);
        self.keep(state, written)
    }
}

// Objects and arrays are made.

ghost use Rattle.std.specs.Prelude.{◌≡◌};
ghost use Rattle.ui_runtime.specs.Answers.{Does, Steps};
ghost use Rattle.ui_runtime.specs.Making.{makes, makes_array};

use crate::stage::Stage;
use crate::state::State;
use flex_base::{NoMemory, ObjId, RunRefusal};
use flex_objects::{ClassInfo, Entity};
use std::alloc::Global;

impl Stage {
    /// Makes an object of a class, each property with its first value. It costs 16 cells and one
    /// for each slot that isn't hidden; `Cells` where there would be more than 1,000,000.
    pub fn make(&mut self, class: &ClassInfo) -> Result<ObjId, RunRefusal>
        ensures { Does self.old (makes class.now) result self.new }
    {
        let mut state = self.state.take().ok_or(NoMemory)?;
        let made = state.make(self.alloc, class);
        self.keep(state, made)
    }

    /// Makes an array without elements. It costs a cell; `Cells` where there would be more than
    /// 1,000,000.
    pub fn make_array(&mut self) -> Result<ObjId, RunRefusal>
        ensures { Does self.old makes_array result self.new }
    {
        let mut state = self.state.take().ok_or(NoMemory)?;
        let made = state.make_array(self.alloc);
        self.keep(state, made)
    }
}

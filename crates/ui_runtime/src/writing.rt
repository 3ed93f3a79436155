// Properties are written.

ghost use Rattle.std.specs.Prelude.{◌≡◌, IfOk, Ok};
ghost use Rattle.ui_runtime.specs.Answers.{Does};
ghost use Rattle.ui_runtime.specs.Properties.{writes};
ghost use Rattle.ui_runtime.specs.Stage.{held};
ghost use Rattle.watch_table.specs.Affected.{affected};

use crate::stage::Stage;
use crate::state::State;
use flex_base::{NoMemory, ObjId, RunRefusal, Text, Value};
use flex_objects::Stored;
use std::alloc::Global;
use watch_table::{Pairs, Steps};

/// What the write of a property comes to.
#[derive(Drop)]
pub enum Written {
    /// The value equals the old one by `===`, and nothing changes.
    Equal,
    /// The value is stored, and bindings don't watch the property.
    Silent,
    /// The value is stored, and these bindings are to start, one after another.
    Changed(Pairs),
}

impl State {
    /// Writes the property of a key of an object; where bindings watch it, those are given that the
    /// change affects.
    pub fn write(
        &mut self,
        alloc: Global,
        object: ObjId,
        key: &Text,
        value: Value,
    ) -> Result<Written, NoMemory>
        ensures { IfOk result (λ written. (written, self.new) ≡ writes object key.now value self.old) }
    {
        match self.objects.write(object, key.as_str(), value) {
            Some(Stored::Watched) => Ok(Written::Changed(self.affected(alloc, object, key)?)),
            Some(Stored::Silent) => Ok(Written::Silent),
            _ => Ok(Written::Equal),
        }
    }

    // The bindings that a change of the property of a key of an object affects.
    fn affected(&self, alloc: Global, object: ObjId, key: &Text) -> Result<Pairs, NoMemory>
        ensures { IfOk result (λ pairs. pairs ≡ affected (held self.now) object key.now self.now.watched) }
    {
        self.watch
            .affected(alloc, object, key, &self.objects, &mut Steps::new(()))
    }
}

impl Stage {
    /// Writes the property of a key of an object. A value that equals the old one by `===` changes
    /// nothing; any other is stored, and where bindings watch the property, those are given that the
    /// change affects, ordered by the numbers of their documents and by their own. Where the object
    /// keeps no such property, nothing changes. It doesn't stop.
    pub fn write(&mut self, object: ObjId, key: &Text, value: Value) -> Result<Written, RunRefusal>
        ensures { Does self.old (λ s. Ok (writes object key.now value s)) result self.new }
    {
        let mut state = self.state.take().ok_or(NoMemory)?;
        let written = state.write(self.alloc, object, key, value)?;
        self.keep(state, Ok(written))
    }
}

// What is asked of documents and their states.

ghost use Rattle.std.specs.Option.{option_copied};
ghost use Rattle.std.specs.Prelude.{◌≡◌, None, false, is_some};
ghost use Rattle.stage_objects.specs.Documents.{first_state_in, has_state_in, is_current_in, is_text, keeping_in, state_in, state_named, waits};

use crate::objects::Objects;
use flex_base::{ObjId, Text, Value};
use flex_objects::{Entity, RegisteredState};

impl Objects {
    /// The state of a document with this name; `None` exactly where it registered none.
    pub fn state(&self, document: ObjId, name: &Text) -> Option<&RegisteredState>
        ensures { option_copied result ≡ state_in document name.now self.now }
    {
        state_named(self.get(document)?.states.as_slice(), name)
    }

    /// Whether a document has a state of this name.
    pub fn has_state(&self, document: ObjId, name: &Text) -> bool
        ensures { result ≡ has_state_in document name.now self.now }
    {
        match self.get(document) {
            Some(entity) => state_named(entity.states.as_slice(), name).is_some(),
            None => false,
        }
    }

    /// Whether a document is in the state of this name, by its property `currentState`.
    pub fn is_current(&self, document: ObjId, name: &Text) -> bool
        ensures { result ≡ is_current_in document name.now self.now }
    {
        match self.get(document) {
            Some(entity) => is_text(name, entity.fields.get("currentState")),
            None => false,
        }
    }

    /// Whether a document has states.
    pub fn has_states(&self, document: ObjId) -> bool
        ensures { result ≡ is_some (first_state_in document self.now) }
    {
        match self.get(document) {
            Some(entity) => entity.states.get(0).is_some(),
            None => false,
        }
    }

    /// Whether a name that is asked for is kept for later: a change of the state of a document runs,
    /// or it has entered none yet.
    pub fn waits(&self, document: ObjId) -> bool
        ensures { result ≡ waits (keeping_in document self.now) }
    {
        match self.get(document) {
            Some(entity) => entity.keeping.is_running() || !entity.keeping.has_entered(),
            None => true,
        }
    }
}

// The state of this name among some.
fn state_named<'s>(states: &'s [RegisteredState], name: &Text) -> Option<&'s RegisteredState>
    ensures { option_copied result ≡ state_named name.now states.now }
{
    states
        .iter()
        .find(|state| state.name.as_str() == name.as_str())
}

// Whether a value, if there is one, is this text.
fn is_text(text: &Text, value: Option<&Value>) -> bool
    ensures { result ≡ is_text text.now (option_copied value.entry) }
{
    match value {
        Some(Value::Text(held)) => held.as_str() == text.as_str(),
        _ => false,
    }
}

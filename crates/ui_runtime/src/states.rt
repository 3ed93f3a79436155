// The states of documents.

ghost use Rattle.std.specs.Option.{option_copied};
ghost use Rattle.std.specs.Prelude.{◌≡◌, None, false, option_map};
ghost use Rattle.ui_runtime.specs.Answers.{Changes, Does, Steps, asked};
ghost use Rattle.ui_runtime.specs.Documents.{begins_first, first_state, has_begun, has_state, is_current, kept_name, over, registers, requests, state_at};

use crate::stage::Stage;
use crate::state::State;
use flex_base::{NoMemory, ObjId, RunRefusal, Stop, Text};
use flex_objects::{Entity, RegisteredState};

/// What a request for a state comes to.
#[derive(Clone, Copy, Debug, PartialEq, Eq)]
pub enum Change {
    /// The document is in that state already.
    Nothing,
    /// A change of the document's state runs, or it hasn't entered its first state yet: the name is
    /// kept in the place of one that was kept before.
    Kept,
    /// A change to that state begins.
    Begin,
}

impl Stage {
    /// Whether a document has a state of this name.
    pub fn has_state(&self, document: ObjId, name: &Text) -> bool
        ensures { result ≡ asked false (has_state document name.now) self.now }
    {
        match &self.state {
            Some(state) => state.objects.has_state(document, name),
            None => false,
        }
    }

    /// Whether a document is in the state of this name, by its property `currentState`.
    pub fn is_current(&self, document: ObjId, name: &Text) -> bool
        ensures { result ≡ asked false (is_current document name.now) self.now }
    {
        match &self.state {
            Some(state) => state.objects.is_current(document, name),
            None => false,
        }
    }

    /// The state of a document with this name; `None` exactly where it registered none.
    pub fn state(&self, document: ObjId, name: &Text) -> Option<&RegisteredState>
        ensures { option_copied result ≡ asked None (state_at document name.now) self.now }
    {
        self.state.as_ref()?.objects.state(document, name)
    }

    /// The name of the first state of a document; `None` exactly where it has no states.
    pub fn first_state(&self, document: ObjId) -> Option<&Text>
        ensures { option_copied result ≡ asked None (first_state document) self.now }
    {
        let state = self.entity(document)?.states.get(0)?;
        Some(&state.name)
    }

    /// Whether a document has begun to enter its first state.
    pub fn has_begun(&self, document: ObjId) -> bool
        ensures { result ≡ asked false (has_begun document) self.now }
    {
        match self.entity(document) {
            Some(entity) => entity.begun,
            None => false,
        }
    }

    /// Registers a state of a document behind the others. After want of memory the stage holds
    /// nothing.
    pub fn register(&mut self, document: ObjId, state: RegisteredState) -> Result<(), NoMemory>
        ensures { Changes self.old (registers document state) result self.new }
    {
        let mut stage = self.state.take().ok_or(NoMemory)?;
        stage.objects.register(document, state)?;
        self.state = Some(stage);
        Ok(())
    }

    /// A state of a document is asked for, by its name: `UnknownState` exactly where it has none of
    /// this name. What the change does is the caller's work, and `state_done` ends it.
    pub fn request_state(&mut self, document: ObjId, name: &Text) -> Result<Change, RunRefusal>
        ensures { Does self.old (requests document name.now) result self.new }
    {
        let mut state = self.state.take().ok_or(NoMemory)?;
        let change = state.request(document, name);
        self.keep(state, change)
    }

    /// A document begins to enter its first state: where it has states, a change to that begins.
    /// It takes no memory.
    pub fn begin(&mut self, document: ObjId)
        ensures { self.new ≡ option_map (begins_first document) self.old }
    {
        if let Some(state) = &mut self.state {
            state.begin_first(document);
        }
    }

    /// The change of a document's state is over, and it has entered a state. It gives the name that
    /// was kept meanwhile, if one was, and keeps it no longer. It takes no memory.
    pub fn state_done(&mut self, document: ObjId) -> Option<Text>
        ensures kept { result ≡ asked None (kept_name document) self.old }
        ensures after { self.new ≡ option_map (over document) self.old }
    {
        let mut state = self.state.take()?;
        let kept = state.objects.end(document);
        self.state = Some(state);
        kept
    }
}

impl State {
    // A state is asked for.
    pub fn request(&mut self, document: ObjId, name: &Text) -> Result<Change, RunRefusal>
        ensures { Steps self.old (requests document name.now self.old) result self.new }
    {
        if !self.objects.has_state(document, name) {
            return Err(RunRefusal::Stop(Stop::UnknownState));
        }
        if self.objects.waits(document) {
            self.objects.keep(document, name.clone()?);
            return Ok(Change::Kept);
        }
        if self.objects.is_current(document, name) {
            return Ok(Change::Nothing);
        }
        self.objects.begin(document);
        Ok(Change::Begin)
    }

    // The change begins by which a document enters its first state, if it has one.
    pub fn begin_first(&mut self, document: ObjId)
        ensures { self.new ≡ begins_first document self.old }
    {
        let has_states = self.objects.has_states(document);
        self.objects.start(document);
        if has_states {
            self.objects.begin(document);
        }
    }
}

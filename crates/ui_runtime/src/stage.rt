// The stage.

ghost use Rattle.std.specs.Prelude.{◌≡◌, None, Some};
ghost use Rattle.ui_runtime.specs.Answers.{kept_if_given, kept_unless_refused};
ghost use Rattle.ui_runtime.specs.Stage.{empty_stage};

use crate::state::State;
use flex_base::{NoMemory, RunRefusal};
use std::alloc::Global;
use std::marker::Model;

/// The objects, arrays and events of a play.
#[derive(Drop)]
pub struct Stage {
    pub(crate) alloc: Global,
    pub(crate) state: Option<State>,
}

impl Model for Stage {
    ghost use Rattle.std.specs.Prelude.{Option};
    ghost use Rattle.ui_runtime.specs.Stage.{Stage as Standing};

    ghost Value = { Option Standing };

    ghost view = { λ s. s.state };
}

impl Stage {
    /// The stage without objects. It takes no memory.
    pub fn new(alloc: Global) -> Stage
        ensures { result ≡ Some empty_stage }
    {
        Stage {
            alloc,
            state: Some(State::new(alloc)),
        }
    }

    // Puts the state back that a call took out, unless memory was refused.
    pub(crate) fn keep<T: Drop>(
        &mut self,
        state: State,
        answer: Result<T, RunRefusal>,
    ) -> Result<T, RunRefusal>
        requires { self.old ≡ None }
        ensures answer { result ≡ answer }
        ensures after { self.new ≡ kept_unless_refused answer state }
    {
        match &answer {
            Err(RunRefusal::NoMemory) => {}
            _ => self.state = Some(state),
        }
        answer
    }

    // The same for a call that doesn't stop.
    pub(crate) fn keep_given<T: Drop>(
        &mut self,
        state: State,
        answer: Result<T, NoMemory>,
    ) -> Result<T, NoMemory>
        requires { self.old ≡ None }
        ensures answer { result ≡ answer }
        ensures after { self.new ≡ kept_if_given answer state }
    {
        if answer.is_ok() {
            self.state = Some(state);
        }
        answer
    }
}

// What a document registers: its states and its bindings.

use flex_base::{ObjId, Text};
use std::marker::Model;

/// A state of a document, and the methods that are called when it is left and entered.
#[derive(Drop)]
pub struct RegisteredState {
    pub name: Text,
    pub leave: (ObjId, u32),
    pub enter: (ObjId, u32),
}

impl Model for RegisteredState {
    ghost use Rattle.flex_objects.specs.Entities.{RegisteredState as State, listener};

    ghost Value = { State };

    ghost view = { λ s. record {
      name = s.name;
      leave = listener s.leave.0 s.leave.1;
      enter = listener s.enter.0 s.enter.1;
    } };
}

/// A binding of a document that is enabled.
#[derive(Drop)]
pub struct EnabledBinding {
    /// Its number in the document.
    pub number: u32,
    /// The number of its counterpart, where it goes both ways.
    pub pair: Option<u32>,
    /// The method that runs it.
    pub method: (ObjId, u32),
}

impl Model for EnabledBinding {
    ghost use Rattle.flex_objects.specs.Entities.{EnabledBinding as Binding, listener};

    ghost Value = { Binding };

    ghost view = { λ b. record {
      number = b.number;
      pair = b.pair;
      method = listener b.method.0 b.method.1;
    } };
}

// The events that the player itself sends.

use component_catalog::EventRow;
use std::marker::Model;

/// An event that the player itself sends.
#[derive(Drop)]
pub struct Event {
    /// Its type.
    pub name: &'static str,
    pub row: EventRow,
}

impl Model for Event {
    ghost use Rattle.component_catalog.specs.Events.{Event as Sending};

    ghost Value = { Sending };

    ghost view = { λ e. record { name = e.name.now; row = e.row } };
}

// Methods of objects, and bindings of documents, by their numbers.

use flex_base::ObjId;
use std::marker::Model;

/// A method of an object.
#[derive(Drop)]
pub struct Listener {
    pub object: ObjId,
    /// The number of the method.
    pub method: u32,
}

impl Model for Listener {
    ghost use Rattle.flex_objects.specs.Entities.{listener};
    ghost use Rattle.flex_world.specs.Objects.{Listener as Listening};

    ghost Value = { Listening };

    ghost view = { λ l. listener l.object l.method };
}

/// A binding of a document.
#[derive(Drop)]
pub struct Watcher {
    pub document: ObjId,
    /// The number of the binding.
    pub number: u32,
}

impl Model for Watcher {
    ghost use Rattle.flex_world.specs.Objects.{Watcher as Watching, watcher};

    ghost Value = { Watching };

    ghost view = { λ w. watcher w.document w.number };
}

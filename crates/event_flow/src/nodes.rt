// The nodes at which an event is still to arrive.

ghost use Rattle.std.specs.Prelude.{◌≡◌, drop, slice_get};
ghost use Rattle.event_flow.specs.Dispatch.{dispatch_path};

use flex_base::{Arrival, Path, Phase};
use std::marker::Model;

// The nodes to come, along a path whose first object is the target.
#[derive(Drop)]
pub struct Nodes {
    path: Path,
    bubbles: bool,
    // How many objects of the path are left on the way to the target, which is the last of them.
    inward: usize,
    // The place of the object that comes next on the way back.
    outward: usize,
}

impl Model for Nodes {
    ghost use Rattle.std.specs.Prelude.{List, length, ◌≤◌};
    ghost use Rattle.flex_base.specs.declared.event.Arrival.{Arrival as Arriving};
    ghost use Rattle.event_flow.specs.Kept.{arrivals_left};

    ghost Value = { List Arriving };

    ghost view = { λ n. arrivals_left n.path n.bubbles n.inward n.outward };

    ghost invariant = { λ n. n.inward ≤ length n.path };
}

impl Nodes {
    // All nodes of a dispatch. They take no memory.
    pub fn along(path: Path, bubbles: bool) -> Nodes
        ensures { result ≡ dispatch_path path bubbles }
    {
        let inward = path.len();
        Nodes {
            path,
            bubbles,
            inward,
            outward: 1,
        }
    }

    // Takes the next node away.
    pub fn next(&mut self) -> Option<Arrival>
        ensures value { result ≡ slice_get self.old 0 }
        ensures after { self.new ≡ drop 1 self.old }
    {
        if self.inward > 0 {
            self.inward -= 1;
            let phase = if self.inward > 0 {
                Phase::Capture
            } else {
                Phase::Target
            };
            let node = *self.path.get(self.inward)?;
            return Some(Arrival { node, phase });
        }
        if !self.bubbles || self.path.len() <= self.outward {
            return None;
        }
        let node = *self.path.get(self.outward)?;
        self.outward += 1;
        Some(Arrival {
            node,
            phase: Phase::Bubble,
        })
    }
}

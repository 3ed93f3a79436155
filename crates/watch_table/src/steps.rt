// Counted steps.

ghost use Rattle.std.specs.Prelude.{◌≡◌};
ghost use Rattle.watch_table.specs.Steps.{raised};

use std::marker::Model;

/// A count of steps: of chains looked at, and of calls of `field`. This project's own.
///
/// It keeps a value that its maker gave, so that code which is handed a count of an open type can
/// make no other one.
#[derive(Drop)]
pub struct Steps<L> {
    maker: L,
    count: u64,
}

impl<L> Model for Steps<L> {
    ghost use Rattle.std.specs.Prelude.{ℕ};

    ghost Value = { ℕ };

    ghost view = { λ s. s.count };
}

impl<L> Steps<L> {
    /// No step.
    pub fn new(maker: L) -> Steps<L>
        ensures { result ≡ 0 }
    {
        Steps { maker, count: 0 }
    }

    /// Counts one step; at the end of its type the count stands still.
    pub fn raise(&mut self)
        ensures { self.new ≡ raised self.old }
    {
        self.count = self.count.saturating_add(1);
    }

    /// How many steps were counted.
    pub fn count(&self) -> u64
        ensures { result ≡ self.now }
    {
        self.count
    }
}

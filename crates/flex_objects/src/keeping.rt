// What a document keeps of its bindings and states.

ghost use Rattle.std.specs.List.{position_or_len};
ghost use Rattle.std.specs.Prelude.{◌≡◌, OnOk, nat_lt};
ghost use Rattle.flex_world.specs.Making.{keeps_nothing};
ghost use Rattle.flex_world.specs.Objects.{is_number_among};
ghost use Rattle.flex_objects.specs.Entities.{begun, ended, with_enabled, with_kept, with_open, without_open};

use flex_base::{NoMemory, Text};
use std::alloc::Global;
use std::marker::Model;

/// What a document keeps of its bindings, by their numbers, and of its states. This project's own.
#[derive(Drop)]
pub struct Keeping {
    enabled: Vec<u32>,
    open_bindings: Vec<u32>,
    entered: bool,
    running: bool,
    kept: Option<Text>,
}

impl Model for Keeping {
    ghost use Rattle.flex_world.specs.Objects.{Keeping as Kept};

    ghost Value = { Kept };

    ghost view = { λ k. record {
      enabled = k.enabled.items;
      open_bindings = k.open_bindings.items;
      entered = k.entered;
      running = k.running;
      kept = k.kept;
    } };
}

impl Keeping {
    /// Nothing. It takes no memory.
    pub fn new(alloc: Global) -> Keeping
        ensures { result ≡ keeps_nothing }
    {
        Keeping {
            enabled: Vec::new(alloc),
            open_bindings: Vec::new(alloc),
            entered: false,
            running: false,
            kept: None,
        }
    }

    /// Whether a binding is enabled.
    pub fn is_enabled(&self, binding: u32) -> bool
        ensures { result ≡ is_number_among binding self.now.enabled }
    {
        self.enabled.iter().any(|n| *n == binding)
    }

    /// Enables a binding.
    pub fn enable(&mut self, binding: u32) -> Result<(), NoMemory>
        ensures { OnOk result (self.new ≡ with_enabled binding self.old) }
    {
        let place = first_above(self.enabled.as_slice(), binding);
        self.enabled.insert(place, binding)?;
        Ok(())
    }

    /// Whether a run of a binding is open.
    pub fn is_open(&self, binding: u32) -> bool
        ensures { result ≡ is_number_among binding self.now.open_bindings }
    {
        self.open_bindings.iter().any(|n| *n == binding)
    }

    /// A run of a binding begins.
    pub fn open(&mut self, binding: u32) -> Result<(), NoMemory>
        ensures { OnOk result (self.new ≡ with_open binding self.old) }
    {
        self.open_bindings.insert(0, binding)?;
        Ok(())
    }

    /// The run of a binding is over that began last.
    pub fn close(&mut self, binding: u32)
        ensures { self.new ≡ without_open binding self.old }
    {
        if let Some(place) = self.open_bindings.iter().position(|n| *n == binding) {
            self.open_bindings.remove(place);
        }
    }

    /// Whether the document has entered its first state.
    pub fn has_entered(&self) -> bool
        ensures { result ≡ self.now.entered }
    {
        self.entered
    }

    /// Whether a change of the document's state runs.
    pub fn is_running(&self) -> bool
        ensures { result ≡ self.now.running }
    {
        self.running
    }

    /// Keeps the name of a state that is asked for, in the place of an earlier one.
    pub fn keep(&mut self, name: Text)
        ensures { self.new ≡ with_kept name self.old }
    {
        self.kept = Some(name);
    }

    /// A change of the state begins.
    pub fn begin(&mut self)
        ensures { self.new ≡ begun self.old }
    {
        self.running = true;
    }

    /// The change is over, and the document has entered a state. It gives the name that was kept,
    /// if one was, and keeps it no longer.
    pub fn end(&mut self) -> Option<Text>
        ensures kept { result ≡ self.old.kept }
        ensures after { self.new ≡ ended self.old }
    {
        self.entered = true;
        self.running = false;
        self.kept.take()
    }
}

// The place of the first number that is greater, or behind them all.
fn first_above(numbers: &[u32], number: u32) -> usize
    ensures { result ≡ position_or_len (λ n. nat_lt number n) numbers.now }
{
    numbers
        .iter()
        .position(|n| number < *n)
        .unwrap_or(numbers.len())
}

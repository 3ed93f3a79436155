// How far the dispatch of an event has come.

ghost use Rattle.std.specs.Prelude.{◌≡◌};
ghost use Rattle.flex_world.specs.Events.{closed_delivery, delivery_stopped_at_once, opened_delivery, prevented_delivery, prevented_now, stopped_delivery, while_open};
ghost use Rattle.flex_world.specs.Making.{undelivered};

use std::marker::Model;

/// How far the dispatch of an event has come. ActionScript 3, event flow.
#[derive(Clone, Copy, Debug, PartialEq, Eq)]
pub struct Delivery {
    /// It was dispatched.
    pub dispatched: bool,
    /// The dispatch goes on.
    pub is_open: bool,
    /// Whether it could be cancelled when its dispatch began.
    pub cancelable: bool,
    /// It comes to no further node.
    pub stopped: bool,
    /// No further listener hears it.
    pub stopped_at_once: bool,
    /// The default was prevented.
    pub prevented: bool,
    /// Whether it was, once the dispatch is over.
    pub answer: bool,
}

impl Model for Delivery {
    ghost use Rattle.flex_world.specs.Objects.{Delivery as Delivered};

    ghost Value = { Delivered };

    ghost view = { λ d. record {
      dispatched = d.dispatched;
      is_open = d.is_open;
      cancelable = d.cancelable;
      stopped = d.stopped;
      stopped_at_once = d.stopped_at_once;
      prevented = d.prevented;
      answer = d.answer;
    } };

    ghost inverse = { λ d. record {
      dispatched = d.dispatched;
      is_open = d.is_open;
      cancelable = d.cancelable;
      stopped = d.stopped;
      stopped_at_once = d.stopped_at_once;
      prevented = d.prevented;
      answer = d.answer;
    } };
}

impl Delivery {
    /// Of an event that wasn't dispatched.
    pub fn none() -> Delivery
        ensures { result ≡ undelivered }
    {
        Delivery {
            dispatched: false,
            is_open: false,
            cancelable: false,
            stopped: false,
            stopped_at_once: false,
            prevented: false,
            answer: false,
        }
    }

    /// The dispatch begins, of an event that can be cancelled or not.
    pub fn open(&mut self, cancelable: bool)
        ensures { self.new ≡ opened_delivery cancelable self.old }
    {
        self.dispatched = true;
        self.is_open = true;
        self.cancelable = cancelable;
    }

    /// The dispatch is over.
    pub fn close(&mut self)
        ensures { self.new ≡ closed_delivery self.old }
    {
        self.is_open = false;
        self.answer = self.prevented;
    }

    /// `stopPropagation`: the event comes to no further node. It changes nothing before and after
    /// the dispatch, nor do the next two.
    pub fn stop(&mut self)
        ensures { self.new ≡ while_open stopped_delivery self.old }
    {
        if self.is_open {
            self.stopped = true;
        }
    }

    /// `stopImmediatePropagation`: no further listener hears the event.
    pub fn stop_now(&mut self)
        ensures { self.new ≡ while_open delivery_stopped_at_once self.old }
    {
        if self.is_open {
            self.stopped_at_once = true;
        }
    }

    /// `preventDefault`: the default is prevented, where the event can be cancelled.
    pub fn prevent(&mut self)
        ensures { self.new ≡ while_open prevented_delivery self.old }
    {
        if self.is_open {
            self.prevented = self.prevented || self.cancelable;
        }
    }

    /// `isDefaultPrevented`: whether the default was prevented, or is by the end of the dispatch.
    pub fn was_prevented(&self) -> bool
        ensures { result ≡ prevented_now self.now }
    {
        if self.is_open {
            self.prevented
        } else {
            self.answer
        }
    }
}

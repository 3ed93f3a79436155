// A law of dispatches.

ghost use Rattle.event_flow.specs.Laws.{DispatchIsWhole};

/// A dispatch that nothing stops arrives at each node of its path, in order, and calls the
/// listeners that are supplied there, in order; then it is over.
pub fn laws_of_dispatch()
    ensures { DispatchIsWhole }
{}

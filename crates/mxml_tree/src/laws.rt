// Laws of trees and first faults, which speak of no call.

ghost use Rattle.mxml_tree.specs.Laws.{IsFaultWithin, IsNeverBoth, IsOneFault, IsOneTree};

/// A text has at most one tree and at most one first fault, and never both; a first fault stands in
/// the text, or at its end.
pub fn laws_of_trees()
    ensures one_tree { IsOneTree }
    ensures one_fault { IsOneFault }
    ensures never_both { IsNeverBoth }
    ensures within { IsFaultWithin }
{}

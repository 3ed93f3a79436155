//! The sites of reading and of classes, and those of code among the members: which rule stands at
//! which place, in order. Definitions alone.
#![tactic(auto)]

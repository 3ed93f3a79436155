//! What the code of a checked program is, as definitions alone: a relation between its terms and the
//! parts of the methods of a file.
#![tactic(auto)]

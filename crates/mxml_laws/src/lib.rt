//! A law of the texts of MXML documents, which speaks of no call: each one has a tree or a first
//! fault. XML 1.0 and Namespaces in XML 1.0, in the profile of this project.
#![tactic(auto)]

ghost use Rattle.mxml_laws.specs.Laws.{HasTreeOrFault};

/// Any bytes are a text that has a tree or a first fault, by the definitions of `mxml_tree`.
pub fn laws_of_texts()
    ensures { HasTreeOrFault }
{}

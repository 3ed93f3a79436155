//! A file that has the code of a program plays as the program, as far as it is proved: methods and
//! constructors do on the machine what they mean. The functions here do nothing: each is a law that
//! its contract states.
#![tactic(auto)]

ghost use Rattle.program_simulation.specs.Laws.{ConstructorsPlay, MethodsPlay};

/// In a file that has the code of a checked program, each call of a method and each run of a
/// constructor does what it means: the records, the result, the stop or the spent turns are the
/// same, and the stage stands for the world again.
///
/// It is proved of programs whose code calls by `super.name(..)` methods of the program alone, by
/// `super(..)` no constructor of an event, and no method of the catalog that dispatches an event, adds
/// an element or removes all; and of the constructors of classes without a document. A change of a
/// property affects the same bindings on both sides, and they start and run as they mean, their own
/// expressions included. Two premises are named in the clauses and aren't proved: that states are
/// asked for as they mean, and that documents, on new objects of their classes, are constructed so.
pub fn classes_play()
    ensures methods { MethodsPlay }
    ensures constructors { ConstructorsPlay }
{}

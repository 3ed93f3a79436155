// What small programs mean, record by record.

ghost use Rattle.flex_meaning.specs.Examples.{GreetingMeans, OneTurnMeans, EmptyMeans, EndOfIntMeans, TakenOnArrivalMeans, SpentMeans, TwoTurnsMean, DepthMeans, ArraysMean};
ghost use Rattle.flex_meaning.specs.EventExamples.{PrioritiesMean, NoStopMeans, StopMeans, StopAtOnceMeans, DefaultMeans, PreventedMeans, NotAChildMeans, CycleMeans, NobodyMeans, NoStateMeans, NoWayUpMeans};
ghost use Rattle.flex_meaning.specs.BindingExamples.{ReplacedMeans, RingMeans, TwinMeans};
ghost use Rattle.flex_meaning.specs.StateExamples.{OverridesMean, KeptMeans, DeferredMeans};
ghost use Rattle.flex_meaning.specs.FormExample.{ContactFormMeans};
ghost use Rattle.flex_meaning.specs.ClassExamples.{ClassesMean, OwnEventMeans};
ghost use Rattle.flex_meaning.specs.FineExamples.{PlainProgramsAreFine, OtherProgramsAreFine};

/// What small programs mean whose code counts, calls, loops, or uses an array: a greeting, also
/// with one turn; a document that holds nothing; a sum past the end of `int`; a listener that is
/// added while its node's list is taken; a loop without an end, with several numbers of turns; a
/// method that calls itself; an array; a class that extends another.
#[tactic(auto, using(crate::proofs::SmallPrograms::greeting_means, crate::proofs::SmallPrograms::one_turn_means, crate::proofs::SmallPrograms::empty_means, crate::proofs::SmallPrograms::end_of_int_means, crate::proofs::SmallPrograms::taken_on_arrival_means, crate::proofs::SmallPrograms::ten_turns_mean, crate::proofs::SmallPrograms::three_turns_mean, crate::proofs::SmallPrograms::two_turns_mean, crate::proofs::SmallPrograms::depth_means, crate::proofs::SmallPrograms::arrays_mean, crate::proofs::SmallPrograms::classes_mean))]
pub fn plain_programs_mean()
    ensures greeting { GreetingMeans }
    ensures one_turn { OneTurnMeans }
    ensures empty { EmptyMeans }
    ensures end_of_int { EndOfIntMeans }
    ensures taken_on_arrival { TakenOnArrivalMeans }
    ensures ten_turns { SpentMeans 10 }
    ensures three_turns { SpentMeans 3 }
    ensures two_turns { TwoTurnsMean }
    ensures depth { DepthMeans }
    ensures arrays { ArraysMean }
    ensures classes { ClassesMean }
{}

/// What small programs mean whose listeners hear events: priorities and the first phase; the two
/// calls that stop an event; a default action, and one that is prevented; an element that moves;
/// names and states that aren't there; an event of the program's own, and one that
/// doesn't bubble.
#[tactic(auto, using(crate::proofs::SmallPrograms::priorities_mean, crate::proofs::SmallPrograms::no_stop_means, crate::proofs::SmallPrograms::stop_means, crate::proofs::SmallPrograms::stop_at_once_means, crate::proofs::SmallPrograms::default_means, crate::proofs::SmallPrograms::prevented_means, crate::proofs::SmallPrograms::not_a_child_means, crate::proofs::SmallPrograms::cycle_means, crate::proofs::SmallPrograms::nobody_means, crate::proofs::SmallPrograms::no_state_means, crate::proofs::SmallPrograms::own_event_means, crate::proofs::SmallPrograms::no_way_up_means))]
pub fn events_mean()
    ensures priorities { PrioritiesMean }
    ensures no_stop { NoStopMeans }
    ensures stop { StopMeans }
    ensures stop_at_once { StopAtOnceMeans }
    ensures default { DefaultMeans }
    ensures prevented { PreventedMeans }
    ensures not_a_child { NotAChildMeans }
    ensures cycle { CycleMeans }
    ensures nobody { NobodyMeans }
    ensures no_state { NoStateMeans }
    ensures own_event { OwnEventMeans }
    ensures no_way_up { NoWayUpMeans }
{}

/// What small programs mean that have bindings or view states: an object that is replaced in a
/// chain; one object twice in a chain; a two-way binding; overrides; a state that is asked for
/// during a change; an instance of one state; and a contact form, with all of it.
#[tactic(auto, using(crate::proofs::SmallPrograms::replaced_means, crate::proofs::SmallPrograms::ring_means, crate::proofs::SmallPrograms::twin_means, crate::proofs::SmallPrograms::overrides_mean, crate::proofs::SmallPrograms::kept_means, crate::proofs::SmallPrograms::deferred_means, crate::proofs::SmallPrograms::contact_form_means))]
pub fn bindings_and_states_mean()
    ensures replaced { ReplacedMeans }
    ensures ring { RingMeans }
    ensures two_way { TwinMeans }
    ensures overrides { OverridesMean }
    ensures kept { KeptMeans }
    ensures deferred { DeferredMeans }
    ensures contact_form { ContactFormMeans }
{}

/// The small programs are fine.
#[tactic(auto, using(crate::proofs::FinePrograms::plain_are_fine, crate::proofs::FinePrograms::others_are_fine))]
pub fn small_programs_are_fine()
    ensures plain { PlainProgramsAreFine }
    ensures others { OtherProgramsAreFine }
{}

// Laws of what sources mean.

ghost use Rattle.flexc.specs.Examples.{GreetingMeans, EmptyTextMeans, OneTurnMeans, ButtonMeans, ClickMeans, TwoTurnsMean, LabelClickMeans};
ghost use Rattle.flexc.specs.GoingOn.{MoreTurnsGoOn};

/// Small documents mean what is expected of them, by computation alone.
#[tactic(auto, using(crate::proofs::Examples::greeting_means, crate::proofs::Examples::empty_text_means, crate::proofs::Examples::one_turn_means, crate::proofs::Examples::button_means, crate::proofs::Examples::click_means, crate::proofs::Examples::two_turns_mean, crate::proofs::Examples::label_click_means))]
pub fn small_documents_mean()
    ensures greeting { GreetingMeans }
    ensures empty_text { EmptyTextMeans }
    ensures one_turn { OneTurnMeans }
    ensures button { ButtonMeans }
    ensures click { ClickMeans }
    ensures two_turns { TwoTurnsMean }
    ensures label_click { LabelClickMeans }
{}

/// More turns go on where fewer ended: what was seen is the beginning of what is seen with more
/// turns, and a play that came to another end stays as it was.
#[tactic(auto, using(crate::proofs::GoingOn::more_turns_go_on))]
pub fn more_turns_go_on()
    ensures { MoreTurnsGoOn }
{}

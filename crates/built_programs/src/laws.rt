// What the programs of small documents mean.

ghost use Rattle.built_programs.specs.Rows.{ButtonMeans, ClickMeans, EmptyTextMeans, GreetingMeans, LabelClickMeans, OneTurnMeans, ParentMeans, TwoTurnsMean};

/// The programs of small documents mean what is expected of these documents, by computation alone.
#[tactic(auto, using(crate::proofs::Rows::greeting_means, crate::proofs::Rows::empty_text_means, crate::proofs::Rows::one_turn_means, crate::proofs::Rows::button_means, crate::proofs::Rows::click_means, crate::proofs::Rows::two_turns_mean, crate::proofs::Rows::label_click_means, crate::proofs::Rows::parent_means))]
pub fn small_documents_mean()
    ensures greeting { GreetingMeans }
    ensures empty_text { EmptyTextMeans }
    ensures one_turn { OneTurnMeans }
    ensures button { ButtonMeans }
    ensures click { ClickMeans }
    ensures two_turns { TwoTurnsMean }
    ensures label_click { LabelClickMeans }
    ensures parent { ParentMeans }
{}

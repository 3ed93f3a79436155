// The fault of tokens that counts.

ghost use Rattle.std.specs.Prelude.{◌≡◌, OnOk, IfErr};
ghost use Rattle.as3_parser.specs.Here.{counted, first_of};
ghost use Rattle.as3_parser.specs.Laws.{HasOneFault, IsJudged, IsJudgedOneWay};
ghost use Rattle.as3_parser.specs.Syntax.{IsRefusal, IsSentence};

use crate::faults::faults_of;
use crate::kinds::kinds_asked;
use crate::refusal::ParseRefusal;
use crate::start::Start;
use as3_lexer::TokenList;
use std::alloc::Global;

/// Whether tokens are what a text is to be, or which of them is at fault: of two faults the one at
/// the earlier token, at one token that of syntax.
///
/// A handler's tokens are judged with a `;` behind them where the last one is neither `;` nor `}`;
/// it isn't counted. The grammar is a part of ActionScript 3; its choice is this project's own.
pub fn check_syntax(alloc: Global, start: Start, tokens: &TokenList) -> Result<(), ParseRefusal>
    ensures sentence { OnOk result (IsSentence start tokens.now) }
    ensures refused { IfErr result (IsRefusal start tokens.now) }
{
    let tokens = tokens.as_slice();
    let kinds = kinds_asked(alloc, start, tokens)?;
    let faults = faults_of(alloc, start, kinds.as_slice())?;
    let syntax = counted(faults.syntax, tokens.len());
    let deep = counted(faults.deep, tokens.len());
    let first = first_of(syntax, deep);
    match first {
        None => Ok(()),
        Some(refusal) => Err(refusal),
    }
}

/// Tokens are a sentence or at fault, and not both, and one fault is the one that counts.
pub fn laws_of_syntax()
    ensures judged { IsJudged }
    ensures one_way { IsJudgedOneWay }
    ensures one_fault { HasOneFault }
{}

// A fault as it is counted among so many tokens: the `;` that is added stands behind them.
fn counted(fault: Option<usize>, many: usize) -> Option<usize>
    ensures { result ≡ counted fault many }
{
    match fault {
        None => None,
        Some(place) => Some(place.min(many)),
    }
}

// The fault that counts.
fn first_of(syntax: Option<usize>, deep: Option<usize>) -> Option<ParseRefusal>
    ensures { result ≡ first_of syntax deep }
{
    match (syntax, deep) {
        (None, None) => None,
        (None, Some(deep)) => Some(ParseRefusal::TooDeep(deep)),
        (Some(place), None) => Some(ParseRefusal::Syntax(place)),
        (Some(place), Some(deep)) => {
            if deep < place {
                Some(ParseRefusal::TooDeep(deep))
            } else {
                Some(ParseRefusal::Syntax(place))
            }
        }
    }
}

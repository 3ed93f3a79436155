// The places of tokens that are at fault.

ghost use Rattle.std.specs.Prelude.{◌≡◌};
ghost use Rattle.source_reading.specs.CodeTexts.{place_of_token, placed};

use crate::code::CodeRefusal;
use as3_lexer::TokenList;
use as3_parser::ParseRefusal;
use source_sites::Code;

// A refusal of tokens, by the place of the token in the text.
pub(crate) fn placed(text: &str, tokens: &TokenList, refusal: ParseRefusal) -> CodeRefusal
    ensures { result ≡ placed text.now tokens.now refusal }
{
    match refusal {
        ParseRefusal::Syntax(number) => {
            CodeRefusal::Fault(Code::Syntax, place_of_token(text, tokens, number))
        }
        ParseRefusal::TooDeep(number) => {
            CodeRefusal::Fault(Code::TooDeep, place_of_token(text, tokens, number))
        }
        ParseRefusal::NoMemory => CodeRefusal::NoMemory,
    }
}

// The place of the token with this number.
pub(crate) fn place_of_token(text: &str, tokens: &TokenList, number: usize) -> usize
    ensures { result ≡ place_of_token text.now tokens.now number }
{
    match tokens.get(number) {
        Some(token) => token.start,
        None => text.len(),
    }
}

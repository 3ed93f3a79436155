// Texts of class files.

ghost use Rattle.std.specs.Prelude.{◌≡◌, ◌+◌, ◌*◌, IfErr, IfOk};
ghost use Rattle.source_reading.specs.CodeTexts.{IsCodeRefusal};
ghost use Rattle.source_reading.specs.ClassTexts.{IsParsedIn, class_placed, import_tokens, package_tokens, tokens_before};

use crate::code::CodeRefusal;
use crate::places::{place_of_token, placed};
use crate::texts::tokens_of;
use as3_lexer::TokenList;
use as3_parser::{ClassFile, Import, Lexeme, Start, parse_class_file};
use flex_base::NoMemory;
use source_sites::ParsedClass;
use std::alloc::Global;

/// The class file that a text is, with the places of its word `package` and of the first token of
/// its class, or its first fault.
#[tactic(auto, using(crate::proofs::TokensBefore::parsed_in))]
pub fn read_class_file(alloc: Global, text: &str) -> Result<ParsedClass, CodeRefusal>
    ensures tree { IfOk result (IsParsedIn text.now) }
    ensures refused { IfErr result (IsCodeRefusal Start.ClassFile text.now) }
{
    let tokens = tokens_of(alloc, text)?;
    match parse_class_file(alloc, text, &tokens) {
        Ok(file) => {
            let parsed = class_placed(text, &tokens, file)?;
            Ok(parsed)
        }
        Err(refusal) => Err(placed(text, &tokens, refusal)),
    }
}

// A class file with its places among the tokens of its text.
fn class_placed(text: &str, tokens: &TokenList, file: ClassFile) -> Result<ParsedClass, NoMemory>
    ensures { IfOk result (λ parsed. parsed ≡ class_placed text.now tokens.now file) }
{
    let number = tokens_before(&file)?;
    let package_at = place_of_token(text, tokens, 0);
    let class_at = place_of_token(text, tokens, number);
    Ok(ParsedClass {
        package_at,
        class_at,
        file,
    })
}

// How many tokens stand before the class.
fn tokens_before(file: &ClassFile) -> Result<usize, NoMemory>
    ensures { IfOk result (λ number. number ≡ tokens_before file.now) }
{
    let mut number = package_tokens(&file.package_name)?;
    let mut rest = file.imports.as_slice();
    while let Some((import, others)) = rest.split_first() {
        let own = import_tokens(import)?;
        number = number.checked_add(own).ok_or(NoMemory)?;
        rest = others;
    }
    Ok(number)
}

fn package_tokens(name: &Option<Vec<Lexeme>>) -> Result<usize, NoMemory>
    ensures { IfOk result (λ number. number ≡ package_tokens name.now) }
{
    match name {
        None => Ok(2),
        Some(path) => pairs_and(path.len(), 1),
    }
}

fn import_tokens(import: &Import) -> Result<usize, NoMemory>
    ensures { IfOk result (λ number. number ≡ import_tokens import.now) }
{
    pairs_and(import.steps.len(), 3)
}

// So many pairs of tokens, and some more.
fn pairs_and(pairs: usize, more: usize) -> Result<usize, NoMemory>
    ensures { IfOk result (λ number. number ≡ pairs * 2 + more) }
{
    let doubled = pairs.checked_mul(2).ok_or(NoMemory)?;
    let number = doubled.checked_add(more).ok_or(NoMemory)?;
    Ok(number)
}

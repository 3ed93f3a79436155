// The words before members and classes, and the stars of imports.

ghost use Rattle.std.specs.Prelude.{◌≡◌, [], ◌∷◌, ◌++◌, map, length};
ghost use Rattle.std.specs.List.{filter, list_any};
ghost use Rattle.std.specs.Str.{bytes_eq};
ghost use Rattle.source_sites.specs.Functions.{access_of, is_access, overrides, same_modifier};
ghost use Rattle.source_sites.specs.Names.{star};
ghost use Rattle.source_sites.specs.Sites.{first_site, rule};
ghost use Rattle.source_sites.specs.Texts.{among, without_last};
ghost use Rattle.source_sites.specs.Trees.{class_file_of, declares_of, import_of, member_of, step_name};
ghost use Rattle.class_sites.specs.MemberSites.{has_repeated, has_right_words, is_public_alone, is_variable, wrong_class_modifiers, wrong_import, wrong_modifiers};

use as3_parser::{Import, ImportStep, Member, MemberKind, Modifier};
use source_sites::{Code, ParsedClass, Site};

/// A member has exactly one word of access, no word twice, and no `override` where it is a
/// variable. At the first token of the member, its metadata included.
pub fn wrong_modifiers(file: u32, member: &Member) -> Option<Site>
    ensures { result ≡ first_site file (wrong_modifiers (member_of member.now) ∷ []) }
{
    site_unless(
        has_right_words(member),
        file,
        member.span.start,
        Code::WrongModifiers,
    )
}

/// A class has the word `public` and no other. At the first token of the class, its metadata
/// included.
pub fn wrong_class_modifiers(file: u32, parsed: &ParsedClass) -> Option<Site>
    ensures { result ≡ first_site file (wrong_class_modifiers (class_file_of parsed.now) ∷ []) }
{
    let holds = is_public_alone(parsed.file.class.modifiers.as_slice());
    site_unless(holds, file, parsed.class_at, Code::WrongModifiers)
}

/// A `*` of an import is its last name. At the word `import`.
pub fn wrong_import(file: u32, import: &Import) -> Option<Site>
    ensures { result ≡ first_site file (wrong_import (import_of import.now) ∷ []) }
{
    let holds = !has_early_star(import);
    site_unless(holds, file, import.span.start, Code::WrongModifiers)
}

/// The site of a rule that may hold.
pub fn site_unless(holds: bool, file: u32, at: usize, code: Code) -> Option<Site>
    ensures { result ≡ first_site file (rule at code holds ∷ []) }
{
    if holds {
        None
    } else {
        Some(Site { file, at, code })
    }
}

fn has_right_words(member: &Member) -> bool
    ensures { result ≡ has_right_words (member_of member.now) }
{
    let modifiers = member.modifiers.as_slice();
    access_words(modifiers) == 1
        && !has_repeated(modifiers)
        && !(is_variable(&member.kind) && overrides(modifiers))
}

fn is_variable(kind: &MemberKind) -> bool
    ensures { result ≡ is_variable (declares_of kind.now) }
{
    matches!(kind, MemberKind::Variables(_))
}

fn is_access(modifier: Modifier) -> bool
    ensures { result ≡ is_access modifier }
{
    !matches!(modifier, Modifier::Override)
}

/// Whether two words are the same.
pub fn is_same_modifier(one: Modifier, other: Modifier) -> bool
    ensures { result ≡ same_modifier one other }
{
    match one {
        Modifier::Public => matches!(other, Modifier::Public),
        Modifier::Private => matches!(other, Modifier::Private),
        Modifier::Protected => matches!(other, Modifier::Protected),
        Modifier::Override => matches!(other, Modifier::Override),
    }
}

// How many words of access there are.
fn access_words(modifiers: &[Modifier]) -> usize
    ensures { result ≡ length (filter is_access modifiers.now) }
{
    modifiers.iter().filter(|word| is_access(**word)).count()
}

/// Whether `override` is among these words.
pub fn overrides(modifiers: &[Modifier]) -> bool
    ensures { result ≡ overrides modifiers.now }
{
    stands_in(Modifier::Override, modifiers)
}

fn stands_in(word: Modifier, modifiers: &[Modifier]) -> bool
    ensures { result ≡ list_any (same_modifier word) modifiers.now }
{
    modifiers.iter().any(|other| is_same_modifier(word, *other))
}

/// The access that words give: that of the first word of access, else `public`.
#[tactic(auto, using(crate::proofs::Access::access_here, crate::proofs::Access::access_behind))]
pub fn access_of(modifiers: &[Modifier]) -> Modifier
    ensures { result ≡ access_of modifiers.now }
{
    let mut rest = modifiers;
    while let Some((word, others)) = rest.split_first() {
        if is_access(*word) {
            return *word;
        }
        rest = others;
    }
    Modifier::Public
}

// Whether a word stands twice.
#[tactic(auto, using(crate::proofs::Repeated::stands_once))]
fn has_repeated(modifiers: &[Modifier]) -> bool
    ensures { result ≡ has_repeated modifiers.now }
{
    let mut rest = modifiers;
    while let Some((word, others)) = rest.split_first() {
        if stands_in(*word, others) {
            return true;
        }
        rest = others;
    }
    false
}

fn is_public_alone(modifiers: &[Modifier]) -> bool
    ensures { result ≡ is_public_alone modifiers.now }
{
    matches!(modifiers, [Modifier::Public])
}

// Whether a `*` stands before the last name.
#[tactic(auto, using(crate::proofs::Stars::early_name))]
fn has_early_star(import: &Import) -> bool
    ensures { result ≡ among star (without_last (import_of import.now).names) }
{
    let Some((_, early)) = import.steps.as_slice().split_last() else {
        return false;
    };
    is_star(import.first.text.as_str()) || has_star(early)
}

fn has_star(steps: &[ImportStep]) -> bool
    ensures { result ≡ list_any (λ step. bytes_eq star (step_name step)) steps.now }
{
    steps.iter().any(|step| is_star(step_name(step)))
}

/// Whether a name is that of a star.
pub fn is_star(name: &str) -> bool
    ensures { result ≡ bytes_eq star name.now }
{
    name == "*"
}

/// The name of a step, in which a star is the text `*`.
pub fn step_name(step: &ImportStep) -> &str
    ensures { result.now ≡ step_name step.now }
{
    match step {
        ImportStep::Name(name) => name.text.as_str(),
        ImportStep::All(_) => "*",
    }
}

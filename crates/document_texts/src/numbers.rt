// Whole numbers in texts.

ghost use Rattle.std.specs.Prelude.{◌≡◌, ◌<◌, ◌≤◌, neg_ℤ, pos};
ghost use Rattle.document_sites.specs.BindingTexts.{digits_below, whole_number};
ghost use Rattle.document_texts.specs.Numbers.{longer_below};

/// The number that a text writes in decimal digits, maybe behind a `-`, where it fits an int.
pub fn whole_number(text: &[u8]) -> Option<i32>
    ensures { result ≡ whole_number text.now }
{
    let (first, others) = text.split_first()?;
    if *first == b'-' {
        return match digits_below(0x8000_0001, others) {
            Some(number) => Some(negative(number)),
            None => None,
        };
    }
    match digits_below(0x8000_0000, text) {
        Some(number) => Some(number as i32),
        None => None,
    }
}

fn negative(number: u32) -> i32
    requires { number ≤ 0x8000_0000 }
    ensures { result ≡ neg_ℤ (pos number) }
{
    (-i64::from(number)) as i32
}

// The number of a text of digits, at least one, where it is below this.
#[tactic(auto, using(crate::proofs::Digits::from_the_first, crate::proofs::Digits::ends_here, crate::proofs::Digits::goes_on))]
fn digits_below(limit: u32, digits: &[u8]) -> Option<u32>
    requires { 0 < limit }
    ensures { result ≡ digits_below limit digits.now }
{
    if digits.is_empty() {
        return None;
    }
    let mut number = 0;
    let mut rest = digits;
    while let Some((digit, others)) = rest.split_first() {
        number = longer_below(limit, number, *digit)?;
        rest = others;
    }
    Some(number)
}

// The number with one digit more, where that is a digit and the number is below this.
fn longer_below(limit: u32, number: u32, digit: u8) -> Option<u32>
    ensures { result ≡ longer_below limit number digit }
{
    if !digit.is_ascii_digit() {
        return None;
    }
    let longer = u64::from(number) * 10 + u64::from(digit - b'0');
    if longer < u64::from(limit) {
        Some(longer as u32)
    } else {
        None
    }
}

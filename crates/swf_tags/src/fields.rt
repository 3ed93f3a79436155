// Numbers and names at the start of bytes, each with what follows it.

ghost use Rattle.std.specs.Prelude.{◌≡◌, ◌+◌, ◌<◌, ◌==◌, length, true, false, MatchOption, IfSome, Some, None};
ghost use Rattle.std.specs.List.{position};
ghost use Rattle.std.specs.Str.{is_utf8};
ghost use Rattle.swf_tags.specs.Fields.{Gives, name, number};

use byteorder::{ByteOrder, LittleEndian};

#[tactic(auto, unfolding(crate::specs::Fields::split))]
pub fn number_of_two(bytes: &[u8]) -> Option<(u16, &[u8])>
    ensures value { MatchOption result (number 2 bytes.now ≡ None) (λ r. Gives (number 2 bytes.now) r.0 r.1.now) }
    ensures size { IfSome result (λ r. 2 + length r.1.now ≡ length bytes.now) }
{
    let (field, rest) = bytes.split_at_checked(2)?;
    Some((LittleEndian::read_u16(field), rest))
}

#[tactic(auto, unfolding(crate::specs::Fields::split))]
pub fn number_of_four(bytes: &[u8]) -> Option<(u32, &[u8])>
    ensures value { MatchOption result (number 4 bytes.now ≡ None) (λ r. Gives (number 4 bytes.now) r.0 r.1.now) }
    ensures size { IfSome result (λ r. 4 + length r.1.now ≡ length bytes.now) }
{
    let (field, rest) = bytes.split_at_checked(4)?;
    Some((LittleEndian::read_u32(field), rest))
}

// The text before the first 0, and what follows that.
#[tactic(auto, unfolding(crate::specs::Fields::name))]
pub fn name(bytes: &[u8]) -> Option<(&str, &[u8])>
    ensures { MatchOption result (name bytes.now ≡ None) (λ r. Gives (name bytes.now) r.0.now r.1.now) }
{
    let end = first_zero(bytes)?;
    let text = text(&bytes[..end])?;
    Some((text, &bytes[end + 1..]))
}

fn first_zero(bytes: &[u8]) -> Option<usize>
    ensures value { result ≡ position (λ byte. byte == 0) bytes.now }
    ensures within { IfSome result (λ end. end < length bytes.now) }
{
    bytes.iter().position(|byte| *byte == 0)
}

// The bytes as a text.
#[tactic(auto, using(crate::proofs::Texts::utf8_tests))]
fn text(bytes: &[u8]) -> Option<&str>
    ensures { MatchOption result (is_utf8 bytes.now ≡ false) (λ text. (is_utf8 bytes.now ≡ true) × (text.now ≡ bytes.now)) }
{
    match str::from_utf8(bytes) {
        Ok(text) => Some(text),
        Err(_) => None,
    }
}

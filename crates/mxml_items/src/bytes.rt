// Runs of bytes, and what stands behind a beginning.

ghost use Rattle.std.specs.Prelude.{◌≡◌, ◌≢◌, ◌++◌, ◌<◌, ℕ, List, MatchOption};
ghost use Rattle.mxml_items.specs.Runs.{IsRun, Lacks, SplitsAt, takes};

// A kind of bytes.
#[derive(Clone, Copy, PartialEq, Eq)]
pub enum ByteKind {
    // Space, TAB, LF and CR.
    White,
    // The bytes that names are made of, with `:`.
    Name,
    // The decimal digits.
    Decimal,
    // The hexadecimal digits.
    Hexadecimal,
    // All but `<` and `&`.
    Plain,
    // All but `<`, `&` and this one.
    PlainExcept(u8),
}

impl ByteKind {
    // Whether a byte is of this kind.
    pub fn takes(self, byte: u8) -> bool
        ensures { result ≡ takes self byte }
    {
        match self {
            ByteKind::White => matches!(byte, b' ' | b'\t' | b'\n' | b'\r'),
            ByteKind::Name => {
                byte >= 128
                    || byte.is_ascii_alphabetic()
                    || byte.is_ascii_digit()
                    || matches!(byte, b'_' | b'-' | b'.' | b':')
            }
            ByteKind::Decimal => byte.is_ascii_digit(),
            ByteKind::Hexadecimal => byte.is_ascii_hexdigit(),
            ByteKind::Plain => byte != b'<' && byte != b'&',
            ByteKind::PlainExcept(quote) => byte != b'<' && byte != b'&' && byte != quote,
        }
    }
}

// All bytes of a kind at the front of a text, and what stands behind them.
pub fn run(kind: ByteKind, text: &[u8]) -> (&[u8], &[u8])
    ensures { IsRun (takes kind) text.now result.0.now result.1.now }
{
    for i in 0..text.len() {
        if !kind.takes(text[i]) {
            return text.split_at(i);
        }
    }
    text.split_at(text.len())
}

// What stands behind a text's beginning.
pub fn behind<'a>(text: &'a [u8], beginning: &[u8]) -> Option<&'a [u8]>
    ensures { MatchOption result ((rest : List ℕ) → text.now ≢ beginning.now ++ rest) (λ rest. text.now ≡ beginning.now ++ rest.now) }
{
    text.strip_prefix(beginning)
}

// What stands before the first such mark, and behind it.
pub fn around<'a>(text: &'a [u8], mark: &[u8]) -> Option<(&'a [u8], &'a [u8])>
    ensures { MatchOption result (Lacks mark.now text.now) (λ r. SplitsAt mark.now text.now r.0.now r.1.now) }
{
    for i in 0..text.len() {
        let (front, back) = text.split_at(i);
        if let Some(rest) = behind(back, mark) {
            return Some((front, rest));
        }
    }
    let (whole, end) = text.split_at(text.len());
    let rest = behind(end, mark)?;
    Some((whole, rest))
}

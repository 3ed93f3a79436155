// Where the bytes of a text stand: in its parts, or outside them.

ghost use Rattle.std.specs.Prelude.{◌≡◌};
ghost use Rattle.document_sites.specs.BindingTexts.{next_is_brace};
ghost use Rattle.document_texts.specs.Scanning.{is_written, next_stand};

/// Where a byte of a text stands.
#[derive(Clone, Copy)]
pub enum Stand {
    Outside,
    /// Outside, behind a backslash that escapes it.
    Escaped,
    /// In a part in braces.
    Inside,
}

/// Where the byte behind this one stands.
pub fn next_stand(stand: Stand, byte: u8, others: &[u8]) -> Stand
    ensures { result ≡ next_stand stand byte others.now }
{
    match stand {
        Stand::Outside if byte == b'\\' && is_brace_next(others) => Stand::Escaped,
        Stand::Outside if byte == b'{' => Stand::Inside,
        Stand::Outside => Stand::Outside,
        Stand::Escaped => Stand::Outside,
        Stand::Inside if byte == b'}' => Stand::Outside,
        Stand::Inside => Stand::Inside,
    }
}

fn is_brace_next(others: &[u8]) -> bool
    ensures { result ≡ next_is_brace others.now }
{
    match others.first() {
        Some(byte) => *byte == b'{' || *byte == b'}',
        None => false,
    }
}

/// Whether a byte that stands so stands for itself, where the next one stands so.
pub fn is_written(stand: Stand, next: Stand) -> bool
    ensures { result ≡ is_written stand next }
{
    match stand {
        Stand::Outside => matches!(next, Stand::Outside),
        Stand::Escaped => true,
        Stand::Inside => false,
    }
}

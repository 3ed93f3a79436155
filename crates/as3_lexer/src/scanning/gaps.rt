// White space and comments.

ghost use Rattle.std.specs.Prelude.{◌≡◌, ◌≤◌, ◌+◌, ℕ, IfSome, length};
ghost use Rattle.std.specs.Option.{option_map};
ghost use Rattle.std.specs.List.{prefix_len};
ghost use Rattle.as3_lexer.specs.Forms.{is_blank, is_in_line};
ghost use Rattle.as3_lexer.specs.Scanning.{behind, closing_place, comment_len, gap_len};

// The length of the white space or the comment that begins a text.
pub fn gap_len(text: &str) -> Option<usize>
    ensures { result ≡ gap_len text.now }
{
    let blanks = blanks_len(text.as_bytes());
    if blanks > 0 {
        return Some(blanks);
    }
    comment_len(text)
}

// How many bytes at the front of a text are white space.
fn blanks_len(text: &[u8]) -> usize
    ensures { result ≡ prefix_len is_blank text.now }
{
    text.iter().take_while(|byte| is_blank(**byte)).count()
}

// Whether a byte is white space.
fn is_blank(byte: u8) -> bool
    ensures { result ≡ is_blank byte }
{
    matches!(byte, b' ' | b'\t' | b'\n' | b'\r' | 0x0C)
}

// The length of the comment that begins a text.
fn comment_len(text: &str) -> Option<usize>
    ensures { result ≡ comment_len text.now }
{
    if let Some(content) = behind(text, "//") {
        return Some(line_len(content.as_bytes()) + 2);
    }
    let content = behind(text, "/*")?;
    Some(closing_place(content)? + 4)
}

// How many bytes stand before the first line end.
fn line_len(text: &[u8]) -> usize
    ensures value { result ≡ prefix_len is_in_line text.now }
    ensures within { result ≤ length text.now }
{
    text.iter().take_while(|byte| **byte != b'\n').count()
}

// The place of the first `*/`.
fn closing_place(text: &str) -> Option<usize>
    ensures place { result ≡ closing_place text.now }
    ensures within { IfSome result (λ place. place + 2 ≤ length text.now) }
{
    text.find("*/")
}

// What stands behind a front of a text.
pub fn behind<'a>(text: &'a str, front: &str) -> Option<&'a str>
    ensures value { option_map (λ rest. rest.now) result ≡ behind front.now text.entry.now }
    ensures len { IfSome result (λ rest. length rest.now + length front.now ≡ length text.entry.now) }
{
    text.strip_prefix(front)
}

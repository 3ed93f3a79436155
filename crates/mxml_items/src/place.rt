// Lines and columns.

ghost use Rattle.std.specs.Prelude.{◌≡◌, ◌<◌, ◌≤◌, ◌^◌, ◌-◌, length};
ghost use Rattle.mxml_items.specs.Places.{place_of};

/// The line and the column of a byte of a text, or of its end; both from 1. A line is ended by LF
/// and by nothing else, and a column is a byte. This project's own.
pub fn place_of(text: &[u8], at: usize) -> (u32, u32)
    requires within { at ≤ length text.now }
    requires short { length text.now < 2 ^ 32 - 1 }
    ensures line { result.0 ≡ (place_of text.now at).line }
    ensures column { result.1 ≡ (place_of text.now at).column }
{
    let mut line = 1;
    let mut column = 1;
    for byte in &text[..at] {
        if *byte == b'\n' {
            line += 1;
            column = 1;
        } else {
            column += 1;
        }
    }
    (line, column)
}

// Where the bytes of a text of code stand.

ghost use Rattle.std.specs.Prelude.{◌<◌};
ghost use Rattle.member_checks.specs.Rooms.{room};

/// The hexadecimal digits of a character's number: how many there are behind the next one, and the
/// number that those before it give.
#[derive(Clone, Copy)]
pub struct Digits {
    pub others: u8,
    pub number: u32,
    pub ghost few: { number < room others },
}

/// Where a byte of a text stands.
#[derive(Clone, Copy)]
pub enum Stand {
    Itself,
    BehindBackslash,
    Digit(Digits),
}

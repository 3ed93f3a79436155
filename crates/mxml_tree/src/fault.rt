// What is wrong with a document.

ghost use Rattle.std.specs.Prelude.{◌≡◌};
ghost use Rattle.mxml_tree.specs.CodeNames.{name_of};

use flex_base::NoMemory;

/// Why a text is no document.
#[derive(Clone, Copy, Debug, PartialEq, Eq)]
pub enum TreeCode {
    /// It isn't UTF-8 from this byte on.
    NotUtf8,
    /// `<!DOCTYPE` begins here, which has no place in MXML.
    Doctype,
    /// No item begins here.
    NotAnItem,
    /// Outside the root stands a text that isn't white space, CDATA, or a second element.
    TextOutside,
    /// An element lies in 64 others.
    TooDeep,
    /// Two attributes of a tag have the same written name.
    DuplicateAttribute,
    /// The prefix of an element or of an attribute isn't declared.
    UnknownPrefix,
    /// An end tag hasn't the name of the innermost open element, or none is open.
    WrongEnd,
    /// An element is open where the text ends.
    Unclosed,
    /// There is no element.
    NoRoot,
}

impl TreeCode {
    /// Its name, as it is printed.
    pub fn name(self) -> &'static str
        ensures { result.now ≡ name_of self }
    {
        match self {
            TreeCode::NotUtf8 => "NotUtf8",
            TreeCode::Doctype => "Doctype",
            TreeCode::NotAnItem => "NotAnItem",
            TreeCode::TextOutside => "TextOutside",
            TreeCode::TooDeep => "TooDeep",
            TreeCode::DuplicateAttribute => "DuplicateAttribute",
            TreeCode::UnknownPrefix => "UnknownPrefix",
            TreeCode::WrongEnd => "WrongEnd",
            TreeCode::Unclosed => "Unclosed",
            TreeCode::NoRoot => "NoRoot",
        }
    }
}

/// Why there is no tree.
#[derive(Clone, Copy, Debug, PartialEq, Eq)]
pub enum TreeRefusal {
    /// The first fault of the text.
    Fault {
        code: TreeCode,
        /// The place of its first byte in the file, in bytes from 0; of `Unclosed` and `NoRoot` the
        /// file's length.
        at: usize,
    },
    NoMemory,
}

impl From<NoMemory> for TreeRefusal {
    ghost use Rattle.std.specs.Prelude.{◌≡◌};
    ghost use Rattle.mxml_tree.specs.declared.fault.TreeRefusal.TheVariants as refusal;

    ghost from_gives = { λ error r. r ≡ refusal.NoMemory };

    fn from(_error: NoMemory) -> TreeRefusal {
        TreeRefusal::NoMemory
    }
}

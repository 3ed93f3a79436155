// Items, as they stand in the bytes of a file.

use flex_base::Sequence;

/// An attribute as it is written.
#[derive(Clone, Copy)]
pub struct Attribute<'a> {
    /// The place of its name in the file, in bytes from 0.
    pub at: usize,
    /// Its name, with its prefix.
    pub name: &'a str,
    /// What stands between its quotes, references and line ends as they are written.
    pub value: &'a [u8],
}

/// An item of a document. XML 1.0, in the profile of this project.
#[derive(Drop)]
pub enum Item<'a> {
    /// `<?` up to the first `?>`.
    Instruction,
    /// `<!--` up to the first `-->`.
    Comment,
    /// What stands between `<![CDATA[` and the first `]]>`.
    CData(&'a [u8]),
    /// A start tag, or an empty element.
    Tag {
        /// Its name, with its prefix.
        name: &'a str,
        /// Its attributes in text order, those that declare namespaces among them.
        attributes: Sequence<Attribute<'a>>,
        /// Whether it ends with `/>`.
        empty: bool,
    },
    /// An end tag with this name.
    EndTag(&'a str),
    /// One or more characters other than `<`, in which `&` begins a reference, as they are written.
    Words(&'a [u8]),
}

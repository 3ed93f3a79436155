// Names with a state behind a dot.

ghost use Rattle.std.specs.Prelude.{◌≡◌};
ghost use Rattle.document_sites.specs.Attributes.{dotted_name};
ghost use Rattle.document_tags.specs.Kinds.{dotted_as};

/// A name with what stands behind its first dot, if there is one.
#[derive(Clone, Copy)]
pub struct Dotted<'a> {
    pub name: &'a str,
    pub state: Option<&'a str>,
}

/// The parts of a name, as `label.off`. Using Flex 4.
pub fn dotted_name(text: &str) -> Dotted<'_>
    ensures { dotted_as result ≡ dotted_name text.now }
{
    match text.split_once('.') {
        Some((name, state)) => Dotted {
            name,
            state: Some(state),
        },
        None => Dotted {
            name: text,
            state: None,
        },
    }
}

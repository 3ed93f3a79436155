// Whether texts may stand where they do.

ghost use Rattle.std.specs.Prelude.{◌≡◌};
ghost use Rattle.as3_types.specs.Types.{type_of};
ghost use Rattle.document_tags.specs.declared.document.DocumentClass.{DocumentClass};
ghost use Rattle.document_tags.specs.Placing.{text_in_literal, text_in_property, text_right};
ghost use Rattle.document_tags.specs.Tags.{before_as, holds_as, standing_as};

use crate::standing::{Before, Holds, Standing};
use as3_types::ValueType;

/// Whether a text may stand in a tag, behind what stands before it there.
pub fn text_right(standing: Standing, before: Before) -> bool
    ensures { (d : DocumentClass) → result ≡ text_right d (standing_as standing.entry) (before_as before) }
{
    match standing {
        Standing::PropertyTag(_, holds) => text_in_property(holds, before),
        Standing::Script => true,
        Standing::Metadata => true,
        Standing::StateProperty => !before.text,
        Standing::Literal(kind, _) => text_in_literal(kind, before),
        Standing::Unknown => true,
        _ => false,
    }
}

fn text_in_property(holds: Holds, before: Before) -> bool
    ensures { (d : DocumentClass) → result ≡ text_in_property d (holds_as holds) (before_as before) }
{
    match holds {
        Holds::Words => !before.text,
        Holds::OneInstance(_) => !before.any,
        Holds::ArrayItems => false,
    }
}

fn text_in_literal(kind: ValueType, before: Before) -> bool
    ensures { (d : DocumentClass) → result ≡ text_in_literal d (type_of kind) (before_as before) }
{
    match kind {
        ValueType::Array => false,
        _ => !before.text,
    }
}

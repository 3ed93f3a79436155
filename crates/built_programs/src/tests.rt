// Programs of small documents.

ghost use Rattle.std.specs.Prelude.{◌≤◌, IfOk, length};

use crate::source_program;
use flex_base::{NoMemory, Sequence, Text};
use flex_front::{Document, Element};
use std::alloc::Global;
use std::test::Fail;

fn document(alloc: Global) -> Result<Document, NoMemory>
    ensures { IfOk result (λ document. length document.elements ≤ 100) }
{
    let mut elements = Sequence::new(alloc);
    elements.push(Element::Label {
        id: Text::make(alloc, "greeting")?,
        text: Text::make(alloc, "Hi")?,
    })?;
    elements.push(Element::Button {
        id: Text::make(alloc, "save")?,
        click: Some(Text::make(alloc, "saved")?),
    })?;
    elements.push(Element::Button {
        id: Text::make(alloc, "idle")?,
        click: None,
    })?;
    elements.push(Element::Button {
        id: Text::make(alloc, "undo")?,
        click: Some(Text::make(alloc, "undone")?),
    })?;
    Ok(Document { elements })
}

#[test]
fn a_document_has_a_program(rt: HostRuntime) -> Result<(), Fail> {
    let alloc = rt.alloc();
    let program = source_program(alloc, &document(alloc)?)?;
    assert_eq!(rt; program.classes().len(), 1);
    assert_eq!(rt; program.methods().len(), 2);
    assert_eq!(rt; program.main(), 0);
    for class in program.classes() {
        assert_eq!(rt; class.name(), "Main");
        assert_eq!(rt; class.variables().len(), 4);
        if let Some(document) = class.document() {
            assert_eq!(rt; document.root().contents().len(), 4);
        }
    }
    Ok(())
}

// The bases of the classes of files.

ghost use Rattle.std.specs.Prelude.{◌≡◌, IfOk};
ghost use Rattle.source_sites.specs.Bases.{base_meaning};
ghost use Rattle.source_sites.specs.Names.{class_of};
ghost use Rattle.as3_types.specs.Meanings.{meaning_of};
ghost use Rattle.read_sources.specs.Read.{content_seen, tree_seen};
ghost use Rattle.named_sources.specs.Named.{AreBases, bases_read};

use as3_types::{Meaning, class_of_tag, written_base};
use flex_base::{NoMemory, Sequence};
use flex_world::Class;
use mxml_tree::{Node, NodeKind};
use read_sources::{ReadContent, ReadFile};
use source_sites::NamedClass;
use std::alloc::Global;

/// The base of the class of each file, in the order of the files: of a document the class of its
/// root. `None` where what it names is no class, or State.
pub fn bases_of(
    alloc: Global,
    classes: &[NamedClass],
    files: &[ReadFile],
) -> Result<Sequence<Option<Class>>, NoMemory>
    ensures { IfOk result (AreBases classes.now files.now) }
{
    let bases = bases_by_content(alloc, classes, files)?;
    Ok(bases)
}

fn bases_by_content(
    alloc: Global,
    classes: &[NamedClass],
    files: &[ReadFile],
) -> Result<Sequence<Option<Class>>, NoMemory>
    ensures { IfOk result (λ bases. bases ≡ bases_read classes.now classes.now files.now) }
{
    let mut bases = Sequence::new(alloc);
    let mut named = classes;
    let mut rest = files;
    while let Some((file, behind)) = rest.split_first() {
        let Some((here, others)) = named.split_first() else {
            return Ok(bases);
        };
        let base = base_of_content(alloc, classes, here, &file.content)?;
        bases.push(class_meant(base))?;
        named = others;
        rest = behind;
    }
    Ok(bases)
}

fn class_meant(meaning: Meaning) -> Option<Class>
    ensures { result ≡ class_of (meaning_of meaning) }
{
    match meaning {
        Meaning::NoClass => None,
        Meaning::State => None,
        Meaning::Class(class) => Some(class),
    }
}

// What the root of a document, or the base of a class file, names.
fn base_of_content(
    alloc: Global,
    classes: &[NamedClass],
    here: &NamedClass,
    content: &ReadContent,
) -> Result<Meaning, NoMemory>
    ensures { IfOk result (λ base. meaning_of base ≡ base_meaning classes.now here.now (content_seen content.now)) }
{
    match content {
        ReadContent::Document(document) => {
            let base = base_of_root(classes, here, document.tree.nodes())?;
            Ok(base)
        }
        ReadContent::ClassFile(parsed) => {
            let base = written_base(alloc, classes, here, &parsed.file.class.base)?;
            Ok(base)
        }
    }
}

// What the root among nodes names, which is the first of them.
fn base_of_root(
    classes: &[NamedClass],
    here: &NamedClass,
    nodes: &[Node],
) -> Result<Meaning, NoMemory>
    ensures { IfOk result (λ base. meaning_of base ≡ base_meaning classes.now here.now (tree_seen nodes.now)) }
{
    let Some(root) = nodes.first() else {
        return Ok(Meaning::NoClass);
    };
    match &root.kind {
        NodeKind::Element(tag) => {
            let base = class_of_tag(classes, tag)?;
            Ok(base)
        }
        NodeKind::Characters(_) => Ok(Meaning::NoClass),
    }
}

// The rules of the class of one file.

ghost use Rattle.std.specs.Prelude.{◌≡◌, ◌<◌, IfOk, length};
ghost use Rattle.read_sources.specs.Read.{content_seen, tree_seen};
ghost use Rattle.class_checks.specs.CodeSites.{class_site, parsed_site, root_site};

use as3_types::{check_class_file, check_root, class_of_tag, written_base};
use flex_base::NoMemory;
use flex_world::Class;
use mxml_tree::{Element, Node, NodeKind};
use read_sources::ReadContent;
use source_sites::{NamedClass, ParsedClass, Site};
use std::alloc::Global;

/// The first broken rule of the class of a file, which has this number: of a document those of its
/// root.
pub fn check_class(
    alloc: Global,
    classes: &[NamedClass],
    bases: &[Option<Class>],
    file: u32,
    here: &NamedClass,
    content: &ReadContent,
) -> Result<Option<Site>, NoMemory>
    requires { file < length classes.now }
    ensures { IfOk result (λ site. site ≡ class_site classes.now bases.now file here.now (content_seen content.now)) }
{
    match content {
        ReadContent::Document(document) => {
            let site = check_root_of(classes, bases, file, here, document.tree.nodes())?;
            Ok(site)
        }
        ReadContent::ClassFile(parsed) => {
            let site = check_parsed(alloc, classes, bases, file, here, parsed)?;
            Ok(site)
        }
    }
}

/// The first broken rule of the class of a document with these nodes, of which the first is its
/// root.
pub fn check_root_of(
    classes: &[NamedClass],
    bases: &[Option<Class>],
    file: u32,
    here: &NamedClass,
    nodes: &[Node],
) -> Result<Option<Site>, NoMemory>
    requires { file < length classes.now }
    ensures { IfOk result (λ site. site ≡ class_site classes.now bases.now file here.now (tree_seen nodes.now)) }
{
    let Some(root) = nodes.first() else {
        return Ok(None);
    };
    match &root.kind {
        NodeKind::Element(tag) => {
            let site = check_root_tag(classes, bases, file, here, root.at, tag)?;
            Ok(site)
        }
        NodeKind::Characters(_) => Ok(None),
    }
}

fn check_root_tag(
    classes: &[NamedClass],
    bases: &[Option<Class>],
    file: u32,
    here: &NamedClass,
    at: usize,
    tag: &Element,
) -> Result<Option<Site>, NoMemory>
    requires { file < length classes.now }
    ensures { IfOk result (λ site. site ≡ root_site classes.now bases.now file here.now at tag.now) }
{
    let base = class_of_tag(classes, tag)?;
    Ok(check_root(classes, bases, file, here, at, base))
}

fn check_parsed(
    alloc: Global,
    classes: &[NamedClass],
    bases: &[Option<Class>],
    file: u32,
    here: &NamedClass,
    parsed: &ParsedClass,
) -> Result<Option<Site>, NoMemory>
    requires { file < length classes.now }
    ensures { IfOk result (λ site. site ≡ parsed_site classes.now bases.now file here.now parsed.now) }
{
    let base = written_base(alloc, classes, here, &parsed.file.class.base)?;
    let site = check_class_file(alloc, classes, bases, file, here, parsed, base)?;
    Ok(site)
}

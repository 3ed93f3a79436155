// Read files whose table is made, and whose rules hold or are broken.

use crate::check_code;
use as3_lexer::{LexRefusal, tokens};
use as3_parser::{ParseRefusal, parse_class_file};
use flex_base::{Names, NoMemory, Sequence, Text};
use mxml_tree::{TreeRefusal, read_tree};
use read_sources::{ReadContent, ReadDocument, ReadFile, SourcePath};
use source_sites::{Code, ParsedClass, Site};
use source_table::table_of_files;
use std::alloc::Global;
use std::test::Fail;

const DOCUMENT: &str =
    "<s:Application id='no' xmlns:s='library://ns.adobe.com/flex/spark'><s:Button id='go'/></s:Application>";

fn path(alloc: Global, name: &str, is_document: bool) -> Result<SourcePath, NoMemory> {
    let mut names = Names::new(alloc);
    names.push(Text::make(alloc, name)?)?;
    Ok(SourcePath { names, is_document })
}

fn document(alloc: Global) -> Result<Option<ReadFile>, NoMemory> {
    let tree = match read_tree(alloc, DOCUMENT.as_bytes()) {
        Ok(tree) => tree,
        Err(TreeRefusal::NoMemory) => return Err(NoMemory),
        Err(TreeRefusal::Fault { .. }) => return Ok(None),
    };
    let path = path(alloc, "Main", true)?;
    let document = ReadDocument {
        tree,
        scripts: Sequence::new(alloc),
        metadata: Sequence::new(alloc),
    };
    let content = ReadContent::Document(document);
    Ok(Some(ReadFile { path, content }))
}

// The class file of B. Its package begins with its first byte, and its class at byte 8.
fn class(alloc: Global, text: &str) -> Result<Option<ReadFile>, NoMemory> {
    let tokens = match tokens(alloc, text) {
        Ok(tokens) => tokens,
        Err(LexRefusal::NoMemory) => return Err(NoMemory),
        Err(LexRefusal::BadToken(_)) => return Ok(None),
    };
    let file = match parse_class_file(alloc, text, &tokens) {
        Ok(file) => file,
        Err(ParseRefusal::NoMemory) => return Err(NoMemory),
        Err(_) => return Ok(None),
    };
    let path = path(alloc, "B", false)?;
    let content = ReadContent::ClassFile(ParsedClass {
        package_at: 0,
        class_at: 8,
        file,
    });
    Ok(Some(ReadFile { path, content }))
}

fn files(alloc: Global, text: &str) -> Result<Sequence<ReadFile>, NoMemory> {
    let mut files = Sequence::new(alloc);
    if let Some(file) = document(alloc)? {
        files.push(file)?;
    }
    if let Some(file) = class(alloc, text)? {
        files.push(file)?;
    }
    Ok(files)
}

#[test]
fn table_has_members_of_code_and_ids(rt: HostRuntime) -> Result<(), Fail> {
    let files = files(rt.alloc(), "package{public class B{public var a:int,b:B;}}")?;
    let table = table_of_files(rt.alloc(), files.as_slice())?;
    assert_eq!(rt; table.classes.len(), 2);
    let mut counts = [0, 0];
    for (n, members) in table.members.as_slice().iter().enumerate() {
        if n < 2 {
            counts[n] = members.len();
        }
    }
    assert_eq!(rt; counts, [1, 2]);
    Ok(())
}

#[test]
fn rules_hold_or_are_broken(rt: HostRuntime) -> Result<(), Fail> {
    let right = files(rt.alloc(), "package{public class B{public var a:int;}}")?;
    assert_eq!(rt; check_code(rt.alloc(), right.as_slice())?, None);
    let wrong = files(rt.alloc(), "package{public class C{public var a:int;}}")?;
    let site = Site {
        file: 1,
        at: 21,
        code: Code::WrongClassName,
    };
    assert_eq!(rt; check_code(rt.alloc(), wrong.as_slice())?, Some(site));
    Ok(())
}

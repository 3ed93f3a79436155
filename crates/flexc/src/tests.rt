// Whole commands over files and a sink in memory.

use crate::command::command;
use flex_base::{Bytes, NoMemory, Sequence, Text};
use flex_edge::{FileList, MemoryFiles, MemorySink, Numbers};
use std::alloc::Global;
use std::test::Fail;

const WORDS: &[&str] = &[
    "run",
    "--script",
    "empty.txt",
    "--out",
    "hello.swf",
    "Main.mxml",
];

const OPENING: &str =
    "<s:Application xmlns:fx=\"http://ns.adobe.com/mxml/2009\" xmlns:s=\"library://ns.adobe.com/flex/spark\">";

const LABEL: &str = "<s:Label id=\"greeting\" text=\"Hi\"/>";

const CLOSING: &str = "</s:Application>";

const TRACE: &str =
    "new 1 Main\nnew 2 Label\nset 1.greeting #2\nset 2.text \"Hi\"\nadd 1 2 0\nend\n";

// How the files and the sink behave: the greatest number of bytes that a call takes, and the
// numbers of the calls that fail, or 0.
#[derive(Clone, Copy)]
struct Outside {
    most: usize,
    fails: u64,
    sink_fails: u64,
}

const FAIR: Outside = Outside {
    most: 4096,
    fails: 0,
    sink_fails: 0,
};

// What a command left.
#[derive(Drop)]
struct Left {
    status: u8,
    files: MemoryFiles,
    sink: MemorySink,
}

impl Left {
    // Fails unless the command ended with this status and printed this text.
    fn shows(&self, status: u8, printed: &str) -> Result<(), &'static str> {
        self.shows_bytes(status, printed.as_bytes())
    }

    fn shows_bytes(&self, status: u8, printed: &[u8]) -> Result<(), &'static str> {
        if self.status != status {
            return Err("another status");
        }
        if self.sink.taken().as_slice() != printed {
            return Err("another text");
        }
        Ok(())
    }

    // Fails unless the command ended with this status and printed this at last.
    fn ends(&self, status: u8, ending: &str) -> Result<(), &'static str> {
        if self.status != status {
            return Err("another status");
        }
        if !self.sink.taken().as_slice().ends_with(ending.as_bytes()) {
            return Err("another ending");
        }
        Ok(())
    }

    // Fails unless the command ended with this status, printed this text and made no file.
    fn refuses(&self, status: u8, printed: &str) -> Result<(), &'static str> {
        if self.files.file("hello.swf").is_some() {
            return Err("a file was made");
        }
        self.shows(status, printed)
    }

    // Fails unless the command ended with status 8 after it printed so many bytes of this text.
    fn is_cut(&self, taken: u64, whole: &str) -> Result<(), &'static str> {
        let printed = self.sink.taken().as_slice();
        if self.status != 8 {
            return Err("another status");
        }
        if printed.len() as u64 != taken {
            return Err("another length");
        }
        if !whole.as_bytes().starts_with(printed) {
            return Err("another text");
        }
        Ok(())
    }

    // Fails unless the written file has its tags around the ABC, and says its lengths.
    fn is_laid_out(&self) -> Result<(), &'static str> {
        let file = self.written()?;
        if file.len() < 67 || !file.starts_with(MAGIC) || !file.ends_with(END) {
            return Err("another form");
        }
        if &file[8..34] != START || &file[38..52] != BEFORE_ABC {
            return Err("other tags");
        }
        let whole = u32::from_le_bytes([file[4], file[5], file[6], file[7]]) as usize;
        let program = u32::from_le_bytes([file[34], file[35], file[36], file[37]]) as usize;
        if whole != file.len() || program != file.len() - 53 {
            return Err("other lengths");
        }
        Ok(())
    }

    // The bytes of the written file.
    fn written(&self) -> Result<&[u8], &'static str> {
        Ok(self.files.file("hello.swf").ok_or("no file")?.as_slice())
    }
}

// The command over a source of this name with these elements, and a script.
fn perform(
    alloc: Global,
    words: &[&str],
    name: &str,
    elements: &str,
    script: &[u8],
) -> Result<Left, NoMemory> {
    let source = source(alloc, elements)?;
    let script = Bytes::from_vec(Vec::from_slice(alloc, script)?);
    let files = files(alloc, name, source, script)?;
    perform_on(alloc, words, files, FAIR)
}

// The source with these elements.
fn source(alloc: Global, elements: &str) -> Result<Bytes, NoMemory> {
    let mut source = Bytes::new(alloc);
    source.extend(OPENING.as_bytes())?;
    source.extend(elements.as_bytes())?;
    source.extend(CLOSING.as_bytes())?;
    Ok(source)
}

fn files(alloc: Global, name: &str, source: Bytes, script: Bytes) -> Result<FileList, NoMemory> {
    let mut list = Sequence::new(alloc);
    list.push((Text::make(alloc, name)?, source))?;
    list.push((Text::make(alloc, "empty.txt")?, script))?;
    Ok(list)
}

fn perform_on(
    alloc: Global,
    words: &[&str],
    list: FileList,
    outside: Outside,
) -> Result<Left, NoMemory> {
    let most = outside.most.max(1);
    let mut files = MemoryFiles::new(alloc, list, failing(alloc, outside.fails)?, most);
    let mut sink = MemorySink::new(alloc, failing(alloc, outside.sink_fails)?, most);
    let words = owned(alloc, words)?;
    let mut observers = Vec::new(alloc);
    let status = command(
        alloc,
        words.as_slice(),
        &mut files,
        &mut sink,
        &mut observers,
    )
    .0;
    Ok(Left {
        status,
        files,
        sink,
    })
}

fn failing(alloc: Global, number: u64) -> Result<Numbers, NoMemory> {
    let mut numbers = Sequence::new(alloc);
    if number > 0 {
        numbers.push(number)?;
    }
    Ok(numbers)
}

fn owned(alloc: Global, words: &[&str]) -> Result<Vec<String>, NoMemory> {
    let mut all = Vec::new(alloc);
    for word in words {
        all.push(String::from_str(alloc, word)?)?;
    }
    Ok(all)
}

const NOT_YET: &str = "Main.mxml:1:1: NotYetBuilt\n";

const SCRIPT_NOT_YET: &str = "script:1: not yet built\n";

const SOURCE_UNREAD: &str = "cannot read Main.mxml\n";

const SCRIPT_UNREAD: &str = "cannot read empty.txt\n";

const UNWRITTEN: &str = "cannot write hello.swf\n";

const BAD_USAGE: &str = "flexc: bad usage\n";

#[test]
fn a_label_is_made(rt: HostRuntime) -> Result<(), Fail> {
    let left = perform(rt.alloc(), WORDS, "Main.mxml", LABEL, b"")?;
    left.shows(0, TRACE)?;
    Ok(())
}

#[test]
fn an_empty_text_is_not_written(rt: HostRuntime) -> Result<(), Fail> {
    let label = "<s:Label id=\"a\" text=\"\"/>";
    let left = perform(rt.alloc(), WORDS, "Main.mxml", label, b"")?;
    left.shows(0, "new 1 Main\nnew 2 Label\nset 1.a #2\nadd 1 2 0\nend\n")?;
    Ok(())
}

#[test]
fn elements_are_made_in_order(rt: HostRuntime) -> Result<(), Fail> {
    let elements = "<s:Button id=\"go\"/><s:Label id=\"a\" text=\"1\"/>";
    let left = perform(rt.alloc(), WORDS, "Main.mxml", elements, b"")?;
    left.shows(
        0,
        "new 1 Main\nnew 2 Button\nset 1.go #2\nadd 1 2 0\nnew 3 Label\nset 1.a #3\nset 3.text \"1\"\nadd 1 3 1\nend\n",
    )?;
    let left = perform(rt.alloc(), WORDS, "Main.mxml", "", b"")?;
    left.shows(0, "new 1 Main\nend\n")?;
    Ok(())
}

// The command with so many turns, over a source with these elements and a script.
fn perform_turns(
    alloc: Global,
    turns: &str,
    elements: &str,
    script: &[u8],
) -> Result<Left, NoMemory> {
    let words = [
        "run",
        "--script",
        "empty.txt",
        "--out",
        "hello.swf",
        "--turns",
        turns,
        "Main.mxml",
    ];
    perform(alloc, &words, "Main.mxml", elements, script)
}

#[test]
fn turns_are_spent(rt: HostRuntime) -> Result<(), Fail> {
    for turns in ["0", "1", "0000000001"] {
        perform_turns(rt.alloc(), turns, LABEL, b"")?.shows(6, "new 1 Main\nturns\n")?;
    }
    for turns in ["2", "1000000000"] {
        perform_turns(rt.alloc(), turns, LABEL, b"")?.shows(0, TRACE)?;
    }
    for turns in ["1000000001", "00000000002", "", "-1", "2x"] {
        perform_turns(rt.alloc(), turns, LABEL, b"")?.refuses(2, BAD_USAGE)?;
    }
    Ok(())
}

#[test]
fn other_sources_are_not_yet_built(rt: HostRuntime) -> Result<(), Fail> {
    let cases = [
        "<s:Label id=\"greeting\" text=\"Hi\">.</s:Label>",
        "\n<fx:Script>public var n:int = 1;</fx:Script>\n",
        "<s:Button id=\"go\" click=\"trace(on)\"/>",
        "<s:Button id=\"go\" click=\"\"/>",
    ];
    for elements in cases {
        let left = perform(rt.alloc(), WORDS, "Main.mxml", elements, b"x")?;
        left.refuses(3, NOT_YET)?;
    }
    Ok(())
}

#[test]
fn the_first_fault_is_told_with_its_place(rt: HostRuntime) -> Result<(), Fail> {
    let elements = "\n<fx:Script>public var n:int = \"x\";</fx:Script>\n<s:Label></s:Button>\n";
    let left = perform(rt.alloc(), WORDS, "Main.mxml", elements, b"x")?;
    left.refuses(3, "Main.mxml:3:10: WrongEnd\n")?;
    Ok(())
}

#[test]
fn a_source_stands_in_several_lines(rt: HostRuntime) -> Result<(), Fail> {
    let elements =
        "\r\n    <!-- one -->\r\n    <s:Label text='Hi'\n             id='greeting'></s:Label>\r\n";
    let left = perform(rt.alloc(), WORDS, "Main.mxml", elements, b"")?;
    left.shows(0, TRACE)?;
    Ok(())
}

#[test]
fn lines_that_say_nothing_are_skipped(rt: HostRuntime) -> Result<(), Fail> {
    let scripts: [&[u8]; 4] = [b"\n", b"\r\n\n", b"#", b"#click greeting\r\n\n# \xc3\xa9\n"];
    for script in scripts {
        let left = perform(rt.alloc(), WORDS, "Main.mxml", LABEL, script)?;
        left.shows(0, TRACE)?;
    }
    Ok(())
}

const OTHER_LINES: &[&[u8]] = &[
    b"press a",
    b" ",
    b"\r",
    b"#\xff\n",
    b" #\n",
    b"click",
    b"click ",
    b"click  a",
    b"click a ",
    b"click if",
    b"click a.b\n",
    b"click a\r",
];

#[test]
fn other_lines_are_not_yet_played(rt: HostRuntime) -> Result<(), Fail> {
    for script in OTHER_LINES {
        let left = perform(rt.alloc(), WORDS, "Main.mxml", LABEL, script)?;
        left.refuses(4, SCRIPT_NOT_YET)?;
    }
    let fourth = b"#a\n\r\nclick a\nclick A\nclick B\n";
    let left = perform(rt.alloc(), WORDS, "Main.mxml", LABEL, fourth)?;
    left.refuses(4, "script:4: not yet built\n")?;
    Ok(())
}

const GREETER: &str = "<s:Button id=\"go\" click=\"trace('hi')\"/>";

const TWO_CLICKS: &[u8] = b"click go\nclick no\n";

#[test]
fn a_click_is_heard_and_another_missed(rt: HostRuntime) -> Result<(), Fail> {
    let left = perform(rt.alloc(), WORDS, "Main.mxml", GREETER, TWO_CLICKS)?;
    left.shows(
        0,
        "new 1 Main\nnew 2 Button\nset 1.go #2\nadd 1 2 0\nuser click go\nevent 2 click\nhear 2 click 2\ntrace \"hi\"\nuser click no\nmiss no\nend\n",
    )?;
    Ok(())
}

#[test]
fn a_handler_takes_a_turn(rt: HostRuntime) -> Result<(), Fail> {
    let left = perform_turns(rt.alloc(), "2", GREETER, TWO_CLICKS)?;
    left.shows(
        6,
        "new 1 Main\nnew 2 Button\nset 1.go #2\nadd 1 2 0\nuser click go\nevent 2 click\nturns\n",
    )?;
    let left = perform_turns(rt.alloc(), "3", GREETER, TWO_CLICKS)?;
    left.shows(
        0,
        "new 1 Main\nnew 2 Button\nset 1.go #2\nadd 1 2 0\nuser click go\nevent 2 click\nhear 2 click 2\ntrace \"hi\"\nuser click no\nmiss no\nend\n",
    )?;
    Ok(())
}

#[test]
fn each_element_has_its_own_handler(rt: HostRuntime) -> Result<(), Fail> {
    let elements =
        "<s:Button id=\"a\" click=\"trace('one')\"/><s:Label id=\"b\" text=\"\"/><s:Button id=\"c\"/><s:Button id=\"building\" click=\"trace('two')\"/>";
    let script = b"# each of them\r\nclick building\r\nclick b\nclick c\n\nclick a";
    let left = perform(rt.alloc(), WORDS, "Main.mxml", elements, script)?;
    left.shows(
        0,
        "new 1 Main\nnew 2 Button\nset 1.a #2\nadd 1 2 0\nnew 3 Label\nset 1.b #3\nadd 1 3 1\nnew 4 Button\nset 1.c #4\nadd 1 4 2\nnew 5 Button\nset 1.building #5\nadd 1 5 3\nuser click building\nevent 5 click\nhear 5 click 2\ntrace \"two\"\nuser click b\nevent 3 click\nuser click c\nevent 4 click\nuser click a\nevent 2 click\nhear 2 click 2\ntrace \"one\"\nend\n",
    )?;
    Ok(())
}

#[test]
fn properties_that_are_no_ids_are_missed(rt: HostRuntime) -> Result<(), Fail> {
    let left = perform(
        rt.alloc(),
        WORDS,
        "Main.mxml",
        "",
        b"click visible\nclick parent\n",
    )?;
    left.shows(
        0,
        "new 1 Main\nuser click visible\nmiss visible\nuser click parent\nmiss parent\nend\n",
    )?;
    Ok(())
}

// The command over a source with a Button, and a script of so many clicks on it.
fn perform_clicks(alloc: Global, count: usize) -> Result<Left, NoMemory> {
    let source = source(alloc, "<s:Button id=\"a\"/>")?;
    let mut script = Bytes::new(alloc);
    for _ in 0..count {
        script.extend(b"click a\n")?;
    }
    let list = files(alloc, "Main.mxml", source, script)?;
    perform_on(alloc, WORDS, list, FAIR)
}

// The main object costs 17 cells and the Button 16, so that 62,497 events of 16 cells have their
// place among 1,000,000.
#[test]
fn the_cells_hold_so_many_events(rt: HostRuntime) -> Result<(), Fail> {
    perform_clicks(rt.alloc(), 62_497)?.ends(0, "user click a\nevent 2 click\nend\n")?;
    perform_clicks(rt.alloc(), 62_498)?.ends(1, "event 2 click\nuser click a\nstop Cells\n")?;
    Ok(())
}

const SEVEN: &[&str] = &[
    "run",
    "--script",
    "empty.txt",
    "--out",
    "hello.swf",
    "Main.mxml",
    "A.as",
];

const NO_SCRIPT: &[&str] = &[
    "run",
    "--script",
    "none.txt",
    "--out",
    "hello.swf",
    "Main.mxml",
];

const OTHER_MAIN: &[&str] = &[
    "run",
    "--script",
    "empty.txt",
    "--out",
    "hello.swf",
    "Other.mxml",
];

#[test]
fn words_of_no_command(rt: HostRuntime) -> Result<(), Fail> {
    let cases: [&[&str]; 3] = [&[], &["fly"], SEVEN];
    for words in cases {
        let left = perform(rt.alloc(), words, "Main.mxml", LABEL, b"")?;
        left.refuses(2, BAD_USAGE)?;
    }
    Ok(())
}

#[test]
fn files_that_do_not_stand(rt: HostRuntime) -> Result<(), Fail> {
    let left = perform(rt.alloc(), WORDS, "main.mxml", LABEL, b"")?;
    left.refuses(7, SOURCE_UNREAD)?;
    let left = perform(rt.alloc(), NO_SCRIPT, "Main.mxml", LABEL, b"")?;
    left.refuses(7, "cannot read none.txt\n")?;
    Ok(())
}

#[test]
fn main_has_its_name(rt: HostRuntime) -> Result<(), Fail> {
    let left = perform(rt.alloc(), OTHER_MAIN, "Other.mxml", LABEL, b"")?;
    left.refuses(3, "Other.mxml:1:1: NotYetBuilt\n")?;
    Ok(())
}

// The command over a source with a Label whose id and text have these lengths.
fn perform_lengths(alloc: Global, id: usize, text: usize) -> Result<Left, NoMemory> {
    let mut source = Bytes::new(alloc);
    source.extend(OPENING.as_bytes())?;
    source.extend(b"<s:Label id=\"")?;
    put_equal(&mut source, b'a', id)?;
    source.extend(b"\" text=\"")?;
    put_equal(&mut source, b'0', text)?;
    source.extend(b"\"/>")?;
    source.extend(CLOSING.as_bytes())?;
    let list = files(alloc, "Main.mxml", source, Bytes::new(alloc))?;
    perform_on(alloc, WORDS, list, FAIR)
}

fn put_equal(bytes: &mut Bytes, byte: u8, count: usize) -> Result<(), NoMemory> {
    for _ in 0..count {
        bytes.push(byte)?;
    }
    Ok(())
}

// The trace of a Label whose id and text have these lengths.
fn trace_of_lengths(alloc: Global, id: usize, text: usize) -> Result<Bytes, NoMemory> {
    let mut trace = Bytes::new(alloc);
    trace.extend(b"new 1 Main\nnew 2 Label\nset 1.")?;
    put_equal(&mut trace, b'a', id)?;
    trace.extend(b" #2\nset 2.text \"")?;
    put_equal(&mut trace, b'0', text)?;
    trace.extend(b"\"\nadd 1 2 0\nend\n")?;
    Ok(trace)
}

#[test]
fn the_longest_id_and_text(rt: HostRuntime) -> Result<(), Fail> {
    let trace = trace_of_lengths(rt.alloc(), 32, 200)?;
    perform_lengths(rt.alloc(), 32, 200)?.shows_bytes(0, trace.as_slice())?;
    Ok(())
}

#[test]
fn ids_and_texts_that_are_too_long(rt: HostRuntime) -> Result<(), Fail> {
    perform_lengths(rt.alloc(), 33, 200)?.refuses(3, NOT_YET)?;
    perform_lengths(rt.alloc(), 32, 201)?.refuses(3, NOT_YET)?;
    Ok(())
}

// This many spaces.
fn spaces(alloc: Global, length: usize) -> Result<Bytes, NoMemory> {
    Ok(Bytes::from_vec(vec![in alloc; b' '; length]?))
}

// The command over a source of this many spaces.
fn perform_spaces(
    alloc: Global,
    words: &[&str],
    length: usize,
    fails: u64,
) -> Result<Left, NoMemory> {
    let list = files(
        alloc,
        "Main.mxml",
        spaces(alloc, length)?,
        Bytes::new(alloc),
    )?;
    let outside = Outside {
        most: 4096,
        fails,
        sink_fails: 0,
    };
    perform_on(alloc, words, list, outside)
}

// The command over a source with this name and the label, and a script of this many spaces.
fn perform_script(alloc: Global, name: &str, length: usize) -> Result<Left, NoMemory> {
    let source = source(alloc, LABEL)?;
    let list = files(alloc, name, source, spaces(alloc, length)?)?;
    perform_on(alloc, WORDS, list, FAIR)
}

const SOURCE_TOO_LONG: &str = "Main.mxml: too long\n";

#[test]
fn sizes_of_sources(rt: HostRuntime) -> Result<(), Fail> {
    perform_spaces(rt.alloc(), WORDS, 1_048_576, 0)?.refuses(3, "Main.mxml:1:1048577: NoRoot\n")?;
    perform_spaces(rt.alloc(), WORDS, 1_048_577, 0)?.refuses(10, SOURCE_TOO_LONG)?;
    Ok(())
}

#[test]
fn sizes_of_scripts(rt: HostRuntime) -> Result<(), Fail> {
    perform_script(rt.alloc(), "Main.mxml", 1_048_576)?.refuses(4, SCRIPT_NOT_YET)?;
    perform_script(rt.alloc(), "Main.mxml", 1_048_577)?.refuses(10, "empty.txt: too long\n")?;
    Ok(())
}

#[test]
fn the_first_reading_decides(rt: HostRuntime) -> Result<(), Fail> {
    perform_spaces(rt.alloc(), NO_SCRIPT, 1_048_577, 0)?.refuses(10, SOURCE_TOO_LONG)?;
    perform_script(rt.alloc(), "main.mxml", 1_048_577)?.refuses(7, SOURCE_UNREAD)?;
    Ok(())
}

// The source is begun by one call, and 256 calls give 4096 bytes each; the call after them gives
// the byte that is too many, and none is made behind it.
#[test]
fn a_long_source_is_read_no_further(rt: HostRuntime) -> Result<(), Fail> {
    perform_spaces(rt.alloc(), WORDS, 1_048_577, 258)?.refuses(7, SOURCE_UNREAD)?;
    perform_spaces(rt.alloc(), WORDS, 1_048_577, 259)?.refuses(10, SOURCE_TOO_LONG)?;
    Ok(())
}

// The command over a source with the label, where calls of the files or the sink fail.
fn perform_failing(alloc: Global, outside: Outside) -> Result<Left, NoMemory> {
    let source = source(alloc, LABEL)?;
    let list = files(alloc, "Main.mxml", source, Bytes::new(alloc))?;
    perform_on(alloc, WORDS, list, outside)
}

// The source is begun by one call and read by 2, the empty script is begun and read by 2, and the
// file is created by one.
const FIRST_OF_SCRIPT: u64 = 4;

const CREATE: u64 = 6;

const FIRST_APPEND: u64 = 7;

const THIRD_APPEND: u64 = 9;

#[test]
fn a_write_that_fails(rt: HostRuntime) -> Result<(), Fail> {
    let whole = perform_failing(rt.alloc(), FAIR)?;
    let outside = Outside {
        most: 16,
        fails: THIRD_APPEND,
        sink_fails: 0,
    };
    let part = perform_failing(rt.alloc(), outside)?;
    part.shows(8, UNWRITTEN)?;
    let written = part.written()?;
    assert_eq!(rt; written.len(), 32);
    assert!(rt; whole.written()?.starts_with(written));
    Ok(())
}

// The command over a source with the label, where each call takes one byte.
fn perform_slowly(alloc: Global, fails: u64, sink_fails: u64) -> Result<Left, NoMemory> {
    let outside = Outside {
        most: 1,
        fails,
        sink_fails,
    };
    perform_failing(alloc, outside)
}

#[test]
fn one_byte_at_a_time(rt: HostRuntime) -> Result<(), Fail> {
    let whole = perform_failing(rt.alloc(), FAIR)?;
    let slow = perform_slowly(rt.alloc(), 0, 0)?;
    slow.shows(0, TRACE)?;
    assert!(rt; slow.written()? == whole.written()?);
    Ok(())
}

#[test]
fn each_read_of_the_source_fails(rt: HostRuntime) -> Result<(), Fail> {
    for fails in 1..FIRST_OF_SCRIPT {
        perform_slowly(rt.alloc(), fails, 0)?.refuses(7, SOURCE_UNREAD)?;
    }
    Ok(())
}

#[test]
fn each_read_of_the_script_fails(rt: HostRuntime) -> Result<(), Fail> {
    for fails in FIRST_OF_SCRIPT..CREATE {
        perform_slowly(rt.alloc(), fails, 0)?.refuses(7, SCRIPT_UNREAD)?;
    }
    Ok(())
}

#[test]
fn the_making_of_the_file_fails(rt: HostRuntime) -> Result<(), Fail> {
    perform_slowly(rt.alloc(), CREATE, 0)?.refuses(8, UNWRITTEN)?;
    Ok(())
}

#[test]
fn each_write_of_the_file_fails(rt: HostRuntime) -> Result<(), Fail> {
    let left = perform_failing(rt.alloc(), FAIR)?;
    let whole = left.written()?;
    let end = FIRST_APPEND.saturating_add(whole.len() as u64);
    for fails in FIRST_APPEND..end {
        let part = perform_slowly(rt.alloc(), fails, 0)?;
        part.shows(8, UNWRITTEN)?;
        let written = part.written()?;
        assert_eq!(rt; written.len() as u64, fails - FIRST_APPEND);
        assert!(rt; whole.starts_with(written));
    }
    perform_slowly(rt.alloc(), end, 0)?.shows(0, TRACE)?;
    Ok(())
}

// The trace has 71 bytes.
#[test]
fn each_write_of_the_trace_fails(rt: HostRuntime) -> Result<(), Fail> {
    let whole = perform_failing(rt.alloc(), FAIR)?;
    for taken in 0..71 {
        let part = perform_slowly(rt.alloc(), 0, taken + 1)?;
        part.is_cut(taken, TRACE)?;
        assert!(rt; part.written()? == whole.written()?);
    }
    perform_slowly(rt.alloc(), 0, 72)?.shows(0, TRACE)?;
    Ok(())
}

// The line that says what failed is cut off too: here it has 17 bytes.
#[test]
fn each_write_of_a_line_fails(rt: HostRuntime) -> Result<(), Fail> {
    for taken in 0..17 {
        let outside = Outside {
            most: 1,
            fails: 0,
            sink_fails: taken + 1,
        };
        let part = perform_on(rt.alloc(), &["fly"], Sequence::new(rt.alloc()), outside)?;
        part.is_cut(taken, BAD_USAGE)?;
    }
    Ok(())
}

// From the magic to the length, from there to the length of DoABC, from there into the ABC, and
// what stands behind the ABC.
const MAGIC: &[u8] = b"FWS\x0A";

const START: &[u8] =
    b"\x78\x00\x04\xE2\x00\x00\x0E\xA6\x00\x00\x18\x01\x00\x44\x11\x08\x00\x00\x00\x43\x02\xFF\xFF\xFF\xBF\x14";

const BEFORE_ABC: &[u8] = b"\0\0\0\0flexc\0\x10\x00\x2E\x00";

const END: &[u8] = b"\x09\x13\x01\0\0\0Main\0\x40\0\0\0";

#[test]
fn the_layout_of_the_file(rt: HostRuntime) -> Result<(), Fail> {
    for elements in [LABEL, ""] {
        let left = perform(rt.alloc(), WORDS, "Main.mxml", elements, b"")?;
        left.is_laid_out()?;
    }
    Ok(())
}
